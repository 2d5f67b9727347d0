// Work in units, time in ticks, and a processor's speed, by which alone the one becomes the other.
ghost use Rattle.std.specs.Prelude.{◌≡◌, ◌≤◌, Some, decimal};
ghost use Rattle.tasks.specs.Units.{units_in, ticks_for, one_a_tick, in_32_bits, ticks_answer};

use std::fmt;

/// Work.
#[derive(Clone, Copy, Debug, Default, PartialEq, Eq, PartialOrd, Ord)]
pub struct Units(pub u64);

/// The bare number: what stands around it says the unit.
impl fmt::Display for Units {
    ghost output = { λ units. Some (decimal units.0) };

    fn fmt<W: fmt::Write>(&self, f: &mut fmt::Formatter<W>) -> fmt::Result {
        let units = self.0;
        write!(f, "{units}")
    }
}

/// Time: an instant, or a length of time.
#[derive(Clone, Copy, Debug, Default, PartialEq, Eq, PartialOrd, Ord)]
pub struct Ticks(pub u32);

/// The bare number, as with work.
impl fmt::Display for Ticks {
    ghost output = { λ ticks. Some (decimal ticks.0) };

    fn fmt<W: fmt::Write>(&self, f: &mut fmt::Formatter<W>) -> fmt::Result {
        let ticks = self.0;
        write!(f, "{ticks}")
    }
}

/// How many units a processor does in a tick.
#[derive(Clone, Copy, Debug, PartialEq, Eq)]
pub struct Speed(pub u32);

impl Speed {
    /// One unit a tick: the speed of every processor.
    pub fn one() -> Speed
        ensures { result ≡ one_a_tick }
    {
        Speed(1)
    }

    /// The units done in `t`.
    pub fn units_in(self, t: Ticks) -> Units
        ensures { result.0 ≡ units_in self t.0 }
    {
        Units(u64::from(self.0) * u64::from(t.0))
    }

    /// The least ticks in which `work` is done: none at speed 0, or past 32 bits.
    pub fn ticks_for(self, work: Units) -> Option<Ticks>
        ensures { result ≡ ticks_answer self work.0 }
    {
        if self.0 == 0 {
            return None;
        }
        in_32_bits(ticks_over(work, self))
    }
}

// The work divided by the speed, rounded up: apart from `over`, which takes a period, for the two never mix.
#[tactic(auto, using(crate::proofs::Roundings::rounding))]
fn ticks_over(work: Units, speed: Speed) -> u64
    requires { 1 ≤ speed.0 }
    ensures { result ≡ ticks_for speed work.0 }
{
    work.0.div_ceil(u64::from(speed.0))
}

// A number of ticks, where it has 32 bits.
fn in_32_bits(ticks: u64) -> Option<Ticks>
    ensures { result ≡ in_32_bits ticks }
{
    u32::try_from(ticks).ok().map(Ticks)
}
