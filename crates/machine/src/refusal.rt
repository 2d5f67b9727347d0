// Why a rehearsal is refused.
ghost use Rattle.std.specs.Prelude.{◌≡◌, Some};
ghost use Rattle.machine.specs.Refusals.{number_of, refusal_text, NumbersDiffer};

use std::fmt;

/// Why a rehearsal is refused: its tasks, its horizon or its releases, each with its number.
#[derive(Clone, Copy, Debug, PartialEq, Eq)]
pub enum Refusal {
    /// There are more than 33 tasks, or one of them does not keep the limits.
    Tasks = 18,
    /// The horizon is past 2,000,000 ticks.
    Horizon = 19,
    /// There are more than 65,536 releases, or they are not lawful.
    Releases = 20,
}

impl Refusal {
    /// The number of the refusal.
    pub fn number(&self) -> u32
        ensures { result ≡ number_of self.now }
    {
        *self as u32
    }
}

/// `R` and the number.
impl fmt::Display for Refusal {
    ghost output = { λ refusal. Some (refusal_text refusal) };

    fn fmt<W: fmt::Write>(&self, f: &mut fmt::Formatter<W>) -> fmt::Result {
        let number = self.number();
        write!(f, "R{number}")
    }
}

/// No two refusals have one number.
pub fn refusal_numbers_differ()
    ensures { NumbersDiffer }
{}
