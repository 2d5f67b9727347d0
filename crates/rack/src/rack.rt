// A rack, and how it is made.
ghost use Rattle.std.specs.Prelude.{◌≡◌, ◌≤◌, [], replicate};
ghost use Rattle.rack.specs.Table.{Sound, rack_size};
ghost use Rattle.rack.specs.Always.{Always};

use super::blank::Blank;
use super::processor::Processor;
use arrayvec::ArrayVec;
use judges::Judge;
use preferences::Preference;
use seating::MakeRefusal;
use std::marker::Model;

/// A rack of 1 to 16 processors, with the judge and the preference that it was made with.
// No `==`: at a type with a model it cannot be derived, and nobody compares racks.
#[derive(Debug, Drop)]
pub struct Rack<J, P> {
    pub(crate) processors: ArrayVec<Processor, 16>,
    pub(crate) judge: J,
    pub(crate) preference: P,
}

// Each call says `Sound` again: callers see a rack's value alone, and a proof inside the value would stand in every equation of two racks.
impl<J, P> Model for Rack<J, P> {
    ghost use Rattle.rack.specs.Table.{Table, Sound};

    ghost Value = { Table J P };

    ghost view = { λ r. record { lists = r.processors.items; judge = r.judge; preference = r.preference } };

    ghost invariant = { λ r. Sound r.processors.items };
}

// Whether a rack has so many processors.
fn may_have(processors: usize) -> bool
    ensures { result ≡ rack_size processors }
{
    (1..=16).contains(&processors)
}

// The first N of 16 processors, with all seats free.
fn all_free<const N: usize>() -> ArrayVec<Processor, 16>
    requires { N ≤ 16 }
    ensures { result.items ≡ replicate N [] }
{
    let mut processors = ArrayVec::new();
    for _ in 0..N {
        processors.push(Processor::default());
    }
    processors
}

// So many processors with all seats free.
// An arm for each count: with a constant LLVM fills the 16 places once, where the rack will stand. A loop up to `count` writes them twice and moves them.
fn free_processors(count: usize) -> ArrayVec<Processor, 16>
    requires { count ≤ 16 }
    ensures { result.items ≡ replicate count [] }
{
    match count {
        0 => all_free::<0>(),
        1 => all_free::<1>(),
        2 => all_free::<2>(),
        3 => all_free::<3>(),
        4 => all_free::<4>(),
        5 => all_free::<5>(),
        6 => all_free::<6>(),
        7 => all_free::<7>(),
        8 => all_free::<8>(),
        9 => all_free::<9>(),
        10 => all_free::<10>(),
        11 => all_free::<11>(),
        12 => all_free::<12>(),
        13 => all_free::<13>(),
        14 => all_free::<14>(),
        15 => all_free::<15>(),
        _ => all_free::<16>(),
    }
}

impl<J: Judge, P: Preference> Rack<J, P> {
    ghost use Rattle.rack.specs.Steps.{MakeStep};

    /// A rack of so many processors with all seats free. It is refused if that is 0 or above 16.
    pub fn make(processors: usize, judge: J, preference: P) -> Result<Self, Blank<J, P>>
        ensures { MakeStep J.meaning P.before processors judge preference result }
    {
        if !may_have(processors) {
            return Err(Blank {
                refusal: MakeRefusal::ProcessorCount,
                judge,
                preference,
            });
        }
        Ok(Rack {
            processors: free_processors(processors),
            judge,
            preference,
        })
    }
}

/// What every rack keeps, whatever its judge and its preference.
pub fn rack_sound<J, P>(rack: &Rack<J, P>)
    ensures { Sound rack.now.lists }
{
    // With a field in use the rack's invariant is known.
    let _ = &rack.processors;
}

/// At every moment a rack is sound, and each of the five calls, whatever is asked, has exactly one answer that its relation allows, with one sheet and one table afterwards.
pub fn every_rack<J: Judge, P: Preference>(rack: &Rack<J, P>)
    ensures { Always J.meaning P.before rack.now }
{
    // With a field in use the rack's invariant is known.
    let _ = &rack.processors;
}
