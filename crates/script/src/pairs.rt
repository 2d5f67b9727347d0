// Numbers two by two, behind their count.
ghost use Rattle.std.specs.Prelude.{◌≡◌, ℕ, IfOk, vec_items};
ghost use Rattle.std.specs.Option.{option_map};
ghost use Rattle.script.specs.NoCalls.{Reads};
ghost use Rattle.script.specs.Pairs.{in_pairs, parted, alone, counted_alone};
ghost use Rattle.script.specs.Calls.{plain_task, release_of};

use crate::no_call::NoCall;
use machine::Release;
use std::alloc::{AllocError, Global};
use tasks::{Task, Ticks};

// What two numbers in turn stand for. A trait of our own: tasks and releases are of other crates, so `From` of a pair cannot stand here.
pub(crate) trait FromPair: Sized + Drop {
    ghost meaning: { ℕ → ℕ → Self };

    fn from_pair(first: u32, second: u32) -> Self
        ensures { result ≡ meaning first second };
}

// A work and a period; scripts give tasks no number.
impl FromPair for Task {
    ghost meaning = { plain_task };

    fn from_pair(work: u32, period: u32) -> Task {
        Task::of(0, work, period)
    }
}

// A place and an instant.
impl FromPair for Release {
    ghost meaning = { release_of };

    fn from_pair(place: u32, instant: u32) -> Release {
        Release {
            // `as`: a usize has no `From<u32>`, and `try_from` would add an error that cannot come.
            place: place as usize,
            instant: Ticks(instant),
        }
    }
}

// What numbers stand for two by two.
pub(crate) fn pairs<T: FromPair>(alloc: Global, numbers: &[u32]) -> Result<Vec<T>, AllocError>
    ensures { IfOk result (λ v. v.items ≡ in_pairs T.meaning numbers.now) }
{
    let mut all = Vec::new(alloc);
    let mut left = numbers;
    while let [first, second, rest @ ..] = left {
        all.push(T::from_pair(*first, *second))?;
        left = rest;
    }
    Ok(all)
}

// The numbers behind the count in `N A1 B1 .. AN BN`, and what stands behind them.
pub(crate) fn parted(numbers: &[u32]) -> Option<(&[u32], &[u32])>
    ensures { option_map (λ p. (p.0.now, p.1.now)) result ≡ parted numbers.now }
{
    let (count, rest) = numbers.split_first()?;
    // `as`, as in a release's place.
    rest.split_at_checked(2 * (*count as usize))
}

// The numbers behind the count in `N A1 B1 .. AN BN`, with nothing behind them.
pub(crate) fn parted_alone(numbers: &[u32]) -> Option<&[u32]>
    ensures { option_map (λ list. list.now) result ≡ alone (parted numbers.now) }
{
    match parted(numbers)? {
        (list, []) => Some(list),
        _ => None,
    }
}

// `N A1 B1 .. AN BN`, and nothing behind it. The count is looked at before the list is made: a line that is no call takes no memory for a list.
pub(crate) fn counted_alone<T: FromPair>(alloc: Global, numbers: &[u32]) -> Result<Vec<T>, NoCall>
    ensures { Reads vec_items (counted_alone T.meaning numbers.now) result }
{
    let list = parted_alone(numbers).ok_or(NoCall::Unreadable)?;
    Ok(pairs(alloc, list)?)
}
