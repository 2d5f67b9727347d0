// A call, and how it stands in a line.
ghost use Rattle.std.specs.Prelude.{◌≡◌, ◌∷◌, ◌++◌, MatchOption};
ghost use Rattle.script.specs.NoCalls.{Reads};
ghost use Rattle.script.specs.Fields.{Unspaced};
ghost use Rattle.script.specs.Calls.{seen_run, seen_as, run_of, call_of, called};

use crate::fields::numbers;
use crate::no_call::NoCall;
use crate::pairs::{counted_alone, pairs, parted, parted_alone};
use crate::words::Word;
use machine::Release;
use std::alloc::Global;
use std::str::FromStr;
use tasks::{Task, Ticks};

/// What a rehearsal is asked about: tasks in the order of priority, and releases below a horizon.
#[derive(Debug, Drop, PartialEq, Eq)]
pub struct Rehearsal {
    pub horizon: Ticks,
    pub tasks: Vec<Task>,
    pub releases: Vec<Release>,
}

/// A call that a script line stands for.
#[derive(Debug, Drop, PartialEq, Eq)]
pub enum Call {
    /// What do both judges say of a task below others?
    Judge {
        task: Task,
        above: Vec<Task>,
    },
    /// What is the demand of a task below others at an instant?
    Demand {
        task: Task,
        at: Ticks,
        above: Vec<Task>,
    },
    /// What is the share of a task?
    Share {
        task: Task,
    },
    /// How does a run of the machine end?
    Rehearse(Rehearsal),
    /// How does it end, and what happens at each instant up to there?
    Trace(Rehearsal),
}

// `N C1 T1 .. CN TN K P1 I1 .. PK IK` behind a horizon.
fn rehearsal_from(alloc: Global, horizon: u32, rest: &[u32]) -> Result<Rehearsal, NoCall>
    ensures { Reads seen_run (run_of horizon rest.now) result }
{
    // Both counts are looked at before a list is made.
    let (tasks, behind) = parted(rest).ok_or(NoCall::Unreadable)?;
    let releases = parted_alone(behind).ok_or(NoCall::Unreadable)?;
    Ok(Rehearsal {
        horizon: Ticks(horizon),
        tasks: pairs(alloc, tasks)?,
        releases: pairs(alloc, releases)?,
    })
}

// The call of a word and its numbers: `judge C T N C1 T1 .. CN TN`, `demand C T t N C1 T1 .. CN TN`, `share C T`, `rehearse H ..` and `trace H ..`.
fn call_from(alloc: Global, word: Word, numbers: &[u32]) -> Result<Call, NoCall>
    ensures { Reads seen_as (call_of word numbers.now) result }
{
    match (word, numbers) {
        (Word::Judge, [work, period, rest @ ..]) => Ok(Call::Judge {
            task: Task::of(0, *work, *period),
            above: counted_alone(alloc, rest)?,
        }),
        (Word::Demand, [work, period, at, rest @ ..]) => Ok(Call::Demand {
            task: Task::of(0, *work, *period),
            at: Ticks(*at),
            above: counted_alone(alloc, rest)?,
        }),
        (Word::Share, [work, period]) => Ok(Call::Share {
            task: Task::of(0, *work, *period),
        }),
        (Word::Rehearse, [horizon, rest @ ..]) => {
            Ok(Call::Rehearse(rehearsal_from(alloc, *horizon, rest)?))
        }
        (Word::Trace, [horizon, rest @ ..]) => {
            Ok(Call::Trace(rehearsal_from(alloc, *horizon, rest)?))
        }
        _ => Err(NoCall::Unreadable),
    }
}

/// The word of a line and what stands behind the space after it; none where there is no space.
pub fn split_word(line: &str) -> Option<(&str, &str)>
    ensures { MatchOption result (Unspaced line.now) (λ x. (line.now ≡ x.0.now ++ (32 ∷ x.1.now)) × Unspaced x.0.now) }
{
    line.split_once(' ')
}

/// The call that a line stands for; unreadable where it stands for none.
#[tactic(auto, using(crate::proofs::Wording::called_none, crate::proofs::Wording::called_unknown))]
pub fn read(alloc: Global, line: &str) -> Result<Call, NoCall>
    ensures { Reads seen_as (called line.now) result }
{
    let (first, rest) = split_word(line).ok_or(NoCall::Unreadable)?;
    let word = Word::from_str(first)?;
    let all = numbers(alloc, rest.as_bytes())?;
    call_from(alloc, word, all.as_slice())
}
