// `make M points|step F|B|W`
ghost use Rattle.std.specs.Prelude.{◌≡◌, Some, string_bytes};
ghost use Rattle.script.specs.NoCalls.{Named, Reads};
ghost use Rattle.console.specs.Making.{setup_name, ReadsMake, Puts, MakeTold, made_text, one_number};
ghost use Rattle.console.specs.Unanswered.{Says};

use crate::console::Console;
use crate::lost::in_words;
use crate::unanswered::Unanswered;
use judges::AnyJudge;
use preferences::Policy;
use rack::Rack;
use script::{NoCall, numbers, split_word};
use seating::{MakeRefusal, Refused};
use std::alloc::Global;
use std::fmt::{self, Display};
use std::str::FromStr;

/// What a rack is made with.
#[derive(Clone, Copy, Debug, PartialEq, Eq)]
pub struct Setup {
    pub judge: AnyJudge,
    pub policy: Policy,
}

/// `points F` and so on.
impl FromStr for Setup {
    ghost use Rattle.console.specs.declared.making.Setup.{Setup};

    type Err = NoCall;

    ghost from_str_gives = { λ text r. Named (λ (s : Setup). setup_name s.judge s.policy) text r };

    fn from_str(text: &str) -> Result<Setup, NoCall> {
        // Six texts as they stand: parted at the space, the judge's name and the policy's letter would be two more readers.
        let (judge, policy) = match text {
            "points F" => (AnyJudge::Points, Policy::First),
            "points B" => (AnyJudge::Points, Policy::Best),
            "points W" => (AnyJudge::Points, Policy::Worst),
            "step F" => (AnyJudge::StepUp, Policy::First),
            "step B" => (AnyJudge::StepUp, Policy::Best),
            "step W" => (AnyJudge::StepUp, Policy::Worst),
            _ => return Err(NoCall::Unreadable),
        };
        Ok(Setup { judge, policy })
    }
}

// A rack onto the console, or none where it is refused.
fn put(console: &mut Console, processors: usize, setup: Setup) -> Result<(), MakeRefusal>
    ensures { Puts processors setup result console.new }
{
    // No `?`: a rack is large, and is written once, straight onto the console.
    match Rack::make(processors, setup.judge, setup.policy) {
        Ok(rack) => {
            *console = Some(rack);
            Ok(())
        }
        Err(blank) => {
            *console = None;
            Err(blank.refusal())
        }
    }
}

/// The answer to `make`: `ok`, or the refusal.
#[derive(Clone, Copy)]
struct MakeText(Result<(), MakeRefusal>);

impl fmt::Display for MakeText {
    ghost output = { λ m. Some (made_text m.0) };

    fn fmt<W: fmt::Write>(&self, f: &mut fmt::Formatter<W>) -> fmt::Result {
        match self.0 {
            Ok(()) => write!(f, "ok"),
            Err(refusal) => Refused::from(refusal).fmt(f),
        }
    }
}

// The one number that stands in `text`.
pub(crate) fn one_number(alloc: Global, text: &str) -> Result<u32, NoCall>
    ensures { Reads (λ n. n) (one_number text.now) result }
{
    let all = numbers(alloc, text.as_bytes())?;
    match all.as_slice() {
        [number] => Ok(*number),
        _ => Err(NoCall::Unreadable),
    }
}

// What `make` asks for.
fn make_from(alloc: Global, rest: &str) -> Result<(u32, Setup), NoCall>
    ensures { ReadsMake rest.now result }
{
    let (digits, tail) = split_word(rest).ok_or(NoCall::Unreadable)?;
    let setup = Setup::from_str(tail)?;
    let processors = one_number(alloc, digits)?;
    Ok((processors, setup))
}

// Makes the rack that `rest` asks for, and answers `ok` or the refusal.
pub(crate) fn make(alloc: Global, console: &mut Console, rest: &str) -> Result<String, Unanswered>
    ensures { Says string_bytes (MakeTold console.old rest.now) console.old console.new result }
{
    let (processors, setup) = make_from(alloc, rest)?;
    // `as`: a usize has no `From<u32>`.
    let answer = put(console, processors as usize, setup);
    Ok(in_words(alloc, &MakeText(answer))?)
}
