// The words that calls begin with.
ghost use Rattle.script.specs.NoCalls.{Named};
ghost use Rattle.script.specs.Names.{name_of};

use crate::no_call::NoCall;
use std::str::FromStr;

/// The word of a call.
#[derive(Clone, Copy, Debug, PartialEq, Eq)]
pub enum Word {
    Judge,
    Demand,
    Share,
    Rehearse,
    Trace,
}

impl FromStr for Word {
    type Err = NoCall;

    ghost from_str_gives = { λ text r. Named name_of text r };

    fn from_str(text: &str) -> Result<Word, NoCall> {
        match text {
            "judge" => Ok(Word::Judge),
            "demand" => Ok(Word::Demand),
            "share" => Ok(Word::Share),
            "rehearse" => Ok(Word::Rehearse),
            "trace" => Ok(Word::Trace),
            _ => Err(NoCall::Unreadable),
        }
    }
}
