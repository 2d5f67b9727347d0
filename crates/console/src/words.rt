// The words that the console's calls begin with.
ghost use Rattle.std.specs.Prelude.{◌≡◌, ℕ, List, ◌∷◌, ◌++◌, MatchOption, ◌≢◌};
ghost use Rattle.console.specs.Names.{name_of};
ghost use Rattle.script.specs.NoCalls.{Named};

use script::{NoCall, split_word};
use std::str::FromStr;

/// The word of a call.
#[derive(Clone, Copy, Debug, PartialEq, Eq)]
pub enum Word {
    Read,
    Play,
    Make,
    Admit,
    Withdraw,
    Find,
    Load,
    Seats,
}

/// The word that stands in the text; no call where there is none.
impl FromStr for Word {
    type Err = NoCall;

    ghost from_str_gives = { λ text r. Named name_of text r };

    fn from_str(text: &str) -> Result<Word, NoCall> {
        match text {
            "read" => Ok(Word::Read),
            "play" => Ok(Word::Play),
            "make" => Ok(Word::Make),
            "admit" => Ok(Word::Admit),
            "withdraw" => Ok(Word::Withdraw),
            "find" => Ok(Word::Find),
            "load" => Ok(Word::Load),
            "seats" => Ok(Word::Seats),
            _ => Err(NoCall::Unreadable),
        }
    }
}

/// The console's word that a line begins with, and what stands behind the space after it.
pub fn asked(line: &str) -> Option<(Word, &str)>
    ensures { MatchOption result ((w : Word) (rest : List ℕ) → line.now ≢ name_of w ++ (32 ∷ rest)) (λ x. line.now ≡ name_of x.0 ++ (32 ∷ x.1.now)) }
{
    let (first, rest) = split_word(line)?;
    let word = Word::from_str(first).ok()?;
    Some((word, rest))
}
