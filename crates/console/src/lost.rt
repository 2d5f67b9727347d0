// What is lost where memory fails.
ghost use Rattle.std.specs.Prelude.{◌≡◌, IfSome, string_bytes};
ghost use Rattle.console.specs.Lost.{lost_text, Written};
ghost use Rattle.console.specs.declared.lost.Lost.TheVariants.{Call, Play};

use playing::Halt;
use std::alloc::{AllocError, Global};
use std::error::Error;
use std::fmt::{self, Display};

/// What is lost where memory or the player fails: never what stands at the console.
#[derive(Debug, Drop)]
pub enum Lost {
    /// The call: it is not made, and the console is as it was.
    Call(AllocError),
    /// The answer: a call, if the line was one, is made, and the console is as it leaves it.
    Answer(AllocError),
    /// The player's text: the player has halted before it was whole, and the console is as it was.
    Play(Halt),
}

// Memory that fails loses the call; behind the call, the code says itself that it loses the answer.
impl From<AllocError> for Lost {
    ghost from_gives = { λ e r. r ≡ Call e };

    fn from(e: AllocError) -> Lost {
        Lost::Call(e)
    }
}

impl From<Halt> for Lost {
    ghost from_gives = { λ e r. r ≡ Play e };

    fn from(e: Halt) -> Lost {
        Lost::Play(e)
    }
}

impl fmt::Display for Lost {
    ghost output = { lost_text };

    fn fmt<W: fmt::Write>(&self, f: &mut fmt::Formatter<W>) -> fmt::Result {
        match self {
            Lost::Call(_) => write!(f, "out of memory: the call is not made"),
            Lost::Answer(_) => write!(f, "out of memory: only the answer is lost"),
            Lost::Play(halt) => halt.fmt(f),
        }
    }
}

impl Error for Lost {}

// The answer to a call that is made, in words.
pub(crate) fn in_words<D: Display>(alloc: Global, answer: &D) -> Result<String, Lost>
    ensures { IfSome (D.output answer.now) (λ text. Written string_bytes text result) }
{
    answer.to_string(alloc).map_err(Lost::Answer)
}
