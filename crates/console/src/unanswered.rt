// Why a call has no answer of its own.
ghost use Rattle.std.specs.Prelude.{◌≡◌, Ok, Err, MatchResult};
ghost use Rattle.console.specs.Unanswered.{unread, instead};
ghost use Rattle.console.specs.declared.lost.Lost.TheVariants.{Call, Play};
ghost use Rattle.console.specs.declared.unanswered.Unanswered.TheVariants as why;

use crate::lost::Lost;
use playing::Halt;
use script::NoCall;
use std::alloc::AllocError;

/// Why a call has no answer of its own.
#[derive(Drop)]
pub(crate) enum Unanswered {
    /// What stands behind the word is no call.
    NoCall,
    /// There is no rack at the console.
    NoRack,
    /// Memory or the player has failed.
    Lost(Lost),
}

impl Unanswered {
    // What is said in the place of an answer, or what is lost.
    pub(crate) fn instead(self) -> Result<&'static [u8], Lost>
        ensures { MatchResult result (λ text. instead self ≡ Ok text.now) (λ lost. instead self ≡ Err lost) }
    {
        match self {
            Unanswered::NoCall => Ok(b"?"),
            Unanswered::NoRack => Ok(b"no rack"),
            Unanswered::Lost(lost) => Err(lost),
        }
    }
}

impl From<NoCall> for Unanswered {
    ghost from_gives = { λ e r. r ≡ unread e };

    fn from(e: NoCall) -> Unanswered {
        match e {
            NoCall::Unreadable => Unanswered::NoCall,
            NoCall::Memory(e) => Lost::from(e).into(),
        }
    }
}

impl From<Lost> for Unanswered {
    ghost from_gives = { λ e r. r ≡ why.Lost e };

    fn from(e: Lost) -> Unanswered {
        Unanswered::Lost(e)
    }
}

impl From<AllocError> for Unanswered {
    ghost from_gives = { λ e r. r ≡ why.Lost (Call e) };

    fn from(e: AllocError) -> Unanswered {
        Lost::from(e).into()
    }
}

impl From<Halt> for Unanswered {
    ghost from_gives = { λ e r. r ≡ why.Lost (Play e) };

    fn from(e: Halt) -> Unanswered {
        Lost::from(e).into()
    }
}
