// Why nothing was read.
ghost use Rattle.std.specs.Prelude.{◌≡◌};
ghost use Rattle.std.specs.declared.alloc.AllocError.{AllocError};
ghost use Rattle.script.specs.declared.no_call.NoCall.TheVariants.{Memory};
ghost use Rattle.script.specs.NoCalls.{no_call_text};

use std::alloc::{AllocError, AllocFailed};
use std::error::Error;
use std::fmt;

/// Why a text gave nothing.
#[derive(Clone, Copy, Debug, PartialEq, Eq)]
pub enum NoCall {
    /// What is asked for does not stand there.
    Unreadable,
    /// Memory ran out before that was known.
    Memory(AllocError),
}

impl From<AllocError> for NoCall {
    ghost from_gives = { λ e r. r ≡ Memory e };

    fn from(error: AllocError) -> NoCall {
        NoCall::Memory(error)
    }
}

impl<T: Drop> From<AllocFailed<T>> for NoCall {
    ghost from_gives = { λ _ r. (e : AllocError) × (r ≡ Memory e) };

    fn from(error: AllocFailed<T>) -> NoCall {
        NoCall::Memory(error.into())
    }
}

impl fmt::Display for NoCall {
    ghost output = { no_call_text };

    fn fmt<W: fmt::Write>(&self, f: &mut fmt::Formatter<W>) -> fmt::Result {
        match self {
            NoCall::Unreadable => write!(f, "no call"),
            NoCall::Memory(_) => write!(f, "out of memory"),
        }
    }
}

impl Error for NoCall {}
