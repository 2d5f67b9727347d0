// Why the player ends before the text is whole.
ghost use Rattle.std.specs.Prelude.{◌≡◌};
ghost use Rattle.playing.specs.declared.halt.Halt.TheVariants.{Memory};
ghost use Rattle.playing.specs.Streams.{halt_text};

use std::alloc::AllocError;
use std::error::Error;
use std::{fmt, io};

/// Why the player ends before all is written.
#[derive(Debug, Drop)]
pub enum Halt {
    /// Nothing was written.
    Reading(io::Error),
    /// There is no memory for the input, and nothing was read or written.
    Memory(AllocError),
    /// A front part of the text was written.
    Writing(io::Error),
}

impl From<AllocError> for Halt {
    ghost from_gives = { λ e r. r ≡ Memory e };

    fn from(e: AllocError) -> Halt {
        Halt::Memory(e)
    }
}

impl fmt::Display for Halt {
    ghost output = { halt_text };

    fn fmt<W: fmt::Write>(&self, f: &mut fmt::Formatter<W>) -> fmt::Result {
        match self {
            Halt::Reading(e) => write!(f, "reading: {e}"),
            Halt::Memory(_) => write!(f, "no memory for the input"),
            Halt::Writing(e) => write!(f, "writing: {e}"),
        }
    }
}

impl Error for Halt {}
