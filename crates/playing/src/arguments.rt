// What the player is asked for by its first argument, and the two texts that can be asked for.
ghost use Rattle.std.specs.Prelude.{◌≡◌, [], OnOk, IfSome};
ghost use Rattle.std.specs.Io.Buffered.{writer_buffer, writer_contents};
ghost use Rattle.playing.specs.Running.{Writes, WritesAll};
ghost use Rattle.playing.specs.Lines.{PlayerText};
ghost use Rattle.playing.specs.declared.arguments.Asked.TheVariants.{Play};
ghost use Rattle.playing.specs.Arguments.{AsksFor, RunsAsked, usage, version};

use crate::halt::Halt;
use crate::run::play;
use crate::streams::{finish, put};
use std::alloc::Global;
use std::io::{self, BufWriter, Read, Write};

// How the player is used.
fn usage() -> &'static [u8]
    ensures { result.now ≡ usage }
{
    b"usage: player < FILE

Reads a rack file from standard input, and writes a line for each of its
records to standard output, or one line for a file that it cannot read.
It asks for nothing: on a terminal it waits in silence for the file.

  --help     writes this text
  --version  writes the version

Only the first argument is looked at, and any other does nothing.
The exit status is 0, also for a file that it cannot read, and 1 where
reading, writing or memory fails.
"
}

// Which player it is.
fn version() -> &'static [u8]
    ensures { result.now ≡ version }
{
    b"player 1.0, for rack files of version 1
"
}

/// What the player is asked for.
#[derive(Clone, Copy, Debug, PartialEq, Eq)]
pub enum Asked {
    Help,
    Version,
    Play,
}

impl Asked {
    /// What the first argument asks for. Any other than the two that ask for a text does nothing: the player plays.
    pub fn by(argument: &[u8]) -> Asked
        ensures { AsksFor argument.now result }
    {
        if argument == b"--help".as_slice() {
            Asked::Help
        } else if argument == b"--version".as_slice() {
            Asked::Version
        } else {
            Asked::Play
        }
    }
}

// A text goes through the buffer to the writer behind it.
fn tell<W: Write + Drop>(text: &[u8], out: &mut BufWriter<W>) -> io::Result<()>
    ensures text { Writes (λ t. t ≡ text.now) (writer_contents W.contents out.old) (writer_contents W.contents out.new) result }
    ensures flushed { OnOk result (writer_buffer out.new ≡ []) }
{
    put(out, text)?;
    finish(out)
}

/// Does what is asked: writes the text that is asked for and reads nothing, or plays.
///
/// # Errors
///
/// As `play`; a text that is asked for can only end by `Writing`.
pub fn carry_out<R: Read, W: Write + Drop>(
    alloc: Global,
    asked: Asked,
    reader: &mut R,
    out: &mut BufWriter<W>,
) -> Result<(), Halt>
    ensures run { RunsAsked asked (R.remaining reader.old) (R.remaining reader.new) (writer_contents W.contents out.old) (writer_contents W.contents out.new) result }
    ensures flushed { OnOk result (writer_buffer out.new ≡ []) }
    ensures whole { asked ≡ Play → OnOk result (IfSome (R.remaining reader.old) (λ file. WritesAll (PlayerText file) (writer_contents W.contents out.old) (writer_contents W.contents out.new))) }
{
    match asked {
        Asked::Help => tell(usage(), out).map_err(Halt::Writing),
        Asked::Version => tell(version(), out).map_err(Halt::Writing),
        Asked::Play => play(alloc, reader, out),
    }
}
