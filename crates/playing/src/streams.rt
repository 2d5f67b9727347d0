// What comes in and goes out, so that it is known also after an error how much was read or written.
ghost use Rattle.std.specs.Prelude.{◌≡◌, ◌≢◌, [], IfErr, vec_capacity};
ghost use Rattle.std.specs.IoError.{error_kind};
ghost use Rattle.playing.specs.Streams.{Fills, TakesUp, ReadsInput, Puts, Finishes};

use crate::halt::Halt;
use std::alloc::Global;
use std::io;
use std::io::{BufWriter, Error, ErrorKind, Read, Write};

// One byte more than a file may have: enough to tell that an input is too long.
const MOST_READ: usize = 65_537;

// The bytes of an input are read in blocks of so many: little to clear for a short input, and few reads for a long one.
const BLOCK: usize = 1_024;

// The error where a loop over interrupted calls ends.
fn gave_up() -> Error
    ensures { error_kind result ≡ ErrorKind.TimedOut }
{
    Error::new(ErrorKind::TimedOut, "interrupted too often")
}

// Reads into the buffer from its front, until it is full or nothing more comes, and answers how many bytes came. An interrupted read is tried again.
#[tactic(auto, using(crate::proofs::Moving::readings))]
fn fill<R: Read>(reader: &mut R, buffer: &mut [u8]) -> io::Result<usize>
    ensures fills { Fills (R.remaining reader.old) (R.remaining reader.new) buffer.new result }
    ensures retried { IfErr result (λ e. error_kind e ≢ ErrorKind.Interrupted) }
{
    let mut filled = 0;
    for _ in 0..u64::MAX {
        if filled == buffer.len() {
            return Ok(filled);
        }
        match reader.read(&mut buffer[filled..]) {
            Ok(0) => return Ok(filled),
            Ok(n) => filled += n,
            Err(e) if e.kind() == ErrorKind::Interrupted => {}
            Err(e) => return Err(e),
        }
    }
    Err(gave_up())
}

// Reads into the vector, which is empty, until it holds as much as it has room for or nothing more comes. It goes block by block, so that a short input does not pay for all the room.
#[tactic(auto, using(crate::proofs::Moving::blocks))]
fn fill_vec<R: Read>(reader: &mut R, mut room: Vec<u8>) -> io::Result<Vec<u8>>
    requires { room.items ≡ [] }
    ensures { TakesUp (vec_capacity room) (R.remaining reader.old) (R.remaining reader.new) result }
{
    let most = room.capacity();
    let mut block = [0u8; BLOCK];
    while room.len() < most {
        let size = BLOCK.min(most - room.len());
        let part = &mut block[..size];
        let came = fill(reader, part)?;
        // There is room, so nothing is allocated.
        room.extend_from_slice(&part[..came]).unwrap();
        if came < size {
            return Ok(room);
        }
    }
    Ok(room)
}

// All that the reader has, or the first 65,537 bytes of it.
#[tactic(auto, using(crate::proofs::Moving::input_read))]
pub(crate) fn read_input<R: Read>(alloc: Global, reader: &mut R) -> Result<Vec<u8>, Halt>
    ensures { ReadsInput (R.remaining reader.old) (R.remaining reader.new) result }
{
    // All the memory, before the first read.
    let room = Vec::with_capacity(alloc, MOST_READ)?;
    fill_vec(reader, room).map_err(Halt::Reading)
}

// Writes all the bytes. An interrupted write is tried again.
#[tactic(auto, using(crate::proofs::Moving::writings))]
pub(crate) fn put<W: Write>(writer: &mut W, bytes: &[u8]) -> io::Result<()>
    ensures puts { Puts (W.contents writer.old) (W.contents writer.new) bytes.now result }
    ensures retried { IfErr result (λ e. error_kind e ≢ ErrorKind.Interrupted) }
{
    let mut written = 0;
    for _ in 0..u64::MAX {
        let part = &bytes[written..];
        match writer.write(part) {
            Ok(n) if n == part.len() => return Ok(()),
            Ok(0) => return Err(ErrorKind::WriteZero.into()),
            Ok(n) => written += n,
            Err(e) if e.kind() == ErrorKind::Interrupted => {}
            Err(e) => return Err(e),
        }
    }
    Err(gave_up())
}

// Writes out what the buffer holds.
pub(crate) fn finish<W: Write + Drop>(out: &mut BufWriter<W>) -> io::Result<()>
    ensures { Finishes W.contents out.old out.new result }
{
    out.flush()
}
