// The whole run: from the bytes read to the bytes written.
ghost use Rattle.std.specs.Prelude.{◌≡◌, [], OnOk, IfSome};
ghost use Rattle.std.specs.Io.Buffered.{writer_buffer, writer_contents};
ghost use Rattle.rackfile.specs.Records.{seen_as};
ghost use Rattle.playing.specs.Running.{RecordWritten, LinesWritten, FaultWritten, Writes, WritesAll, Runs};
ghost use Rattle.playing.specs.Lines.{PlayerText};

use crate::fault::PlayerFault;
use crate::halt::Halt;
use crate::opening::{Play, begin};
use crate::outcome::unreadable_line;
use crate::records::play_record;
use crate::streams::{finish, put, read_input};
use judges::Points;
use lines::write_line;
use preferences::Policy;
use rack::Rack;
use rackfile::{Record, Records};
use std::alloc::Global;
use std::io::{self, BufWriter, Read, Write};

// One record: it is played, and its line is written out.
// Six parameters, as `play_record` has five: the sheet and the line's buffer are the caller's.
fn play_out<W: Write>(
    rack: &mut Rack<Points, Policy>,
    one: Record<'_>,
    index: u32,
    sheet: &mut [u32; 16],
    line: &mut [u8; 64],
    out: &mut W,
) -> io::Result<()>
    ensures { RecordWritten rack.old (seen_as one.entry) index sheet.old line.old (W.contents out.old) rack.new sheet.new line.new (W.contents out.new) result }
{
    let long = play_record(rack, one, index, sheet, line);
    put(out, &line[..long])
}

// The lines of the records, in order, each with its index from 0, on one rack from the first record to the last.
fn play_records<W: Write>(
    rack: &mut Rack<Points, Policy>,
    records: Records<'_>,
    out: &mut W,
) -> io::Result<()>
    ensures { LinesWritten rack.old records.entry (W.contents out.old) (W.contents out.new) result }
{
    let mut sheet = [0u32; 16];
    let mut line = [0u8; 64];
    for (index, record) in (0u32..).zip(records) {
        play_out(rack, record, index, &mut sheet, &mut line, out)?;
    }
    Ok(())
}

// The line of a fault that ends the run before its first record. A refusal has its line with its record, and none here.
fn play_fault<W: Write>(fault: PlayerFault, out: &mut W) -> io::Result<()>
    ensures { FaultWritten fault (W.contents out.old) (W.contents out.new) result }
{
    match fault {
        PlayerFault::Unread(found) => {
            let mut line = [0u8; 64];
            let n = write_line(&mut line, unreadable_line(found));
            put(out, &line[..n])
        }
        PlayerFault::Turned(_) => Ok(()),
    }
}

// The text of an input.
#[tactic(auto, using(crate::proofs::Whole::file_written, crate::proofs::Whole::fault_written))]
fn write_text<W: Write>(input: &[u8], out: &mut W) -> io::Result<()>
    ensures { Writes (PlayerText input.now) (W.contents out.old) (W.contents out.new) result }
{
    match begin(input) {
        Ok(play) => {
            let Play { mut rack, records } = play;
            play_records(&mut rack, records, out)
        }
        Err(fault) => play_fault(fault, out),
    }
}

// The text of an input, through the buffer to the writer behind it.
fn write_out<W: Write + Drop>(input: &[u8], out: &mut BufWriter<W>) -> io::Result<()>
    ensures text { Writes (PlayerText input.now) (writer_contents W.contents out.old) (writer_contents W.contents out.new) result }
    ensures flushed { OnOk result (writer_buffer out.new ≡ []) }
{
    write_text(input, out)?;
    finish(out)
}

/// Plays a rack file: reads it from the reader, and writes its lines, or the line of its fault, and nothing else.
///
/// At most 65,537 bytes are read, enough to tell that a file is too long.
///
/// # Errors
///
/// `Reading` and `Memory`: nothing was written. `Writing`: a front part of the text was.
#[tactic(auto, using(crate::proofs::Whole::run_of))]
pub fn play<R: Read, W: Write + Drop>(
    alloc: Global,
    reader: &mut R,
    out: &mut BufWriter<W>,
) -> Result<(), Halt>
    ensures run { Runs (R.remaining reader.old) (R.remaining reader.new) (writer_contents W.contents out.old) (writer_contents W.contents out.new) result }
    ensures flushed { OnOk result (writer_buffer out.new ≡ []) }
    ensures whole { OnOk result (IfSome (R.remaining reader.old) (λ file. WritesAll (PlayerText file) (writer_contents W.contents out.old) (writer_contents W.contents out.new))) }
{
    let input = read_input(alloc, reader)?;
    write_out(input.as_slice(), out).map_err(Halt::Writing)
}
