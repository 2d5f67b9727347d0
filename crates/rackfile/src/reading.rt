// The second layer: records.
ghost use Rattle.std.specs.Prelude.{◌≡◌};
ghost use Rattle.rackfile.specs.Reading.{Reads};
ghost use Rattle.rackfile.specs.Records.{printable, first_bad, length_allowed, seen_as, read_label, read_admission, read_withdrawal, read_record};

use crate::bytes::Reader;
use crate::fault::RecordFault;
use crate::record::Record;

// Whether a byte may stand in a label. The bounds in numbers, and no `is_ascii_graphic`: so the format says them.
fn is_printable(b: u8) -> bool
    ensures { result ≡ printable b }
{
    (0x21..=0x7e).contains(&b)
}

// The index of the first byte that may not.
fn first_bad_byte(label: &[u8]) -> Option<usize>
    ensures { result ≡ first_bad label.now }
{
    label.iter().position(|b| !is_printable(*b))
}

// Whether a label may be so long. A rule apart from `is_rack_size`: that the two bounds are equal is chance.
fn is_label_length(n: u8) -> bool
    ensures { result ≡ length_allowed n }
{
    (1..=16).contains(&n)
}

// A label and its place.
fn label<'a>(reader: &mut Reader<'a>) -> Result<(&'a [u8], usize), RecordFault>
    ensures { Reads (λ label. (label.0.now, label.1)) reader.old reader.new result (read_label reader.old.whole reader.old.left.now) }
{
    let before = reader.place();
    let n = reader.byte()?;
    if !is_label_length(n) {
        return Err(RecordFault::Label { place: before });
    }
    let place = reader.place();
    let text = reader.part(usize::from(n))?;
    match first_bad_byte(text) {
        Some(bad) => Err(RecordFault::Label { place: place + bad }),
        None => Ok((text, place)),
    }
}

// An admission, behind its tag.
fn admission<'a>(reader: &mut Reader<'a>) -> Result<Record<'a>, RecordFault>
    ensures { Reads seen_as reader.old reader.new result (read_admission reader.old.whole reader.old.left.now) }
{
    let number = reader.word()?;
    let work = reader.word()?;
    let period = reader.word()?;
    let (label, place) = label(reader)?;
    Ok(Record::Admission {
        number,
        work,
        period,
        label,
        place,
    })
}

// A withdrawal, behind its tag.
fn withdrawal<'a>(reader: &mut Reader<'a>) -> Result<Record<'a>, RecordFault>
    ensures { Reads seen_as reader.old reader.new result (read_withdrawal reader.old.whole reader.old.left.now) }
{
    let number = reader.word()?;
    Ok(Record::Withdrawal { number })
}

// The record at the front.
pub(crate) fn record<'a>(reader: &mut Reader<'a>) -> Result<Record<'a>, RecordFault>
    ensures { Reads seen_as reader.old reader.new result (read_record reader.old.whole reader.old.left.now) }
{
    let place = reader.place();
    match reader.byte()? {
        b'A' => admission(reader),
        b'W' => withdrawal(reader),
        _ => Err(RecordFault::Tag { place }),
    }
}
