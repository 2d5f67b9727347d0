// The third layer: the file.
ghost use Rattle.std.specs.Prelude.{◌≡◌, ◌+◌, ◌*◌, ◌<◌, length, Some};
ghost use Rattle.rackfile.specs.Files.{is_mark, is_version, processors_allowed, header_fault, ReadsHeader};
ghost use Rattle.rackfile.specs.Exact.{FileRead};

use crate::bytes::Reader;
use crate::fault::FileFault;
use crate::records::Records;
use preferences::Policy;

/// What a file says: the policy, the number of processors, and the records in their order, which are taken off one at a time.
// No `==`: its records have a model, where it cannot be derived, and nobody compares files.
#[derive(Debug, Drop)]
pub struct RackFile<'a> {
    pub policy: Policy,
    pub processors: u8,
    pub records: Records<'a>,
}

// What the header says of the file.
#[derive(Clone, Copy)]
pub(crate) struct Header {
    policy: Policy,
    processors: u8,
    count: u16,
}

fn has_mark(r: u8, a: u8, k: u8) -> bool
    ensures { result ≡ is_mark r a k }
{
    [r, a, k] == *b"RAK"
}

fn has_version(high: u8, low: u8) -> bool
    ensures { result ≡ is_version high low }
{
    u16::from_be_bytes([high, low]) == 1
}

// Whether a rack may have so many processors: the format's rule, apart from the rack's own, which this crate does not know.
fn is_rack_size(n: u8) -> bool
    ensures { result ≡ processors_allowed n }
{
    (1..=16).contains(&n)
}

// The count of records in its two bytes, the more significant first.
fn count_from(more: u8, less: u8) -> u16
    ensures { result ≡ more * 256 + less }
{
    u16::from_be_bytes([more, less])
}

// The fault of a header that is cut short, field by field: a chain of `if`s, since the first wrong field decides.
// Apart from `read_header`, which takes a whole header by one pattern: a rule of the project.
fn short_fault(reader: &Reader<'_>) -> FileFault
    requires { length reader.now.left.now < 9 }
    ensures { header_fault reader.now.whole reader.now.left.now ≡ Some result }
{
    let header = reader.left;
    let cut = reader.cut().into();
    if header.len() < 3 {
        return cut;
    }
    if !has_mark(header[0], header[1], header[2]) {
        return FileFault::Mark;
    }
    if header.len() < 5 {
        return cut;
    }
    if !has_version(header[3], header[4]) {
        return FileFault::Version;
    }
    if header.len() < 6 {
        return cut;
    }
    if Policy::try_from(char::from(header[5])).is_err() {
        return FileFault::Policy;
    }
    if header.len() < 7 {
        return cut;
    }
    if !is_rack_size(header[6]) {
        return FileFault::Processors;
    }
    cut
}

// The header.
fn read_header(reader: &mut Reader<'_>) -> Result<Header, FileFault>
    ensures { ReadsHeader reader.old reader.new result }
{
    let [
        r,
        a,
        k,
        high,
        low,
        letter,
        processors,
        more,
        less,
        rest @ ..,
    ] = reader.left
    else {
        return Err(short_fault(reader));
    };
    if !has_mark(*r, *a, *k) {
        return Err(FileFault::Mark);
    }
    if !has_version(*high, *low) {
        return Err(FileFault::Version);
    }
    let policy = Policy::try_from(char::from(*letter)).map_err(|_| FileFault::Policy)?;
    if !is_rack_size(*processors) {
        return Err(FileFault::Processors);
    }
    reader.left = rest;
    Ok(Header {
        policy,
        processors: *processors,
        count: count_from(*more, *less),
    })
}

/// Reads a file: what the bytes stand for, or the first thing wrong from the front. Nothing is allocated.
pub fn read_file(input: &[u8]) -> Result<RackFile<'_>, FileFault>
    ensures { FileRead input.now result }
{
    let mut reader = Reader::over(input)?;
    let header = read_header(&mut reader)?;
    let records = Records::judge(&mut reader, header.count)?;
    reader.end()?;
    Ok(RackFile {
        policy: header.policy,
        processors: header.processors,
        records,
    })
}
