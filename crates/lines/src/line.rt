// One line of the player.
ghost use Rattle.std.specs.Prelude.{◌≡◌, ◌+◌, ◌≤◌, ◌++◌, true, length, codes};
ghost use Rattle.rackfile.specs.Records.{length_allowed};
ghost use Rattle.lines.specs.Texts.{seen_as, head_text, tail_text, writable};
ghost use Rattle.lines.specs.Writing.{Written};

use crate::text::Text;

/// What a line says. All its numbers have 32 bits, so that the longest line has room in 64 bytes.
#[derive(Clone, Copy, Debug, PartialEq, Eq)]
pub enum Line<'a> {
    /// An admission was granted.
    Admitted {
        index: u32,
        label: &'a [u8],
        processor: u32,
        instant: u32,
    },
    /// An admission was refused.
    NotAdmitted {
        index: u32,
        label: &'a [u8],
        refusal: u32,
    },
    /// A withdrawal was granted.
    Withdrawn {
        index: u32,
        number: u32,
        processor: u32,
    },
    /// A withdrawal was refused.
    NotWithdrawn {
        index: u32,
        number: u32,
        refusal: u32,
    },
    /// The file cannot be read.
    Unreadable {
        number: u32,
        place: u32,
    },
}

// Whether a label may be written. The file's rule stated again: a line may be of a label that no file gave.
fn is_label(label: &[u8]) -> bool
    ensures { result ≡ length_allowed (length label.now) }
{
    (1..=16).contains(&label.len())
}

// Whether a line can be written.
fn is_writable(line: Line<'_>) -> bool
    ensures { result ≡ writable (seen_as line.entry) }
{
    match line {
        Line::Admitted { label, .. } | Line::NotAdmitted { label, .. } => is_label(label),
        _ => true,
    }
}

// What a line begins with.
fn put_head(text: &mut Text, line: Line<'_>)
    requires label { writable (seen_as line) ≡ true }
    requires room { length text.old + 29 ≤ 64 }
    ensures items { text.new ≡ text.old ++ head_text (seen_as line.entry) }
    ensures bound { length text.new ≤ length text.old + 29 }
{
    match line {
        Line::Admitted { index, label, .. } | Line::NotAdmitted { index, label, .. } => {
            text.put_number(index);
            text.put(b" A ");
            text.put(label);
        }
        Line::Withdrawn { index, number, .. } | Line::NotWithdrawn { index, number, .. } => {
            text.put_number(index);
            text.put(b" W ");
            text.put_number(number);
        }
        Line::Unreadable { .. } => text.put(b"F"),
    }
}

// What it ends with.
fn put_tail(text: &mut Text, line: Line<'_>)
    requires { length text.old + 23 ≤ 64 }
    ensures { text.new ≡ text.old ++ (tail_text (seen_as line.entry) ++ codes "\n") }
{
    match line {
        Line::Admitted {
            processor,
            instant,
            ..
        } => text.put_fields(processor, instant),
        Line::Withdrawn { processor, .. } => text.put_behind(b" ", processor),
        Line::NotAdmitted { refusal, .. } | Line::NotWithdrawn { refusal, .. } => {
            text.put_behind(b" R", refusal)
        }
        Line::Unreadable { number, place } => text.put_fields(number, place),
    }
    text.put(b"\n");
}

/// Writes a line at the front of the buffer and answers its length, its last byte 0A counted; the rest of the buffer stays.
/// A label that is not from 1 to 16 bytes long: 0, and nothing is written.
pub fn write_line(out: &mut [u8; 64], line: Line<'_>) -> usize
    ensures { Written out.old out.new (seen_as line.entry) result }
{
    // The caller's buffer, and the length answered beside it: nothing is allocated.
    if !is_writable(line) {
        return 0;
    }
    let mut text = Text::new();
    put_head(&mut text, line);
    put_tail(&mut text, line);
    let bytes = text.as_slice();
    let n = bytes.len();
    out[..n].copy_from_slice(bytes);
    n
}
