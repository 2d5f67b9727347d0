// The fields of a line, parted by single spaces.
ghost use Rattle.std.specs.Prelude.{◌≡◌, vec_items};
ghost use Rattle.script.specs.NoCalls.{Reads};
ghost use Rattle.script.specs.Fields.{with_digit, numbers_of};
ghost use Rattle.script.specs.FieldLaws.{FieldsWriteNumbers};

use crate::no_call::NoCall;
use std::alloc::Global;

// A number after one more digit, or none where the byte is no digit or past 32 bits.
fn with_digit(n: u32, b: u8) -> Option<u32>
    ensures { result ≡ with_digit n b }
{
    match b {
        b'0'..=b'9' => n.checked_mul(10)?.checked_add(u32::from(b - b'0')),
        _ => None,
    }
}

/// The 32-bit numbers that stand in `text`, parted by single spaces; unreadable where anything else stands there.
pub fn numbers(alloc: Global, text: &[u8]) -> Result<Vec<u32>, NoCall>
    ensures { Reads vec_items (numbers_of text.now) result }
{
    // Read by hand: by `split`, each part of the bytes would be made a text for `parse`, and looked at for a sign, which it takes too.
    let mut all = Vec::new(alloc);
    let mut so_far = None;
    for b in text {
        if *b == b' ' {
            all.push(so_far.ok_or(NoCall::Unreadable)?)?;
            so_far = None;
        } else {
            let n = so_far.unwrap_or(0);
            so_far = Some(with_digit(n, *b).ok_or(NoCall::Unreadable)?);
        }
    }
    all.push(so_far.ok_or(NoCall::Unreadable)?)?;
    Ok(all)
}

/// The numbers of a text are those that its fields write: one decimal digit or more each, of a value that has 32 bits, with a single space between each two.
pub fn fields_write_numbers()
    ensures { FieldsWriteNumbers }
{}
