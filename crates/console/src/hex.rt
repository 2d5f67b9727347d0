// Bytes in hexadecimal. The kit's `hex::decode` does not hand on the error of memory that it met, so this reads the digits itself.
ghost use Rattle.std.specs.Prelude.{◌≡◌, ◌<◌, vec_items, MatchOption};
ghost use Rattle.script.specs.NoCalls.{Reads};
ghost use Rattle.console.specs.Hex.{digit_of, pair_of, bytes_of};

use script::NoCall;
use std::alloc::Global;

// What a digit is worth: three ranges, and no `to_digit`, whose answer has 32 bits.
fn digit(b: u8) -> Option<u8>
    ensures is { result ≡ digit_of b }
    ensures small { MatchOption result Unit (λ d. d < 16) }
{
    match b {
        b'0'..=b'9' => Some(b - b'0'),
        b'a'..=b'f' => Some(b - b'a' + 10),
        b'A'..=b'F' => Some(b - b'A' + 10),
        _ => None,
    }
}

// The byte of two digits.
fn pair(high: u8, low: u8) -> Option<u8>
    ensures { result ≡ pair_of (digit_of high) (digit_of low) }
{
    Some(digit(high)? * 16 + digit(low)?)
}

/// The bytes that `text` writes, two digits each; no call where anything else stands there.
pub fn bytes_from(alloc: Global, text: &[u8]) -> Result<Vec<u8>, NoCall>
    ensures { Reads vec_items (bytes_of text.now) result }
{
    let mut all = Vec::new(alloc);
    let mut left = text;
    while let [high, low, rest @ ..] = left {
        let b = pair(*high, *low).ok_or(NoCall::Unreadable)?;
        all.push(b)?;
        left = rest;
    }
    if left.is_empty() {
        Ok(all)
    } else {
        Err(NoCall::Unreadable)
    }
}
