// `play HEX`
ghost use Rattle.std.specs.Prelude.{◌≡◌, IfOk, vec_items};
ghost use Rattle.playing.specs.Lines.{PlayerText};
ghost use Rattle.console.specs.declared.words.Word.TheVariants.{Play};
ghost use Rattle.console.specs.Console.{ConsoleSeen};
ghost use Rattle.console.specs.Plays.{framed};
ghost use Rattle.console.specs.Replies.{Told};
ghost use Rattle.console.specs.Unanswered.{Says};

use crate::hex::bytes_from;
use crate::unanswered::Unanswered;
use playing::{Halt, play};
use std::alloc::{AllocError, Global};
use std::io::BufWriter;

// What the player writes for these bytes.
fn player_text(alloc: Global, input: &[u8]) -> Result<Vec<u8>, Halt>
    ensures { IfOk result (λ v. PlayerText input.now v.items) }
{
    let mut reader = input;
    // No room of its own: the vector behind it is one already.
    let mut out = BufWriter::with_capacity(alloc, 0, Vec::new(alloc)).unwrap();
    play(alloc, &mut reader, &mut out)?;
    let (text, _) = out.into_parts();
    Ok(text)
}

// The lines on lines of their own, and `end`.
fn framed(alloc: Global, lines: &[u8]) -> Result<Vec<u8>, AllocError>
    ensures { IfOk result (λ v. v.items ≡ framed lines.now) }
{
    [b"\n".as_slice(), lines, b"end".as_slice()].concat(alloc)
}

// The player's text for the bytes that `rest` writes in hexadecimal; no call where it writes none.
pub(crate) fn play_told(alloc: Global, rest: &str) -> Result<Vec<u8>, Unanswered>
    ensures { (console : ConsoleSeen) → Says vec_items (Told Play rest.now console) console console result }
{
    let input = bytes_from(alloc, rest.as_bytes())?;
    let lines = player_text(alloc, input.as_slice())?;
    Ok(framed(alloc, lines.as_slice())?)
}
