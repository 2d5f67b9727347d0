// What is written back for a line.
ghost use Rattle.std.specs.Prelude.{◌≡◌, ◌++◌, string_bytes, vec_items, codes};
ghost use Rattle.std.specs.Option.{option_map};
ghost use Rattle.rackfile.specs.Files.{reading};
ghost use Rattle.script.specs.Lines.{line_with};
ghost use Rattle.script.specs.NoCalls.{Reads};
ghost use Rattle.console.specs.Console.{Standing};
ghost use Rattle.console.specs.Files.{reading_text};
ghost use Rattle.console.specs.Hex.{bytes_of};
ghost use Rattle.console.specs.Lost.{Answers, Written};
ghost use Rattle.console.specs.Replies.{Told, ToldBehind, Replied};
ghost use Rattle.console.specs.Unanswered.{Says};

use crate::asking::{admit, withdraw};
use crate::console::Console;
use crate::files::read_answer;
use crate::hex::bytes_from;
use crate::lost::Lost;
use crate::making::make;
use crate::plays::play_told;
use crate::questions::{find, load, seats};
use crate::unanswered::Unanswered;
use crate::words::{Word, asked};
use rack::rack_sound;
use script::{NoCall, is_passed_over};
use std::alloc::Global;
use std::str;

// What the bytes are read as that `rest` writes in hexadecimal.
fn read(alloc: Global, rest: &str) -> Result<String, NoCall>
    ensures { Reads string_bytes (option_map (λ input. reading_text (reading input)) (bytes_of rest.now)) result }
{
    let input = bytes_from(alloc, rest.as_bytes())?;
    Ok(read_answer(alloc, input.as_slice())?)
}

// The answer to a call, or why it has none of its own.
#[tactic(auto, using(crate::proofs::Replying::played))]
fn answer(
    alloc: Global,
    console: &mut Console,
    word: Word,
    rest: &str,
) -> Result<Vec<u8>, Unanswered>
    ensures { Says vec_items (Told word rest.now console.old) console.old console.new result }
{
    let text = match word {
        Word::Read => read(alloc, rest)?,
        Word::Play => return play_told(alloc, rest),
        Word::Make => make(alloc, console, rest)?,
        Word::Admit => admit(alloc, console, rest)?,
        Word::Withdraw => withdraw(alloc, console, rest)?,
        Word::Find => find(alloc, console, rest)?,
        Word::Load => load(alloc, console, rest)?,
        Word::Seats => seats(alloc, console, rest)?,
    };
    Ok(text.into_bytes())
}

// A line with an answer behind it.
fn answered(alloc: Global, line: &[u8], text: &[u8]) -> Result<Vec<u8>, Lost>
    ensures { Written vec_items (line.now ++ (codes " -> " ++ text.now)) result }
{
    let parts = [line, b" -> ".as_slice(), text];
    parts.concat(alloc).map_err(Lost::Answer)
}

// A call with what it is told behind it: the answer, `?` where it is none, `no rack` where it asks for one and there is none.
#[tactic(auto, using(crate::proofs::Replying::told_answer, crate::proofs::Replying::told_instead, crate::proofs::Replying::told_lost))]
fn told(
    alloc: Global,
    console: &mut Console,
    line: &str,
    word: Word,
    rest: &str,
) -> Result<Vec<u8>, Lost>
    ensures { Answers vec_items (ToldBehind line.now word rest.now console.old) console.old console.new result }
{
    match answer(alloc, console, word, rest) {
        Ok(text) => answered(alloc, line.as_bytes(), text.as_slice()),
        Err(why) => answered(alloc, line.as_bytes(), why.instead()?),
    }
}

// What is written back for a line of text: a call of the console is answered at the console, any other as a script's.
#[tactic(auto, using(crate::proofs::Replying::replied_told))]
fn text_reply(alloc: Global, console: &mut Console, line: &str) -> Result<Vec<u8>, Lost>
    ensures { Answers vec_items (Replied console.old line.now) console.old console.new result }
{
    let Some((word, rest)) = asked(line) else {
        return Ok(script::reply(alloc, line)?.into_bytes());
    };
    told(alloc, console, line, word, rest)
}

// What is written back for a line that is no text.
fn no_text_reply(alloc: Global, line: &[u8]) -> Result<Vec<u8>, Lost>
    ensures { Written vec_items (line_with line.now (codes "?")) result }
{
    if is_passed_over(line) {
        return line.to_vec(alloc).map_err(Lost::Answer);
    }
    answered(alloc, line, b"?")
}

// What is written back for a line, be it text or not.
#[tactic(auto, using(crate::proofs::Replying::replied_no_text))]
fn line_reply(alloc: Global, console: &mut Console, line: &[u8]) -> Result<Vec<u8>, Lost>
    ensures { Answers vec_items (Replied console.old line.now) console.old console.new result }
{
    match str::from_utf8(line) {
        Ok(text) => text_reply(alloc, console, text),
        Err(_) => no_text_reply(alloc, line),
    }
}

// A rack that stands at the console is sound.
fn standing(console: &Console)
    ensures { Standing console.now }
{
    if let Some(rack) = console {
        rack_sound(rack);
    }
}

/// What is written back for a line. Where memory fails, what stands at the console is never lost: the call is not made, or it is made and its answer is lost.
/// Whatever is asked, a rack at the console is sound, before and after.
pub fn reply(alloc: Global, console: &mut Console, line: &[u8]) -> Result<Vec<u8>, Lost>
    ensures answer { Answers vec_items (Replied console.old line.now) console.old console.new result }
    ensures sound_before { Standing console.old }
    ensures sound_after { Standing console.new }
{
    standing(console);
    let said = line_reply(alloc, console, line);
    standing(console);
    said
}
