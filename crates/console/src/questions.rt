// `find NUMBER`, `load P` and `seats P`. Three lines each: one function for the three would take the question as a closure, with its answer's type and text. `as`: a usize has no `From<u32>`.
ghost use Rattle.std.specs.Prelude.{◌≡◌, string_bytes};
ghost use Rattle.console.specs.Making.{one_number};
ghost use Rattle.console.specs.Questions.{FindOf, LoadOf, SeatsOf, Asked};
ghost use Rattle.console.specs.Unanswered.{Says};

use crate::console::Console;
use crate::making::one_number;
use crate::seats::{FindText, LoadText, SeatsText};
use crate::unanswered::Unanswered;
use std::alloc::Global;

// Where the task sits that `rest` names.
pub(crate) fn find(alloc: Global, console: &Console, rest: &str) -> Result<String, Unanswered>
    ensures { Says string_bytes (Asked (FindOf console.now) (one_number rest.now) console.now) console.now console.now result }
{
    let number = one_number(alloc, rest)?;
    let rack = console.as_ref().ok_or(Unanswered::NoRack)?;
    Ok(FindText(rack.find(number)).to_string(alloc)?)
}

// The load of the processor that `rest` names.
pub(crate) fn load(alloc: Global, console: &Console, rest: &str) -> Result<String, Unanswered>
    ensures { Says string_bytes (Asked (LoadOf console.now) (one_number rest.now) console.now) console.now console.now result }
{
    let processor = one_number(alloc, rest)?;
    let rack = console.as_ref().ok_or(Unanswered::NoRack)?;
    Ok(LoadText(rack.load(processor as usize)).to_string(alloc)?)
}

// Its seats.
pub(crate) fn seats(alloc: Global, console: &Console, rest: &str) -> Result<String, Unanswered>
    ensures { Says string_bytes (Asked (SeatsOf console.now) (one_number rest.now) console.now) console.now console.now result }
{
    let processor = one_number(alloc, rest)?;
    let rack = console.as_ref().ok_or(Unanswered::NoRack)?;
    Ok(SeatsText(rack.seats(processor as usize)).to_string(alloc)?)
}
