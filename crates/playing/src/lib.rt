// Playing a rack file: a rack for the file, and one line a record.
#![tactic(auto)]

mod arguments;
mod fault;
mod halt;
mod opening;
mod outcome;
mod records;
mod run;
mod streams;
mod theorems;

pub use arguments::{Asked, carry_out};
pub use fault::{PlayerFault, RefusedRecord};
pub use halt::Halt;
pub use run::play;
pub use theorems::{front_decides, one_text, refusals_shown};
