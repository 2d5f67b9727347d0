// The lines that the player writes.
#![tactic(auto)]

mod line;
mod text;

pub use line::{Line, write_line};
