// A rack of processors on which tasks are admitted and from which they are withdrawn.
#![tactic(auto)]

mod admitting;
mod blank;
mod choice;
mod processor;
mod questions;
mod rack;
mod seat_table;
mod trial;
mod withdrawing;

pub use blank::Blank;
pub use rack::{Rack, every_rack, rack_sound};
