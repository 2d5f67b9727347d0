// Scripts: a call a line, and what is written back for each.
#![tactic(auto)]

mod answers;
mod calls;
mod fields;
mod lines;
mod no_call;
mod pairs;
mod words;

pub use answers::{Answer, answer_for};
pub use calls::{Call, Rehearsal, read, split_word};
pub use fields::{fields_write_numbers, numbers};
pub use lines::{is_passed_over, reply};
pub use no_call::NoCall;
pub use words::Word;
