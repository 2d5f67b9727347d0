// The console: the test program's calls on a rack and on files.
#![tactic(auto)]

mod asking;
mod console;
mod endings;
mod files;
mod hex;
mod lost;
mod making;
mod plays;
mod questions;
mod replies;
mod seats;
mod sheets;
mod texts;
mod unanswered;
mod words;

pub use asking::Admission;
pub use console::Console;
pub use endings::without_end;
pub use files::read_answer;
pub use hex::bytes_from;
pub use lost::Lost;
pub use making::Setup;
pub use replies::reply;
pub use words::{Word, asked};
