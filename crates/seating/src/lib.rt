// Seats by lists: what an admission and a withdrawal do to the lists of seats of a rack, and that each does one thing only.
#![tactic(auto)]

mod checks;
mod places;
mod refusal;
mod refused;
mod seat;
mod theorems;

pub use checks::bad_call;
pub use places::{has_room, place, position};
pub use refusal::{AdmitRefusal, MakeRefusal, QuestionRefusal, WithdrawRefusal};
pub use refused::Refused;
pub use seat::Seat;
pub use theorems::{
    admits_once, admits_some, joined_at_place, numbers_differ, takes_exactly, withdraws_once,
    withdraws_some,
};
