// The step machine: tasks in a fixed priority order on one processor, instant by instant.
#![tactic(auto)]

mod checks;
mod clock;
mod event;
mod instant;
mod laws;
mod moment;
mod plan;
mod refusal;
mod rehearsal;
mod run;
mod state;

pub use laws::{
    busy_is_work_done, done_by_deadline, miss_is_first, no_work_is_lost, one_unit_a_tick,
    released_when_idle, waits_until_done,
};
pub use moment::step;
pub use plan::Plan;
pub use refusal::{Refusal, refusal_numbers_differ};
pub use rehearsal::rehearse;
pub use state::{Miss, Moment, Outcome, Release, State};
