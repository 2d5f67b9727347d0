// Tasks of a framing line: work counted in units, time in ticks, and the demand of a task below others.
#![tactic(auto)]

mod demand;
mod task;
mod units;

pub use demand::demand_at;
pub use task::{Task, all_keep_limits};
pub use units::{Speed, Ticks, Units};
