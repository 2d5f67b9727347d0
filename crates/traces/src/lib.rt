// Traces: a run of the machine, a line for each instant.
#![tactic(auto)]

mod line;
mod texts;
mod tracing;
mod views;

pub use texts::OrDash;
pub use tracing::trace_text;
pub use views::served_has_turn;
