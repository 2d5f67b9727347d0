// Judges: who says at which instant a task below others is sure to be done.
#![tactic(auto)]

mod any;
mod judge;
mod points;
mod question;
mod step_up;

pub use any::{AnyJudge, kinds_differ};
pub use judge::Judge;
pub use points::{Points, points_are_least};
pub use step_up::{StepUp, steps_are_least, steps_pass_period, steps_stand_still};
