// A plan made and run in one call.
ghost use Rattle.machine.specs.Refusals.{Rehearsed};

use crate::plan::Plan;
use crate::refusal::Refusal;
use crate::state::{Outcome, Release};
use tasks::{Task, Ticks};

/// Runs the machine on the tasks, in the order in which they stand, up to the horizon: how the run ends, or the first cause to refuse it.
pub fn rehearse(tasks: &[Task], horizon: Ticks, releases: &[Release]) -> Result<Outcome, Refusal>
    ensures { Rehearsed tasks.now horizon.0 releases.now result }
{
    Ok(Plan::new(tasks, horizon, releases)?.run())
}
