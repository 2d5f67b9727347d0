// A plan of a run: what is given, looked over once.
ghost use Rattle.std.specs.Prelude.{◌≡◌, Some, None, MatchResult, true};
ghost use Rattle.machine.specs.Refusals.{tasks_allowed, horizon_allowed, releases_allowed, first_cause};

use crate::checks::{can_come, can_run, is_near};
use crate::refusal::Refusal;
use crate::state::Release;
use tasks::{Task, Ticks};

/// Tasks, in the order in which they stand, a horizon and releases, of which nothing is to be refused.
#[derive(Clone, Copy, Debug, PartialEq, Eq)]
pub struct Plan<'a> {
    pub(crate) tasks: &'a [Task],
    pub(crate) horizon: Ticks,
    pub(crate) releases: &'a [Release],
    pub(crate) ghost runs: { tasks_allowed tasks.now ≡ true },
    pub(crate) ghost near: { horizon_allowed horizon.0 ≡ true },
    pub(crate) ghost comes: { releases_allowed tasks.now horizon.0 releases.now ≡ true },
}

impl<'a> Plan<'a> {
    /// The plan, or the first cause to refuse it: the tasks are looked at first, then the horizon, then the releases.
    pub fn new(
        tasks: &'a [Task],
        horizon: Ticks,
        releases: &'a [Release],
    ) -> Result<Plan<'a>, Refusal>
        ensures cause { MatchResult result (λ _. first_cause tasks.now horizon.0 releases.now ≡ None) (λ refusal. first_cause tasks.now horizon.0 releases.now ≡ Some refusal) }
        ensures given { MatchResult result (λ plan. (plan.tasks.now ≡ tasks.now) × (plan.horizon ≡ horizon) × (plan.releases.now ≡ releases.now)) (λ _. Unit {0}) }
    {
        if !can_run(tasks) {
            return Err(Refusal::Tasks);
        }
        if !is_near(horizon) {
            return Err(Refusal::Horizon);
        }
        if !can_come(tasks, horizon, releases) {
            return Err(Refusal::Releases);
        }
        Ok(Plan {
            tasks,
            horizon,
            releases,
        })
    }
}
