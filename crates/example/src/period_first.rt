// A judge of one's own.
ghost use Rattle.std.specs.Prelude.{◌≡◌, true};
ghost use Rattle.tasks.specs.Demand.{good};
ghost use Rattle.judges.specs.Laws.{asked};
ghost use Rattle.example.specs.PeriodFirst.{period_first, period_first_lawful};

use judges::{Judge, StepUp};
use tasks::{Speed, Task, Ticks, all_keep_limits, demand_at};

/// Gives the end of the period where that is good, which takes one sum, and else the least good instant.
#[derive(Clone, Copy)]
pub(crate) struct PeriodFirst;

impl Judge for PeriodFirst {
    ghost meaning = { λ _. period_first };

    ghost lawful = { λ _. period_first_lawful };

    fn ask(&mut self, task: Task, above: &[Task]) -> Option<Ticks> {
        if may_be_asked(task, above) && is_end_good(task, above) {
            return Some(task.period);
        }
        StepUp.ask(task, above)
    }
}

// At most 31 tasks above, and all tasks within the limits.
fn may_be_asked(task: Task, above: &[Task]) -> bool
    ensures { result ≡ asked task above.now }
{
    above.len() <= 31 && task.keeps_limits() && all_keep_limits(above)
}

// Whether all that is asked for up to the end of the period is done by then.
#[tactic(auto, using(crate::proofs::Ends::ends))]
fn is_end_good(task: Task, above: &[Task]) -> bool
    requires { asked task above.now ≡ true }
    ensures { result ≡ good task above.now task.period.0 }
{
    match demand_at(task, above, task.period) {
        Some(demand) => demand <= Speed::one().units_in(task.period),
        None => false,
    }
}
