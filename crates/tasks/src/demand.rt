// The demand of a task below others.
ghost use Rattle.std.specs.Prelude.{◌≡◌};
ghost use Rattle.tasks.specs.Demand.{work_answer, demand_answer};

use crate::task::{Task, over};
use crate::units::{Ticks, Units};

// The work that the releases of `task` before `t` ask for: none at a period of 0, or past 64 bits.
fn work_before(task: &Task, t: Ticks) -> Option<Units>
    ensures { result ≡ work_answer task.now t.0 }
{
    if task.period.0 == 0 {
        return None;
    }
    let releases = over(u64::from(t.0), task.period);
    task.work.0.checked_mul(releases).map(Units)
}

/// The demand of `task` at `t` below the tasks `above`: none where a period above is 0, or past 64 bits.
pub fn demand_at(task: Task, above: &[Task], t: Ticks) -> Option<Units>
    ensures { result ≡ demand_answer task above.now t.0 }
{
    let mut sum = task.work.0;
    for other in above {
        sum = sum.checked_add(work_before(other, t)?.0)?;
    }
    Some(Units(sum))
}
