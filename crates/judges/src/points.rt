// The points judge: the scheduling points from the least up, and the first good one.
ghost use Rattle.std.specs.Prelude.{◌≡◌, ◌*◌, ◌≤◌, min, nat_lt};
ghost use Rattle.tasks.specs.Rounding.{up};
ghost use Rattle.judges.specs.Meanings.{least_good_point, PointsAreLeast};
ghost use Rattle.judges.specs.Meant.{points_lawful};

use crate::judge::Judge;
use crate::question::{Question, Weighed};
use tasks::{Task, Ticks};

/// Tries the scheduling points from the least up, and gives the first good one.
#[derive(Clone, Copy, Debug, PartialEq, Eq)]
pub struct Points;

impl Judge for Points {
    ghost meaning = { λ _. least_good_point };

    ghost lawful = { λ s. points_lawful };

    fn ask(&mut self, task: Task, above: &[Task]) -> Option<Ticks> {
        Question::new(task, above)?.first_good_point()
    }
}

// The least multiple of a period at or after `from`.
#[tactic(auto, using(tasks::proofs::Roundings::rounding))]
fn multiple_from(period: Ticks, from: Ticks) -> Ticks
    requires some { 1 ≤ period.0 }
    requires short { period.0 ≤ 1000000 }
    requires near { from.0 ≤ 1000000 }
    ensures { result.0 ≡ up from.0 period.0 * period.0 }
{
    Ticks(from.0.next_multiple_of(period.0))
}

// The earlier of two instants.
fn earlier(a: Ticks, b: Ticks) -> Ticks
    ensures { result.0 ≡ min a.0 b.0 }
{
    a.min(b)
}

// Whether an instant comes after the task's period. Apart from the step-up judge's `is_within`, its opposite: each judge has its own bound.
fn is_past(t: Ticks, task: Task) -> bool
    ensures { result ≡ nat_lt task.period.0 t.0 }
{
    task.period < t
}

impl Question<'_> {
    // The points judge's answer. The points are the outer loop and the periods the inner one: period by period the good point found first need not be the least.
    fn first_good_point(&self) -> Option<Ticks>
        ensures { result ≡ least_good_point self.now.task self.now.above.now }
    {
        // no scheduling point below it is good
        let mut from = Ticks(1);
        'points: loop {
            if is_past(from, self.task) {
                break 'points None;
            }
            // the next point is the least multiple of a period from there on; of its own the task has just one
            let mut next = self.task.period;
            for other in self.above {
                next = earlier(next, multiple_from(other.period, from));
            }
            match self.weigh(next) {
                Weighed::Done => break 'points Some(next),
                Weighed::NotBefore(later) => from = later,
                Weighed::Never => break 'points None,
            }
        }
    }
}

/// What the points judge gives is the least good scheduling point.
pub fn points_are_least()
    ensures { PointsAreLeast }
{}
