// The step-up judge: from the sum of all the works up, the demand in the place of the instant.
ghost use Rattle.std.specs.Prelude.{◌≡◌, nat_le};
ghost use Rattle.judges.specs.Meanings.{least_good_instant, StepsAreLeast};
ghost use Rattle.judges.specs.Meant.{steps_lawful};
ghost use Rattle.judges.specs.Steps.{StepsStandStill, StepsPassPeriod};

use crate::judge::Judge;
use crate::question::{Question, Weighed};
use tasks::{Task, Ticks};

/// Starts at the sum of all the works and puts the demand there in its place, until it stands still or passes the period.
#[derive(Clone, Copy, Debug, PartialEq, Eq)]
pub struct StepUp;

impl Judge for StepUp {
    ghost meaning = { λ _. least_good_instant };

    ghost lawful = { λ s. steps_lawful };

    fn ask(&mut self, task: Task, above: &[Task]) -> Option<Ticks> {
        Question::new(task, above)?.first_good_instant()
    }
}

/// What the step-up judge gives is the least good instant.
pub fn steps_are_least()
    ensures { StepsAreLeast }
{}

/// It is the instant at which the steps from the sum of all the works up stand still.
pub fn steps_stand_still()
    ensures { StepsStandStill }
{}

/// It gives none where those steps pass the period.
pub fn steps_pass_period()
    ensures { StepsPassPeriod }
{}

// Whether an instant lies within the task's period: the bound of this judge, as `is_past` is that of the points judge.
fn is_within(t: Ticks, task: Task) -> bool
    ensures { result ≡ nat_le t.0 task.period.0 }
{
    t <= task.period
}

impl Question<'_> {
    // The step-up judge's answer.
    fn first_good_instant(&self) -> Option<Ticks>
        ensures { result ≡ least_good_instant self.now.task self.now.above.now }
    {
        // At instant 1 every task above has been released once, so that the first step leads to the sum of all the works.
        let mut t = Ticks(1);
        while is_within(t, self.task) {
            match self.weigh(t) {
                Weighed::Done => return Some(t),
                Weighed::NotBefore(later) => t = later,
                Weighed::Never => return None,
            }
        }
        None
    }
}
