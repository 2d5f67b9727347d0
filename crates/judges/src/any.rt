// Either judge, for a rack whose judge is known only while the program runs.
ghost use Rattle.std.specs.Prelude.{◌≡◌};
ghost use Rattle.judges.specs.Kinds.{meaning_of, laws_of, KindsDiffer};

use crate::judge::Judge;
use crate::points::Points;
use crate::step_up::StepUp;
use tasks::{Task, Ticks};

/// One of the two judges.
#[derive(Clone, Copy, Debug, PartialEq, Eq)]
pub enum AnyJudge {
    Points,
    StepUp,
}

impl Judge for AnyJudge {
    ghost meaning = { meaning_of };

    ghost lawful = { laws_of };

    fn ask(&mut self, task: Task, above: &[Task]) -> Option<Ticks> {
        match *self {
            AnyJudge::Points => Points.ask(task, above),
            AnyJudge::StepUp => StepUp.ask(task, above),
        }
    }
}

/// There is a task of which they give different instants.
#[tactic(auto, unfolding(tasks::specs::Rounding::up, tasks::specs::Instants::least))]
pub fn kinds_differ()
    ensures { KindsDiffer }
{}
