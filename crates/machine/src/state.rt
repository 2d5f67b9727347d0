// What the machine is given, what it keeps and what it answers.
ghost use Rattle.std.specs.Prelude.{◌≡◌, ◌+◌, ◌^◌, ◌<◌};

use tasks::{Ticks, Units};

// The instant a period after another: the deadline of a job released there, and when its place may be released again.
pub(crate) fn after(instant: Ticks, period: Ticks) -> Ticks
    requires { instant.0 + period.0 < 2 ^ 32 }
    ensures { result.0 ≡ instant.0 + period.0 }
{
    Ticks(instant.0 + period.0)
}

/// What a task is doing: nothing, or waiting with work left and a deadline.
#[derive(Clone, Copy, Debug, PartialEq, Eq)]
pub enum State {
    Idle,
    Waiting { left: Units, deadline: Ticks },
}

/// One release: the task at `place` of the order, counted from 0, gets a job at `instant`.
#[derive(Clone, Copy, Debug, PartialEq, Eq)]
pub struct Release {
    pub place: usize,
    pub instant: Ticks,
}

/// A missed deadline: the place of its task in the order, and the instant.
#[derive(Clone, Copy, Debug, PartialEq, Eq)]
pub struct Miss {
    pub place: usize,
    pub instant: Ticks,
}

/// How a run ended: the miss that ended it or none, and the ticks in which work was done.
#[derive(Clone, Copy, Debug, PartialEq, Eq)]
pub struct Outcome {
    pub miss: Option<Miss>,
    pub busy: Ticks,
}

/// What one instant came to: the place that missed, or the ticks in which work was done, 1 or 0. No Result: a miss is how an instant can
/// end, and no failure of the call.
#[derive(Clone, Copy, Debug, PartialEq, Eq)]
pub enum Moment {
    Missed(usize),
    Went(Ticks),
}
