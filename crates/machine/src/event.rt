// One task: its own state, matched together with what happens to it.
ghost use Rattle.std.specs.Prelude.{◌≡◌, ◌+◌, ◌^◌, ◌<◌, if◌then◌else◌, nat_eq};
ghost use Rattle.machine.specs.Events.{after, given_tick, fresh};
ghost use Rattle.machine.specs.Machine.{late, worked};

use crate::state::{State, after};
use tasks::{Speed, Task, Ticks, Units};

// What happens to a task: its deadline may be now, a job is released to it, or the processor is free for it.
#[derive(Clone, Copy)]
pub(crate) enum Event {
    Deadline { instant: Ticks },
    Release { work: Units, deadline: Ticks },
    Run,
}

// What an event showed: nothing, a missed deadline, or a tick in which work was done. Three cases, so neither an Option nor a flag.
#[derive(Clone, Copy)]
pub(crate) enum Mark {
    Quiet,
    Missed,
    Busy,
}

// A waiting task after a tick in which it was served.
fn after_tick(left: Units, deadline: Ticks) -> State
    ensures { result ≡ worked left deadline }
{
    let done = Speed::one().units_in(Ticks(1));
    if left <= done {
        State::Idle
    } else {
        State::Waiting {
            left: Units(left.0 - done.0),
            deadline,
        }
    }
}

// What a deadline shows at an instant.
fn at_deadline(deadline: Ticks, instant: Ticks) -> Mark
    ensures { result ≡ (if nat_eq deadline.0 instant.0 then Mark.Missed else Mark.Quiet) }
{
    if deadline == instant {
        Mark::Missed
    } else {
        Mark::Quiet
    }
}

// A task after an event, and what the event showed: each step is a match of the task's own state together with the event.
pub(crate) fn react(state: State, event: Event) -> (State, Mark)
    ensures { result ≡ after state event }
{
    match (state, event) {
        (_, Event::Release { work, deadline }) => (
            State::Waiting {
                left: work,
                deadline,
            },
            Mark::Quiet,
        ),
        (State::Idle, Event::Deadline { .. }) => (State::Idle, Mark::Quiet),
        (State::Waiting { left, deadline }, Event::Deadline { instant }) => (
            State::Waiting { left, deadline },
            at_deadline(deadline, instant),
        ),
        (State::Idle, Event::Run) => (State::Idle, Mark::Quiet),
        (State::Waiting { left, deadline }, Event::Run) => (after_tick(left, deadline), Mark::Busy),
    }
}

// The task when a job of it is released.
pub(crate) fn with_job(state: State, task: Task, instant: Ticks) -> State
    requires { instant.0 + task.period.0 < 2 ^ 32 }
    ensures { result ≡ fresh task instant.0 }
{
    let deadline = after(instant, task.period);
    let (next, _) = react(
        state,
        Event::Release {
            work: task.work,
            deadline,
        },
    );
    next
}

// Whether the task misses its deadline now.
pub(crate) fn misses(state: State, instant: Ticks) -> bool
    ensures { result ≡ late instant.0 state }
{
    let (_, mark) = react(state, Event::Deadline { instant });
    matches!(mark, Mark::Missed)
}

// The task after it is given the tick: none where it does not wait.
pub(crate) fn work_on(state: State) -> Option<State>
    ensures { result ≡ given_tick state }
{
    match react(state, Event::Run) {
        (next, Mark::Busy) => Some(next),
        (_, Mark::Quiet | Mark::Missed) => None,
    }
}
