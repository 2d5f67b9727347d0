// One instant on the caller's own states, with any release list.
ghost use Rattle.std.specs.Prelude.{◌≡◌, ◌&&◌};
ghost use Rattle.machine.specs.Moments.{deadline_fits, deadlines_fit, can_step, Stepped};

use crate::instant::Now;
use crate::state::{Moment, Release, State};
use tasks::{Task, Ticks};

// Whether a deadline of the task that is counted from now has at most 32 bits.
fn is_in_reach(task: &Task, instant: Ticks) -> bool
    ensures { result ≡ deadline_fits instant.0 task.now }
{
    instant.0.checked_add(task.period.0).is_some()
}

// Whether a job of each task that is released now has a deadline that fits.
fn all_in_reach(tasks: &[Task], instant: Ticks) -> bool
    ensures { result ≡ deadlines_fit tasks.now instant.0 }
{
    tasks.iter().all(|task| is_in_reach(task, instant))
}

// Whether one instant can be done.
fn can_step(tasks: &[Task], instant: Ticks, states: &[State]) -> bool
    ensures { result ≡ can_step tasks.now instant.0 states.now }
{
    states.len() == tasks.len() && all_in_reach(tasks, instant)
}

/// One instant below the horizon on the states: the place that missed, or the busy ticks with the states after it. None, and the states
/// as they were, where there is not one state for each task, or where a deadline from now would pass 32 bits.
pub fn step(
    tasks: &[Task],
    releases: &[Release],
    instant: Ticks,
    states: &mut [State],
) -> Option<Moment>
    ensures { Stepped tasks.now releases.now instant.0 states.old states.new result }
{
    // None and no error, as of a checked sum: the step cannot be done, and the rules have no number for that.
    if !can_step(tasks, instant, states) {
        return None;
    }
    let now = Now {
        tasks,
        releases,
        instant,
    };
    Some(now.go_by(states))
}
