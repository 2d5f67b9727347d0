// The lines of a trace.
ghost use Rattle.std.specs.Prelude.{◌≡◌, IfOk, string_bytes};
ghost use Rattle.traces.specs.Traces.{lines_below, trace_text, Clear};

use crate::line::Line;
use crate::views::{At, due_now, end_of};
use machine::{Release, State, rehearse, step};
use std::alloc::{AllocError, Global};
use tasks::{Task, Ticks};

// The lines of the instants before the end of a run.
fn lines_to(
    alloc: Global,
    tasks: &[Task],
    releases: &[Release],
    end: Ticks,
) -> Result<String, AllocError>
    requires { Clear tasks.now releases.now end.0 }
    ensures { IfOk result (λ s. string_bytes s ≡ lines_below tasks.now releases.now end.0) }
{
    // Room for 33, as the machine's own run has it: a run of more tasks is refused.
    let mut all = [State::Idle; 33];
    let states = &mut all[..tasks.len()];
    let mut text = String::new(alloc);
    for at in 0..end.0 {
        let instant = Ticks(at);
        // The whole list is looked through once, not once for each place.
        let due = due_now(alloc, releases, instant)?;
        let now = At {
            releases: due.as_slice(),
            instant,
        };
        let released = now.released_places(alloc, tasks.len())?;
        let served = now.served_place(states);
        // The instant goes by, since none before the end has a miss.
        let _ = step(tasks, releases, instant, states);
        let line = Line {
            instant,
            released: released.as_slice(),
            served,
            states,
        };
        write!(text, "{line}")?;
    }
    Ok(text)
}

// It takes what the machine's `rehearse` takes, and no plan: a refused run has none, and is answered too.
/// What stands before the answer to a trace: nothing where the run is refused, else a line for each instant before its end, all behind the end of a line.
#[tactic(auto, using(crate::proofs::Instants::clear_to_end))]
pub fn trace_text(
    alloc: Global,
    tasks: &[Task],
    horizon: Ticks,
    releases: &[Release],
) -> Result<String, AllocError>
    ensures { IfOk result (λ s. string_bytes s ≡ trace_text tasks.now horizon.0 releases.now) }
{
    let Ok(outcome) = rehearse(tasks, horizon, releases) else {
        return Ok(String::new(alloc));
    };
    let lines = lines_to(alloc, tasks, releases, end_of(horizon, outcome.miss))?;
    format!(in alloc; "\n{lines}")
}
