// What a call is answered.
ghost use Rattle.std.specs.Prelude.{◌≡◌};
ghost use Rattle.script.specs.Calls.{seen_run, seen_as};
ghost use Rattle.script.specs.Answers.{run_answer, answer_to};

use crate::calls::{Call, Rehearsal};
use judges::{Judge, Points, StepUp};
use machine::{Outcome, Refusal, rehearse};
use tasks::{Ticks, Units, demand_at};

/// What a call is answered.
#[derive(Clone, Copy, Debug, PartialEq, Eq)]
pub enum Answer {
    /// The points judge's instant and the step-up judge's.
    Instants(Option<Ticks>, Option<Ticks>),
    /// A demand.
    Demand(Option<Units>),
    /// A share.
    Share(Option<u32>),
    /// How a run of the machine ended, or the first cause to refuse it.
    Run(Result<Outcome, Refusal>),
}

// How the run of the machine ends, or the first cause to refuse it.
fn run_answer(run: &Rehearsal) -> Answer
    ensures { result ≡ run_answer (seen_run run.now) }
{
    Answer::Run(rehearse(run.tasks.as_slice(), run.horizon, run.releases.as_slice()))
}

/// What the call is answered.
pub fn answer_for(call: &Call) -> Answer
    ensures { result ≡ answer_to (seen_as call.now) }
{
    match call {
        Call::Judge { task, above } => {
            let points = Points.ask(*task, above.as_slice());
            let step_up = StepUp.ask(*task, above.as_slice());
            Answer::Instants(points, step_up)
        }
        Call::Demand { task, at, above } => Answer::Demand(demand_at(*task, above.as_slice(), *at)),
        Call::Share { task } => Answer::Share(task.share()),
        Call::Rehearse(run) | Call::Trace(run) => run_answer(run),
    }
}
