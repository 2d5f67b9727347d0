// The lines that are written back.
ghost use Rattle.std.specs.Prelude.{◌≡◌, IfOk, Some, string_bytes};
ghost use Rattle.script.specs.Calls.{seen_as, called};
ghost use Rattle.script.specs.Lines.{lines_before, end_text, answer_text, call_text, passed_over, reply_text};

use crate::answers::{Answer, answer_for};
use crate::calls::{Call, read};
use crate::no_call::NoCall;
use machine::Outcome;
use std::alloc::{AllocError, Global};
use std::fmt::{self, Display};
use traces::{OrDash, trace_text};

// How a run ended.
#[derive(Clone, Copy)]
struct Ending(Outcome);

impl fmt::Display for Ending {
    ghost output = { λ e. Some (end_text e.0.miss e.0.busy.0) };

    fn fmt<W: fmt::Write>(&self, f: &mut fmt::Formatter<W>) -> fmt::Result {
        let busy = self.0.busy;
        match self.0.miss {
            Some(miss) => {
                let place = miss.place;
                let instant = miss.instant;
                write!(f, "miss {place} {instant} {busy}")
            }
            None => write!(f, "none {busy}"),
        }
    }
}

impl fmt::Display for Answer {
    ghost output = { λ a. Some (answer_text a) };

    fn fmt<W: fmt::Write>(&self, f: &mut fmt::Formatter<W>) -> fmt::Result {
        match *self {
            Answer::Instants(points, step_up) => {
                let points = OrDash(points);
                let step_up = OrDash(step_up);
                write!(f, "{points} {step_up}")
            }
            Answer::Demand(demand) => OrDash(demand).fmt(f),
            Answer::Share(share) => OrDash(share).fmt(f),
            Answer::Run(Ok(outcome)) => Ending(outcome).fmt(f),
            Answer::Run(Err(refusal)) => refusal.fmt(f),
        }
    }
}

// What stands before the answer: of a trace its lines, else nothing.
fn lines_before(alloc: Global, call: &Call) -> Result<String, AllocError>
    ensures { IfOk result (λ s. string_bytes s ≡ lines_before (seen_as call.now)) }
{
    match call {
        Call::Trace(run) => trace_text(
            alloc,
            run.tasks.as_slice(),
            run.horizon,
            run.releases.as_slice(),
        ),
        _ => Ok(String::new(alloc)),
    }
}

// The answer to a call, with the lines before it.
fn known_text(alloc: Global, call: &Call) -> Result<String, AllocError>
    ensures { IfOk result (λ s. string_bytes s ≡ call_text (Some (seen_as call.now))) }
{
    let lines = lines_before(alloc, call)?;
    let answer = answer_for(call);
    format!(in alloc; "{lines}{answer}")
}

// What the call is answered that a line stands for: `?` where it is none.
fn line_answer(alloc: Global, line: &str) -> Result<String, AllocError>
    ensures { IfOk result (λ s. string_bytes s ≡ call_text (called line.now)) }
{
    match read(alloc, line) {
        Ok(call) => known_text(alloc, &call),
        Err(NoCall::Unreadable) => String::from_str(alloc, "?"),
        Err(NoCall::Memory(error)) => Err(error),
    }
}

/// Whether a line is empty or begins with `#`: asked of its bytes, for it need not be text.
pub fn is_passed_over(line: &[u8]) -> bool
    ensures { result ≡ passed_over line.now }
{
    line.is_empty() || line[0] == b'#'
}

/// What is written back for a line: an empty one or one that begins with `#` as it is, any other with ` -> ` and the answer behind it, `?` where it is no call.
pub fn reply(alloc: Global, line: &str) -> Result<String, AllocError>
    ensures { IfOk result (λ s. string_bytes s ≡ reply_text line.now) }
{
    if is_passed_over(line.as_bytes()) {
        return String::from_str(alloc, line);
    }
    let answer = line_answer(alloc, line)?;
    format!(in alloc; "{line} -> {answer}")
}
