// `admit NUMBER C T LENGTH` and `withdraw NUMBER`
ghost use Rattle.std.specs.Prelude.{◌≡◌, replicate, IfOk, string_bytes};
ghost use Rattle.script.specs.NoCalls.{Reads};
ghost use Rattle.console.specs.Making.{one_number};
ghost use Rattle.console.specs.Asking.{admission_of, Admitted, Withdrawn, AdmitAnswer, WithdrawAnswer};
ghost use Rattle.console.specs.Lost.{Answers};
ghost use Rattle.console.specs.Unanswered.{Says};

use crate::console::Console;
use crate::lost::{Lost, in_words};
use crate::making::one_number;
use crate::texts::{AdmitText, WithdrawText};
use crate::unanswered::Unanswered;
use judges::AnyJudge;
use preferences::Policy;
use rack::Rack;
use script::{NoCall, numbers};
use std::alloc::{AllocError, Global};
use tasks::Task;

/// A task that asks for a seat, and the length of the sheet.
#[derive(Clone, Copy, Debug, PartialEq, Eq)]
pub struct Admission {
    pub task: Task,
    pub length: usize,
}

// What the text asks for; a sheet has at most 64 entries.
fn admission_from(alloc: Global, text: &str) -> Result<Admission, NoCall>
    ensures { Reads (λ a. a) (admission_of text.now) result }
{
    let all = numbers(alloc, text.as_bytes())?;
    match all.as_slice() {
        [number, work, period, length] if *length <= 64 => Ok(Admission {
            task: Task::of(*number, *work, *period),
            // `as`: a usize has no `From<u32>`.
            length: *length as usize,
        }),
        _ => Err(NoCall::Unreadable),
    }
}

// An entry that nobody has written.
fn unwritten() -> u32
    ensures { result ≡ 777 }
{
    777u32
}

// A sheet on which nothing is written yet.
fn blank_sheet(alloc: Global, length: usize) -> Result<Vec<u32>, AllocError>
    ensures { IfOk result (λ v. v.items ≡ replicate length 777) }
{
    vec![in alloc; unwritten(); length]
}

// An admission with a blank sheet, and its answer in words.
fn admit_on(
    alloc: Global,
    rack: &mut Rack<AnyJudge, Policy>,
    asks: Admission,
) -> Result<String, Lost>
    ensures { Answers string_bytes (Admitted rack.old asks) rack.old rack.new result }
{
    let mut sheet = blank_sheet(alloc, asks.length)?;
    let answer = rack.admit(asks.task, sheet.as_mut_slice());
    let text = AdmitText {
        answer,
        sheet: sheet.as_slice(),
    };
    in_words(alloc, &text)
}

// Admits the task that `rest` asks for. Three lines, as at the questions.
pub(crate) fn admit(alloc: Global, console: &mut Console, rest: &str) -> Result<String, Unanswered>
    ensures { Says string_bytes (AdmitAnswer console.old (admission_of rest.now)) console.old console.new result }
{
    let asks = admission_from(alloc, rest)?;
    let rack = console.as_mut().ok_or(Unanswered::NoRack)?;
    Ok(admit_on(alloc, rack, asks)?)
}

// A withdrawal, and its answer in words.
#[tactic(auto, using(crate::proofs::Losing::withdrawn_or_lost))]
fn withdraw_on(
    alloc: Global,
    rack: &mut Rack<AnyJudge, Policy>,
    number: u32,
) -> Result<String, Lost>
    ensures { Answers string_bytes (Withdrawn rack.old number) rack.old rack.new result }
{
    in_words(alloc, &WithdrawText(rack.withdraw(number)))
}

// Withdraws the task that `rest` names.
pub(crate) fn withdraw(
    alloc: Global,
    console: &mut Console,
    rest: &str,
) -> Result<String, Unanswered>
    ensures { Says string_bytes (WithdrawAnswer console.old (one_number rest.now)) console.old console.new result }
{
    let number = one_number(alloc, rest)?;
    let rack = console.as_mut().ok_or(Unanswered::NoRack)?;
    Ok(withdraw_on(alloc, rack, number)?)
}
