// A task is admitted to a rack.
ghost use Rattle.std.specs.Prelude.{◌≡◌, ◌≤◌, ◌++◌, None, length, drop};
ghost use Rattle.std.specs.Result.{result_err};
ghost use Rattle.seating.specs.Seats.{all_full};
ghost use Rattle.seating.specs.Admission.{earlier, Admits};
ghost use Rattle.book.specs.Book.{admits};
ghost use Rattle.rack.specs.Choices.{Chosen};
ghost use Rattle.rack.specs.Table.{Sound};
ghost use Rattle.rack.specs.Steps.{Step};

use super::choice::{Taker, choose};
use super::rack::Rack;
use arrayvec::ArrayVec;
use judges::Judge;
use preferences::Preference;
use seating::{AdmitRefusal, bad_call};
use tasks::{Task, Ticks};

// The entries go into the front of the sheet.
fn fill(sheet: &mut [u32], entries: &[u32])
    requires { length entries.now ≤ length sheet.old }
    ensures { sheet.new ≡ entries.now ++ drop (length entries.now) sheet.old }
{
    sheet[..entries.len()].copy_from_slice(entries);
}

impl<J: Judge, P: Preference> Rack<J, P> {
    /// Admits a task: of the processors that would take it the preferred one does, and its number and the task's instant are the answer.
    /// Where none would take it, the sheet gets an entry for each processor: 0 where it is full, or else the number of the first task that would not fit.
    /// At any other refusal nothing changes, neither the rack nor the sheet.
    pub fn admit(&mut self, task: Task, sheet: &mut [u32]) -> Result<(usize, Ticks), AdmitRefusal>
        ensures step { Step J.meaning P.before self.old (admits task sheet.old result sheet.new) self.new }
        ensures sound { Sound self.new.lists }
    {
        self.earlier_cause(task, sheet.len())?;
        let choice = choose(
            &self.processors,
            &mut self.judge,
            &mut self.preference,
            task,
        );
        self.settle(task, choice, sheet)
    }

    // Whether each processor has 32 tasks.
    fn is_full(&self) -> bool
        ensures { result ≡ all_full self.now.lists }
    {
        self.processors.iter().all(|processor| processor.is_full())
    }

    // The first cause that is found without asking the judge.
    fn earlier_cause(&self, newcomer: Task, entries: usize) -> Result<(), AdmitRefusal>
        ensures cause { result_err result ≡ earlier self.now.lists newcomer entries }
        ensures sound { Sound self.now.lists }
    {
        bad_call(self.processors.len(), newcomer, entries)?;
        if self.spot(newcomer.number).is_some() {
            return Err(AdmitRefusal::AlreadySeated);
        }
        if self.is_full() {
            return Err(AdmitRefusal::AllFull);
        }
        Ok(())
    }

    // Carries out a choice: the newcomer joins, or the sheet says why nobody takes it.
    fn settle(
        &mut self,
        newcomer: Task,
        choice: Result<Taker, ArrayVec<u32, 16>>,
        sheet: &mut [u32],
    ) -> Result<(usize, Ticks), AdmitRefusal>
        requires passes { earlier self.old.lists newcomer (length sheet.old) ≡ None }
        requires chosen { Chosen (J.meaning self.old.judge) (P.before self.old.preference) self.old.lists newcomer choice }
        ensures admits { Admits (J.meaning self.old.judge) (P.before self.old.preference) self.old.lists newcomer sheet.old result sheet.new self.new.lists }
        ensures judge { self.new.judge ≡ self.old.judge }
        ensures preference { self.new.preference ≡ self.old.preference }
        ensures sound { Sound self.new.lists }
    {
        // With a field in use the rack's invariant is known, in both cases.
        let _ = &self.processors;
        match choice {
            Ok(taker) => {
                let p = taker.contender.number;
                self.processors[p].join(newcomer, &taker.trial);
                Ok((p, taker.trial.instants[0]))
            }
            Err(entries) => {
                fill(sheet, &entries);
                Err(AdmitRefusal::NoTaker)
            }
        }
    }
}
