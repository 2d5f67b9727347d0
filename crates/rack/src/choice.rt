// Which processor takes a newcomer.
ghost use Rattle.std.specs.Prelude.{◌≡◌, Some};
ghost use Rattle.seating.specs.Admission.{seen_with};
ghost use Rattle.rack.specs.Choices.{better_of, Chosen};

use super::processor::Processor;
use super::trial::{Trial, try_on};
use arrayvec::ArrayVec;
use judges::Judge;
use preferences::{Contender, Preference};
use tasks::Task;

/// A processor that would take the newcomer, as a preference sees it, with its trial.
#[derive(Drop)]
pub(crate) struct Taker {
    pub(crate) contender: Contender,
    pub(crate) trial: Trial,
}

/// The best taker so far, and while there is none what the sheet is to say of each processor.
#[derive(Drop)]
struct Choice {
    best: Option<Taker>,
    entries: ArrayVec<u32, 16>,
}

impl Taker {
    // Processor p with its load before the newcomer, and its trial.
    fn new(p: usize, processor: &Processor, trial: Trial) -> Taker
        ensures { result ≡ record { contender = seen_with processor.now p; trial = trial } }
    {
        let contender = Contender {
            number: p,
            load: processor.load(),
        };
        Taker { contender, trial }
    }
}

impl Choice {
    // One taker more: the better one is the best.
    fn offer<P: Preference>(&mut self, preference: &mut P, taker: Taker)
        ensures best { self.new ≡ record self.old { best = Some (better_of (P.before preference.old) self.old.best taker) } }
        ensures same { P.before preference.new ≡ P.before preference.old }
    {
        // No `is_none_or`: tried, and of what the closure changes nothing is known after it.
        let is_better = match &self.best {
            Some(other) => preference.prefers(taker.contender, other.contender),
            None => true,
        };
        if is_better {
            self.best = Some(taker);
        }
    }
}

/// The preferred one of the processors that would take the newcomer, or what the sheet is to say of each.
pub(crate) fn choose<J: Judge, P: Preference>(
    processors: &ArrayVec<Processor, 16>,
    judge: &mut J,
    preference: &mut P,
    newcomer: Task,
) -> Result<Taker, ArrayVec<u32, 16>>
    ensures chosen { Chosen (J.meaning judge.old) (P.before preference.old) processors.now.items newcomer result }
    ensures judge { J.meaning judge.new ≡ J.meaning judge.old }
    ensures preference { P.before preference.new ≡ P.before preference.old }
{
    let mut choice = Choice {
        best: None,
        entries: ArrayVec::new(),
    };
    // No chain: the judge and the preference change with each call.
    for (p, processor) in processors.iter().enumerate() {
        match try_on(judge, processor, newcomer) {
            Ok(trial) => choice.offer(preference, Taker::new(p, processor, trial)),
            Err(declined) => choice.entries.push(declined.entry()),
        }
    }
    let Choice { best, entries } = choice;
    best.ok_or(entries)
}
