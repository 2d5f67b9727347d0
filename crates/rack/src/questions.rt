// The questions about a rack. They change nothing.
ghost use Rattle.std.specs.Prelude.{◌≡◌};
ghost use Rattle.seating.specs.Questions.{Shows};
ghost use Rattle.book.specs.Book.{finds, loads, lists};
ghost use Rattle.rack.specs.Spots.{SpotOn};
ghost use Rattle.rack.specs.Table.{Sound};
ghost use Rattle.rack.specs.Steps.{Step, shown};

use super::processor::Processor;
use super::rack::Rack;
use judges::Judge;
use preferences::Preference;
use seating::{QuestionRefusal, Seat, position};

impl<J: Judge, P: Preference> Rack<J, P> {
    /// The seat of the task of this number, and its processor.
    pub fn find(&self, number: u32) -> Option<(Seat, usize)>
        ensures step { Step J.meaning P.before self.now (finds number result) self.now }
        ensures sound { Sound self.now.lists }
    {
        let (p, at) = self.spot(number)?;
        Some((self.processors[p].seats()[at], p))
    }

    /// The load of processor p: the sum of its tasks' shares, in millionths. It is refused as `NoProcessor` where there is no processor p.
    pub fn load(&self, p: usize) -> Result<u64, QuestionRefusal>
        ensures step { Step J.meaning P.before self.now (loads p result) self.now }
        ensures sound { Sound self.now.lists }
    {
        Ok(self.processor(p)?.load())
    }

    /// The taken seats of processor p, in priority order, lent. It is refused as `NoProcessor` where there is no processor p.
    pub fn seats(&self, p: usize) -> Result<&[Seat], QuestionRefusal>
        ensures step { Step J.meaning P.before self.now (lists p (shown result)) self.now }
        ensures sound { Sound self.now.lists }
    {
        Ok(self.processor(p)?.seats())
    }

    // The processor of this number.
    fn processor(&self, p: usize) -> Result<&Processor, QuestionRefusal>
        ensures shows { Shows self.now.lists p (shown result) }
        ensures sound { Sound self.now.lists }
    {
        self.processors.get(p).ok_or(QuestionRefusal::NoProcessor)
    }

    // Where a task of this number sits: its processor and its place there.
    pub(crate) fn spot(&self, number: u32) -> Option<(usize, usize)>
        ensures spot { SpotOn number self.now.lists result }
        ensures sound { Sound self.now.lists }
    {
        for (p, processor) in self.processors.iter().enumerate() {
            if let Some(at) = position(processor.seats(), number) {
                return Some((p, at));
            }
        }
        None
    }
}
