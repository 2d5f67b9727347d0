// A task is withdrawn from a rack.
ghost use Rattle.std.specs.Prelude.{◌≡◌};
ghost use Rattle.book.specs.Book.{withdraws};
ghost use Rattle.rack.specs.Table.{Sound};
ghost use Rattle.rack.specs.Steps.{Step};

use super::rack::Rack;
use judges::Judge;
use preferences::Preference;
use seating::WithdrawRefusal;
use tasks::{Ticks, Units};

impl<J: Judge, P: Preference> Rack<J, P> {
    /// The task of this number leaves; its processor, its work and its period are the answer.
    /// It is refused as `NotSeated` where no task of this number is seated; then nothing changes.
    pub fn withdraw(&mut self, number: u32) -> Result<(usize, Units, Ticks), WithdrawRefusal>
        ensures step { Step J.meaning P.before self.old (withdraws number result) self.new }
        ensures sound { Sound self.new.lists }
    {
        let (p, at) = self.spot(number).ok_or(WithdrawRefusal::NotSeated)?;
        let seat = self.processors[p].leave(at);
        Ok((p, seat.task.work, seat.task.period))
    }
}
