// A taken seat.
ghost use Rattle.std.specs.Prelude.{◌≡◌};
ghost use Rattle.seating.specs.Seats.{with_instant};

use tasks::{Task, Ticks};

/// A taken seat: its task, and the instant that the judge gave when the seat was last judged.
#[derive(Clone, Copy, Debug, Default, PartialEq, Eq)]
pub struct Seat {
    pub task: Task,
    pub instant: Ticks,
}

impl Seat {
    /// Keeps another instant.
    pub fn renew(&mut self, instant: Ticks)
        ensures { self.new ≡ with_instant self.old instant }
    {
        self.instant = instant;
    }
}
