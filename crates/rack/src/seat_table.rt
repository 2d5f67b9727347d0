// The seats of one processor.
ghost use Rattle.std.specs.Prelude.{◌≡◌, ◌<◌, ◌≤◌, length, slice_index_or};
ghost use Rattle.std.specs.List.{insert, remove};
ghost use Rattle.seating.specs.Seats.{no_seat};

use super::trial::Trial;
use seating::Seat;
use std::marker::Model;
use tasks::{Task, Ticks};

/// At most 32 seats: the first `taken` of a fixed array hold tasks, and the others are blank.
// An array and its count, and no ArrayVec: the fixed array of a processor is a rule of the project.
#[derive(Debug, Default, Drop)]
pub(crate) struct SeatTable {
    seats: [Seat; 32],
    taken: usize,
}

impl Model for SeatTable {
    ghost use Rattle.std.specs.Prelude.{List, ◌≡◌, ◌≤◌, length, take};
    ghost use Rattle.seating.specs.declared.seat.Seat.{Seat};
    ghost use Rattle.rack.specs.Cells.{BlankFrom};

    ghost Value = { List Seat };

    ghost view = { λ t. take t.taken t.seats };

    ghost invariant = { λ t. (length t.seats ≡ 32) × (t.taken ≤ 32) × BlankFrom t.taken t.seats };
}

impl SeatTable {
    ghost use Rattle.rack.specs.Renewed.{renewed};
    ghost use Rattle.rack.specs.Trials.{IsTrialOf, SeatedWith};

    /// The taken seats, lent.
    pub(crate) fn as_slice(&self) -> &[Seat]
        ensures list { result.now ≡ self.now }
        ensures few { length result.now ≤ 32 }
    {
        &self.seats[..self.taken]
    }

    /// A seat joins at `at`.
    pub(crate) fn insert(&mut self, at: usize, seat: Seat)
        requires room { length self.old < 32 }
        requires within { at ≤ length self.old }
        ensures { self.new ≡ insert self.old at seat }
    {
        let end = self.taken + 1;
        self.seats[at..end].rotate_right(1);
        self.seats[at] = seat;
        self.taken = end;
    }

    /// Another kept instant for the seat at `at`.
    // That the place is taken is asked at each call: a place that carried it would have to carry the table.
    pub(crate) fn renew(&mut self, at: usize, instant: Ticks)
        requires { at < length self.old }
        ensures { self.new ≡ renewed self.old at instant }
    {
        let taken = &mut self.seats[..self.taken];
        taken[at].renew(instant);
    }

    /// The newcomer of a trial takes its seat, and each seat below it keeps the instant of the trial.
    pub(crate) fn seat(&mut self, newcomer: Task, trial: &Trial)
        requires { IsTrialOf newcomer self.old trial.now }
        ensures { SeatedWith newcomer trial.now.instants.items self.old self.new }
    {
        self.insert(
            trial.place,
            Seat {
                task: newcomer,
                instant: trial.instants[0],
            },
        );
        for (below, instant) in trial.instants[1..].iter().enumerate() {
            self.renew(trial.place + 1 + below, *instant);
        }
    }

    /// The seat at `at` leaves.
    pub(crate) fn remove(&mut self, at: usize) -> Seat
        requires { at < length self.old }
        ensures list { self.new ≡ remove self.old at }
        ensures value { result ≡ slice_index_or self.old at no_seat }
    {
        let seat = self.as_slice()[at];
        self.seats[at..self.taken].rotate_left(1);
        self.taken -= 1;
        // A free seat is blank, so that equal lists mean equal cells.
        self.seats[self.taken] = Seat::default();
        seat
    }
}
