// One processor of a rack.
ghost use Rattle.std.specs.Prelude.{◌≡◌, ◌+◌, ◌-◌, ◌<◌, ◌≤◌, true, [], length, nat_le, slice_index_or, unwrap_or};
ghost use Rattle.std.specs.List.{remove};
ghost use Rattle.tasks.specs.Limits.{within_limits};
ghost use Rattle.tasks.specs.Share.{share_answer};
ghost use Rattle.seating.specs.Seats.{tasks_of, load_of, no_seat};

use super::seat_table::SeatTable;
use super::trial::Trial;
use seating::{Seat, has_room};
use std::marker::Model;
use tasks::Task;

/// The seats of a processor, each of a task within the limits, and the sum of their shares.
#[derive(Debug, Default, Drop)]
pub(crate) struct Processor {
    table: SeatTable,
    load: u64,
}

impl Model for Processor {
    ghost use Rattle.std.specs.Prelude.{List, ◌≡◌, true};
    ghost use Rattle.tasks.specs.Limits.{all_within};
    ghost use Rattle.seating.specs.declared.seat.Seat.{Seat};
    ghost use Rattle.seating.specs.Seats.{tasks_of, load_of};

    ghost Value = { List Seat };

    ghost view = { λ p. p.table };

    ghost invariant = { λ p. (p.load ≡ load_of (tasks_of p.table)) × (all_within (tasks_of p.table) ≡ true) };
}

// The share of a task, or 0 outside the limits, where it has none.
fn share(task: Task) -> u64
    ensures value { result ≡ unwrap_or (share_answer task) 0 }
    ensures bound { result ≤ 1000000 }
{
    task.share().map_or(0, u64::from)
}

// A load with the share of one task more.
fn with_share(load: u64, task: Task) -> u64
    requires { load ≤ 32000000 }
    ensures { result ≡ load + unwrap_or (share_answer task) 0 }
{
    load + share(task)
}

// A load without the share of a task.
fn without_share(load: u64, task: Task) -> u64
    requires { unwrap_or (share_answer task) 0 ≤ load }
    ensures { result ≡ load - unwrap_or (share_answer task) 0 }
{
    load - share(task)
}

impl Processor {
    ghost use Rattle.rack.specs.Trials.{IsTrialOf, SeatedWith};

    /// The taken seats, lent.
    pub(crate) fn seats(&self) -> &[Seat]
        ensures list { result.now ≡ self.now }
        ensures few { length result.now ≤ 32 }
    {
        self.table.as_slice()
    }

    /// Whether it has 32 tasks.
    pub(crate) fn is_full(&self) -> bool
        ensures { result ≡ nat_le 32 (length self.now) }
    {
        !has_room(self.seats())
    }

    /// The sum of the shares, in millionths.
    pub(crate) fn load(&self) -> u64
        ensures { result ≡ load_of (tasks_of self.now) }
    {
        self.load
    }

    /// The newcomer of a trial takes its seat, and each seat below it keeps the instant of the trial.
    pub(crate) fn join(&mut self, newcomer: Task, trial: &Trial)
        requires trial { IsTrialOf newcomer self.old trial.now }
        requires limits { within_limits newcomer ≡ true }
        ensures { SeatedWith newcomer trial.now.instants.items self.old self.new }
    {
        self.table.seat(newcomer, trial);
        self.load = with_share(self.load, newcomer);
    }

    /// The seat at `at` leaves, and its share.
    pub(crate) fn leave(&mut self, at: usize) -> Seat
        requires { at < length self.old }
        ensures list { self.new ≡ remove self.old at }
        ensures value { result ≡ slice_index_or self.old at no_seat }
    {
        let seat = self.table.remove(at);
        self.load = without_share(self.load, seat.task);
        seat
    }
}
