// A newcomer's place among the seats, and where a number sits.
ghost use Rattle.std.specs.Prelude.{◌≡◌, ◌≤◌, length, ◌==◌, nat_lt, position};
ghost use Rattle.tasks.specs.Priority.{stands_above};
ghost use Rattle.seating.specs.Seats.{tasks_of, place_of, FirstSpot};

use super::seat::Seat;
use tasks::Task;

// Whether the seat is that of the task of this number.
fn is_of(seat: Seat, number: u32) -> bool
    ensures { result ≡ (seat.task.number == number) }
{
    seat.task.number == number
}

// Apart from `position`, so that the chain is told in the library's words and the contract in those of the seats.
fn first_of(seats: &[Seat], number: u32) -> Option<usize>
    ensures { result ≡ position (λ s. s.task.number == number) seats.now }
{
    seats.iter().position(|seat| is_of(*seat, number))
}

/// Where the first task of this number sits, or nothing where none does.
#[tactic(auto, using(crate::proofs::Spotting::first_spot))]
pub fn position(seats: &[Seat], number: u32) -> Option<usize>
    ensures { FirstSpot number seats.now result }
{
    first_of(seats, number)
}

/// Whether a seat is free.
pub fn has_room(seats: &[Seat]) -> bool
    ensures { result ≡ nat_lt (length seats.now) 32 }
{
    seats.len() < 32
}

// Whether a seated task stands above a newcomer: of equal periods the one admitted earlier does.
fn is_above(seated: Task, newcomer: Task) -> bool
    ensures { result ≡ stands_above seated newcomer }
{
    seated.period <= newcomer.period
}

/// How many seats stand above the newcomer.
pub fn place(seats: &[Seat], newcomer: Task) -> usize
    ensures place { result ≡ place_of newcomer (tasks_of seats.now) }
    ensures within { result ≤ length seats.now }
{
    seats
        .iter()
        .map(|seat| seat.task)
        .take_while(|seated| is_above(*seated, newcomer))
        .count()
}
