// Answers that show seats and loads, in words.
ghost use Rattle.std.specs.Prelude.{◌≡◌, Some};
ghost use Rattle.rack.specs.Steps.{shown};
ghost use Rattle.console.specs.Questions.{seat_text, find_text, load_text, row_text, seats_text};

use seating::{QuestionRefusal, Refused, Seat};
use std::fmt::{self, Display};
use tasks::Task;

/// A seat: `NUMBER C T INSTANT`.
#[derive(Clone, Copy)]
struct SeatText(Seat);

impl fmt::Display for SeatText {
    ghost output = { λ s. Some (seat_text s.0) };

    fn fmt<W: fmt::Write>(&self, f: &mut fmt::Formatter<W>) -> fmt::Result {
        let Seat { task, instant } = self.0;
        let Task {
            number,
            work,
            period,
        } = task;
        write!(f, "{number} {work} {period} {instant}")
    }
}

/// Seats, each behind a space. Apart from the entries of a sheet: those show themselves, a seat does by its text.
#[derive(Clone, Copy)]
struct RowText<'a>(&'a [Seat]);

impl fmt::Display for RowText<'_> {
    ghost output = { λ r. Some (row_text r.0.now) };

    fn fmt<W: fmt::Write>(&self, f: &mut fmt::Formatter<W>) -> fmt::Result {
        for seat in self.0 {
            let text = SeatText(*seat);
            write!(f, " {text}")?;
        }
        Ok(())
    }
}

/// The answer to `find`: `seat NUMBER C T INSTANT P` or `none`.
#[derive(Clone, Copy)]
pub(crate) struct FindText(pub(crate) Option<(Seat, usize)>);

impl fmt::Display for FindText {
    ghost output = { λ a. Some (find_text a.0) };

    fn fmt<W: fmt::Write>(&self, f: &mut fmt::Formatter<W>) -> fmt::Result {
        match self.0 {
            Some((seat, processor)) => {
                let text = SeatText(seat);
                write!(f, "seat {text} {processor}")
            }
            None => write!(f, "none"),
        }
    }
}

/// The answer to `load`: `ok LOAD` or the refusal.
#[derive(Clone, Copy)]
pub(crate) struct LoadText(pub(crate) Result<u64, QuestionRefusal>);

impl fmt::Display for LoadText {
    ghost output = { λ a. Some (load_text a.0) };

    fn fmt<W: fmt::Write>(&self, f: &mut fmt::Formatter<W>) -> fmt::Result {
        match self.0 {
            Ok(load) => write!(f, "ok {load}"),
            Err(refusal) => Refused::from(refusal).fmt(f),
        }
    }
}

/// The answer to `seats`: `ok N` and the seats, or the refusal.
#[derive(Clone, Copy)]
pub(crate) struct SeatsText<'a>(pub(crate) Result<&'a [Seat], QuestionRefusal>);

impl fmt::Display for SeatsText<'_> {
    ghost output = { λ a. Some (seats_text (shown a.0)) };

    fn fmt<W: fmt::Write>(&self, f: &mut fmt::Formatter<W>) -> fmt::Result {
        match self.0 {
            Ok(seats) => {
                let count = seats.len();
                let row = RowText(seats);
                write!(f, "ok {count}{row}")
            }
            Err(refusal) => Refused::from(refusal).fmt(f),
        }
    }
}
