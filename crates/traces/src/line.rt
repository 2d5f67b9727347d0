// The line of an instant, and what stands in it.
ghost use Rattle.std.specs.Prelude.{Some};
ghost use Rattle.traces.specs.Traces.{behind_commas, places_text, state_text, states_text, line_text};

use crate::texts::OrDash;
use machine::State;
use std::fmt;
use tasks::Ticks;

// Places, each behind a comma. Apart from the states below: those are shown as `Doing`, which their slice does not hold.
#[derive(Clone, Copy)]
struct BehindCommas<'a>(&'a [usize]);

impl fmt::Display for BehindCommas<'_> {
    ghost output = { λ p. Some (behind_commas p.0.now) };

    fn fmt<W: fmt::Write>(&self, f: &mut fmt::Formatter<W>) -> fmt::Result {
        for place in self.0 {
            write!(f, ",{place}")?;
        }
        Ok(())
    }
}

// Places parted by commas, or a dash for none.
#[derive(Clone, Copy)]
struct Places<'a>(&'a [usize]);

impl fmt::Display for Places<'_> {
    ghost output = { λ p. Some (places_text p.0.now) };

    fn fmt<W: fmt::Write>(&self, f: &mut fmt::Formatter<W>) -> fmt::Result {
        match self.0 {
            [] => write!(f, "-"),
            [first, others @ ..] => {
                let others = BehindCommas(others);
                write!(f, "{first}{others}")
            }
        }
    }
}

// What a task is doing: its work left and its deadline, or a dash where it is idle.
#[derive(Clone, Copy)]
struct Doing(State);

impl fmt::Display for Doing {
    ghost output = { λ d. Some (state_text d.0) };

    fn fmt<W: fmt::Write>(&self, f: &mut fmt::Formatter<W>) -> fmt::Result {
        match self.0 {
            State::Idle => write!(f, "-"),
            State::Waiting { left, deadline } => write!(f, "{left}@{deadline}"),
        }
    }
}

// The states of all tasks, each behind a space.
#[derive(Clone, Copy)]
struct States<'a>(&'a [State]);

impl fmt::Display for States<'_> {
    ghost output = { λ s. Some (states_text s.0.now) };

    fn fmt<W: fmt::Write>(&self, f: &mut fmt::Formatter<W>) -> fmt::Result {
        for state in self.0 {
            let doing = Doing(*state);
            write!(f, " {doing}")?;
        }
        Ok(())
    }
}

// The line of an instant: what was released at it, who was served, and the states after it.
#[derive(Clone, Copy)]
pub(crate) struct Line<'a> {
    pub(crate) instant: Ticks,
    pub(crate) released: &'a [usize],
    pub(crate) served: Option<usize>,
    pub(crate) states: &'a [State],
}

impl fmt::Display for Line<'_> {
    ghost output = { λ l. Some (line_text l.instant.0 l.released.now l.served l.states.now) };

    fn fmt<W: fmt::Write>(&self, f: &mut fmt::Formatter<W>) -> fmt::Result {
        let instant = self.instant;
        let released = Places(self.released);
        let served = OrDash(self.served);
        let states = States(self.states);
        write!(
            f,
            "{instant} released {released} served {served} states{states}\n"
        )
    }
}
