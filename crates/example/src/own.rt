// A rack with a judge and a preference of one's own is called as any other.
use crate::last_fit::LastFit;
use crate::period_first::PeriodFirst;
use rack::Rack;
use std::io::{self, Write};
use tasks::Task;

/// Admits the first three of the caller's tasks.
pub(crate) fn call<W: Write>(out: &mut W) -> io::Result<()> {
    let mut rack = Rack::make(2, PeriodFirst, LastFit).unwrap();
    let mut sheet = [0; 2];
    for (number, work, period) in [(1, 40, 100), (2, 40, 150), (3, 100, 350)] {
        let answer = rack.admit(Task::of(number, work, period), &mut sheet);
        writeln!(out, "admit {number}: {answer:?}")?;
    }
    Ok(())
}
