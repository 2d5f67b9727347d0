// A caller of a rack, who writes down what is answered.
use judges::Points;
use preferences::BestFit;
use rack::Rack;
use seating::AdmitRefusal;
use std::io::{self, Write};
use tasks::Task;

/// Makes a rack, admits five tasks, asks, withdraws one, and admits anew the one that was turned away.
pub(crate) fn call<W: Write>(out: &mut W) -> io::Result<()> {
    // proved never to fail: only 0 processors, or more than 16, are refused
    let mut rack = Rack::make(2, Points, BestFit).unwrap();
    let mut sheet = [0; 2];
    for (number, work, period) in [
        (1, 40, 100),
        (2, 40, 150),
        (3, 100, 350),
        (4, 60, 100),
        (5, 50, 100),
    ] {
        match rack.admit(Task::of(number, work, period), &mut sheet) {
            Ok((p, instant)) => writeln!(out, "{number} on {p}, instant {instant}")?,
            Err(AdmitRefusal::NoTaker) => writeln!(out, "{number} has no taker: {sheet:?}")?,
            Err(refusal) => writeln!(out, "{number} refused with {}", refusal.number())?,
        }
    }
    writeln!(out, "find 3: {:?}", rack.find(3))?;
    writeln!(out, "load of 0: {:?}", rack.load(0))?;
    writeln!(out, "seats on 1: {:?}", rack.seats(1))?;
    writeln!(out, "withdraw 4: {:?}", rack.withdraw(4))?;
    let again = rack.admit(Task::of(5, 50, 100), &mut sheet);
    writeln!(out, "admit 5: {again:?}")
}
