// The rack's answers to admissions and withdrawals, in words.
ghost use Rattle.std.specs.Prelude.{Some};
ghost use Rattle.console.specs.Texts.{admit_text, withdraw_text};

use crate::sheets::shown_at;
use seating::{AdmitRefusal, Refused, WithdrawRefusal};
use std::fmt::{self, Display};
use tasks::{Ticks, Units};

/// The answer to an admission: the processor and the instant, or the refusal and what it shows of the sheet.
#[derive(Clone, Copy)]
pub(crate) struct AdmitText<'a> {
    pub(crate) answer: Result<(usize, Ticks), AdmitRefusal>,
    pub(crate) sheet: &'a [u32],
}

impl fmt::Display for AdmitText<'_> {
    ghost output = { λ a. Some (admit_text a.answer a.sheet.now) };

    fn fmt<W: fmt::Write>(&self, f: &mut fmt::Formatter<W>) -> fmt::Result {
        match self.answer {
            Ok((processor, instant)) => write!(f, "ok {processor} {instant}"),
            Err(refusal) => {
                let text = Refused::from(refusal);
                let entries = shown_at(refusal, self.sheet);
                write!(f, "{text}{entries}")
            }
        }
    }
}

// Each answer matches for itself, here and at the questions: one text for all would need a text type for each `ok` line, and say no more.
/// The answer to a withdrawal: the processor, the work and the period, or the refusal.
#[derive(Clone, Copy)]
pub(crate) struct WithdrawText(pub(crate) Result<(usize, Units, Ticks), WithdrawRefusal>);

impl fmt::Display for WithdrawText {
    ghost output = { λ a. Some (withdraw_text a.0) };

    fn fmt<W: fmt::Write>(&self, f: &mut fmt::Formatter<W>) -> fmt::Result {
        match self.0 {
            Ok((processor, work, period)) => write!(f, "ok {processor} {work} {period}"),
            Err(refusal) => Refused::from(refusal).fmt(f),
        }
    }
}
