// What is shown of a sheet.
ghost use Rattle.std.specs.Prelude.{◌≡◌, Some};
ghost use Rattle.console.specs.Texts.{entries_text, sheet_text};

use seating::AdmitRefusal;
use std::fmt;

// Apart from a trace's places: those stand behind commas, and one text for both would take the mark as a value.
/// The entries of a sheet, each behind a space.
#[derive(Clone, Copy)]
pub(crate) struct EntriesText<'a>(pub(crate) &'a [u32]);

impl fmt::Display for EntriesText<'_> {
    ghost output = { λ e. Some (entries_text e.0.now) };

    fn fmt<W: fmt::Write>(&self, f: &mut fmt::Formatter<W>) -> fmt::Result {
        for entry in self.0 {
            write!(f, " {entry}")?;
        }
        Ok(())
    }
}

// What is shown of the sheet at a refusal: all of it where no processor would take the task.
pub(crate) fn shown_at<'a>(refusal: AdmitRefusal, sheet: &'a [u32]) -> EntriesText<'a>
    ensures { entries_text result.0.now ≡ sheet_text refusal sheet.now }
{
    match refusal {
        AdmitRefusal::NoTaker => EntriesText(sheet),
        _ => EntriesText(&[]),
    }
}
