// The rack's answers, carried into the player's own, and their lines.
ghost use Rattle.std.specs.Prelude.{◌≡◌};
ghost use Rattle.lines.specs.Texts.{seen_as};
ghost use Rattle.playing.specs.Outcomes.{carried, in_line, unreadable, admission_line, withdrawal_line};

use crate::fault::{PlayerFault, RefusedRecord};
use lines::Line;
use rackfile::FileFault;
use seating::Refused;
use tasks::{Ticks, Units};

// The rack's answer to the record of this index, its refusal carried into the player's fault.
pub(crate) fn carried<T: Drop>(index: u32, answer: Result<T, Refused>) -> Result<T, PlayerFault>
    ensures { result ≡ carried index answer }
{
    Ok(answer.map_err(|refusal| RefusedRecord { index, refusal })?)
}

// A number in the 32 bits of a line. One that is greater, which no file and no rack gives, is written as the greatest.
fn in_line(n: usize) -> u32
    ensures { result ≡ in_line n }
{
    u32::try_from(n).unwrap_or(u32::MAX)
}

// The line of an unreadable file.
pub(crate) fn unreadable_line<'a>(fault: FileFault) -> Line<'a>
    ensures { seen_as result ≡ unreadable fault }
{
    Line::Unreadable {
        number: fault.number(),
        place: in_line(fault.place()),
    }
}

// The line of an admission. That of a withdrawal is not one with it: each of their variants is another, and a shared function would take four closures.
pub(crate) fn admission_line<'a>(
    index: u32,
    label: &'a [u8],
    outcome: Result<(usize, Ticks), PlayerFault>,
) -> Line<'a>
    ensures { seen_as result ≡ admission_line index label.now outcome }
{
    match outcome {
        Ok((processor, instant)) => Line::Admitted {
            index,
            label,
            processor: in_line(processor),
            instant: instant.0,
        },
        Err(PlayerFault::Turned(refused)) => Line::NotAdmitted {
            index: refused.index,
            label,
            refusal: refused.refusal.number(),
        },
        Err(PlayerFault::Unread(fault)) => unreadable_line(fault),
    }
}

// The line of a withdrawal.
pub(crate) fn withdrawal_line<'a>(
    index: u32,
    number: u32,
    outcome: Result<(usize, Units, Ticks), PlayerFault>,
) -> Line<'a>
    ensures { seen_as result ≡ withdrawal_line index number outcome }
{
    match outcome {
        Ok((left, _, _)) => Line::Withdrawn {
            index,
            number,
            processor: in_line(left),
        },
        Err(PlayerFault::Turned(refused)) => Line::NotWithdrawn {
            index: refused.index,
            number,
            refusal: refused.refusal.number(),
        },
        Err(PlayerFault::Unread(fault)) => unreadable_line(fault),
    }
}
