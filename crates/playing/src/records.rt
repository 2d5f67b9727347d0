// One record: the call on the rack, and the line of its answer.
ghost use Rattle.std.specs.Prelude.{◌≡◌, ◌≤◌};
ghost use Rattle.rackfile.specs.Records.{seen_as};
ghost use Rattle.playing.specs.Playing.{Plays};

use crate::outcome::{admission_line, carried, withdrawal_line};
use judges::Judge;
use lines::write_line;
use preferences::Preference;
use rack::Rack;
use rackfile::Record;
use seating::Refused;
use tasks::Task;

/// Plays one record on the rack, writes its line at the front of the buffer and answers the line's length.
// Five parameters: the rack, the record and its index, and the caller's own sheet and buffer, so that nothing is allocated.
pub(crate) fn play_record<J: Judge, P: Preference>(
    rack: &mut Rack<J, P>,
    one: Record<'_>,
    index: u32,
    sheet: &mut [u32; 16],
    out: &mut [u8; 64],
) -> usize
    ensures played { Plays J.meaning P.before rack.old (seen_as one.entry) index sheet.old out.old result rack.new sheet.new out.new }
    ensures inside { result ≤ 64 }
{
    match one {
        Record::Admission {
            number,
            work,
            period,
            label,
            ..
        } => {
            // in both arms, since the two answers are of other types
            let answer = rack.admit(Task::of(number, work, period), sheet);
            let outcome = carried(index, answer.map_err(Refused::from));
            write_line(out, admission_line(index, label, outcome))
        }
        Record::Withdrawal { number } => {
            let answer = rack.withdraw(number);
            let outcome = carried(index, answer.map_err(Refused::from));
            write_line(out, withdrawal_line(index, number, outcome))
        }
    }
}
