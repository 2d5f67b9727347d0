// The checks of an admission that need no table.
ghost use Rattle.std.specs.Prelude.{◌≡◌};
ghost use Rattle.std.specs.Result.{result_err};
ghost use Rattle.seating.specs.Admission.{bad_call};

use super::refusal::AdmitRefusal;
use tasks::Task;

/// Looks for what needs no table. The error is the first cause that shows in the sheet's length and the task alone.
pub fn bad_call(processors: usize, task: Task, entries: usize) -> Result<(), AdmitRefusal>
    ensures { result_err result ≡ bad_call processors task entries }
{
    if entries < processors {
        return Err(AdmitRefusal::ShortSheet);
    }
    if task.number == 0 {
        return Err(AdmitRefusal::NumberZero);
    }
    if !task.has_period() {
        return Err(AdmitRefusal::BadPeriod);
    }
    if !task.has_work() {
        return Err(AdmitRefusal::BadWork);
    }
    Ok(())
}
