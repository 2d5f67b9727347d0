// A task, its limits and its share.
ghost use Rattle.std.specs.Prelude.{◌≡◌, ◌≤◌};
ghost use Rattle.tasks.specs.Limits.{period_allowed, work_allowed, within_limits, all_within};
ghost use Rattle.tasks.specs.Rounding.{up};
ghost use Rattle.tasks.specs.Share.{share_answer};
ghost use Rattle.tasks.specs.Tasks.{task_of};

use crate::units::{Speed, Ticks, Units};

/// A cyclic task: each of its jobs asks for `work`, and two jobs are released at least `period` apart.
/// Any numbers may stand in it: what answers for it says whether it keeps the limits.
#[derive(Clone, Copy, Debug, Default, PartialEq, Eq)]
pub struct Task {
    pub number: u32,
    pub work: Units,
    pub period: Ticks,
}

impl Task {
    /// The task of three plain numbers: its own, its work in units, and its period in ticks.
    pub fn of(number: u32, work: u32, period: u32) -> Task
        ensures { result ≡ task_of number work period }
    {
        Task {
            number,
            work: Units(u64::from(work)),
            period: Ticks(period),
        }
    }

    /// Whether the period is from 1 to 1,000,000 ticks.
    pub fn has_period(&self) -> bool
        ensures { result ≡ period_allowed self.now }
    {
        (1..=1_000_000).contains(&self.period.0)
    }

    /// Whether the work is from 1 unit to what the processor does in a period.
    pub fn has_work(&self) -> bool
        ensures { result ≡ work_allowed self.now }
    {
        let most = Speed::one().units_in(self.period);
        (Units(1)..=most).contains(&self.work)
    }

    /// Whether the task keeps the limits.
    pub fn keeps_limits(&self) -> bool
        ensures { result ≡ within_limits self.now }
    {
        self.has_period() && self.has_work()
    }

    /// The share of a processor that the task takes, in millionths, rounded up: none outside the limits.
    pub fn share(&self) -> Option<u32>
        ensures { result ≡ share_answer self.now }
    {
        if !self.keeps_limits() {
            return None;
        }
        u32::try_from(over(self.work.0 * 1_000_000, self.period)).ok()
    }
}

/// Whether each task keeps the limits.
pub fn all_keep_limits(tasks: &[Task]) -> bool
    ensures { result ≡ all_within tasks.now }
{
    tasks.iter().all(|task| task.keeps_limits())
}

// How often `period` goes into `n`, rounded up.
#[tactic(auto, using(crate::proofs::Roundings::rounding))]
pub(crate) fn over(n: u64, period: Ticks) -> u64
    requires { 1 ≤ period.0 }
    ensures { result ≡ up n period.0 }
{
    n.div_ceil(u64::from(period.0))
}
