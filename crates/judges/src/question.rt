// A question that a judge may be asked, and what the demand at an instant says of it and of those after it.
ghost use Rattle.std.specs.Prelude.{◌≡◌, true, false, length, nat_le, MatchOption};
ghost use Rattle.tasks.specs.Units.{units_in, one_a_tick};
ghost use Rattle.judges.specs.Laws.{few, asked};
ghost use Rattle.judges.specs.Weighing.{Weighs};

use tasks::{Speed, Task, Ticks, Units, all_keep_limits, demand_at};

// A task below others that a judge may be asked about: only the test of what may be asked makes one.
#[derive(Clone, Copy)]
pub(crate) struct Question<'a> {
    pub(crate) task: Task,
    pub(crate) above: &'a [Task],
    pub(crate) ghost asked: { asked task above.now ≡ true },
}

// Whether at most 31 tasks stand above.
fn are_few(above: &[Task]) -> bool
    ensures { result ≡ few above.now }
{
    above.len() <= 31
}

// Whether a judge may be asked about the task below those above it.
fn may_be_asked(task: Task, above: &[Task]) -> bool
    ensures { result ≡ asked task above.now }
{
    are_few(above) && task.keeps_limits() && all_keep_limits(above)
}

// Whether the demand is done in `t`.
fn is_done(demand: Units, t: Ticks) -> bool
    ensures { result ≡ nat_le demand.0 (units_in one_a_tick t.0) }
{
    demand <= Speed::one().units_in(t)
}

// What the demand at an instant says: three cases, so no Option.
#[derive(Clone, Copy)]
pub(crate) enum Weighed {
    // It is done by then: the instant is good.
    Done,
    // Neither this instant nor a later one below the given one is good.
    NotBefore(Ticks),
    // Nor is any later one.
    Never,
}

impl<'a> Question<'a> {
    // The question, where it may be asked.
    pub(crate) fn new(task: Task, above: &'a [Task]) -> Option<Question<'a>>
        ensures { MatchOption result (asked task above.now ≡ false) (λ question. (question.task ≡ task) × (question.above.now ≡ above.now)) }
    {
        if !may_be_asked(task, above) {
            return None;
        }
        Some(Question { task, above })
    }

    // Where the demand at `t` is not done in `t`, nothing is good before the instant at which that demand is done.
    pub(crate) fn weigh(&self, t: Ticks) -> Weighed
        ensures { Weighs self.now.task self.now.above.now t.0 result }
    {
        let Some(demand) = demand_at(self.task, self.above, t) else {
            return Weighed::Never;
        };
        if is_done(demand, t) {
            return Weighed::Done;
        }
        Speed::one()
            .ticks_for(demand)
            .map_or(Weighed::Never, Weighed::NotBefore)
    }
}
