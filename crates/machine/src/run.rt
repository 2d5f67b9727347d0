// A whole run of the machine, up to the horizon of its plan.
ghost use Rattle.std.specs.Prelude.{◌≡◌, ◌<◌, ◌≤◌, length};
ghost use Rattle.machine.specs.Cursor.{Cursor};

use crate::clock::Clock;
use crate::instant::{Now, releases_now};
use crate::plan::Plan;
use crate::state::{Moment, Outcome, State};

// How far a run of a plan has come: the releases before the cursor have come, and the deadlines of the clock's instant are to be looked at.
// The states stand beside it: tried as a field, which the borrow checker does not cover (a field of a struct with ghost fields, lent as `&mut`).
#[derive(Drop)]
struct Run<'a> {
    plan: Plan<'a>,
    cursor: usize,
    clock: Clock,
    ghost below: { clock.instant.0 ≤ plan.horizon.0 },
    ghost come: { Cursor plan.releases.now cursor clock.instant.0 },
}

impl<'a> Run<'a> {
    ghost use Rattle.machine.specs.Moments.{Done, MovedOn};

    // A run begins at instant 0, before any release.
    fn start(plan: Plan<'a>) -> Run<'a>
        ensures plan { result.plan ≡ plan.entry }
        ensures instant { result.clock.instant.0 ≡ 0 }
        ensures busy { result.clock.busy.0 ≡ 0 }
    {
        Run {
            plan,
            cursor: 0,
            clock: Clock::start(),
        }
    }

    // One instant below the horizon, with the releases that are now.
    fn advance(&mut self, states: &mut [State]) -> Moment
        requires below { self.old.clock.instant.0 < self.old.plan.horizon.0 }
        requires sizes { length states.old ≡ length self.old.plan.tasks.now }
        ensures plan { self.new.plan ≡ self.old.plan }
        ensures clock { MovedOn result self.old.clock self.new.clock }
        ensures step { Done self.old.plan.tasks.now self.old.plan.releases.now self.old.clock.instant.0 states.old states.new result }
    {
        let instant = self.clock.instant;
        let releases = releases_now(&self.plan.releases[self.cursor..], instant);
        let now = Now {
            tasks: self.plan.tasks,
            releases,
            instant,
        };
        let moment = now.go_by(states);
        if let Moment::Went(busy) = moment {
            self.cursor += releases.len();
            self.clock = self.clock.after(busy);
        }
        moment
    }
}

impl<'a> Plan<'a> {
    ghost use Rattle.machine.specs.Machine.{outcome};

    /// Runs the machine on the plan, up to its horizon: how the run ends.
    pub fn run(&self) -> Outcome
        ensures { result ≡ outcome self.now.tasks.now self.now.horizon.0 self.now.releases.now }
    {
        // fixed memory: a run allocates nothing
        let mut all = [State::Idle; 33];
        let states = &mut all[..self.tasks.len()];
        let mut run = Run::start(*self);
        while run.clock.is_below(self.horizon) {
            if let Moment::Missed(place) = run.advance(states) {
                return run.clock.ending(Some(place));
            }
        }
        run.clock.last_look(states)
    }
}
