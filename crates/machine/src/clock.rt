// How far a run has come.
ghost use Rattle.std.specs.Prelude.{◌≡◌, ◌+◌, ◌^◌, ◌<◌, ◌≤◌, nat_lt};

use crate::instant::first_missed;
use crate::state::{Miss, Outcome, State};
use tasks::Ticks;

// The instant to which a run has come, and the busy ticks before it.
#[derive(Clone, Copy)]
pub(crate) struct Clock {
    pub(crate) instant: Ticks,
    pub(crate) busy: Ticks,
    pub(crate) ghost counted: { busy.0 ≤ instant.0 },
}

impl Clock {
    ghost use Rattle.machine.specs.Machine.{ended, first_missed};

    // A run begins at instant 0.
    pub(crate) fn start() -> Clock
        ensures instant { result.instant.0 ≡ 0 }
        ensures busy { result.busy.0 ≡ 0 }
    {
        Clock {
            instant: Ticks(0),
            busy: Ticks(0),
        }
    }

    // Whether there are instants below the horizon to come.
    pub(crate) fn is_below(self, horizon: Ticks) -> bool
        ensures { result ≡ nat_lt self.instant.0 horizon.0 }
    {
        self.instant < horizon
    }

    // After an instant the instant rises by one.
    pub(crate) fn after(self, busy: Ticks) -> Clock
        requires instant { self.instant.0 + 1 < 2 ^ 32 }
        requires busy { busy.0 ≤ 1 }
        ensures instant { result.instant.0 ≡ self.instant.0 + 1 }
        ensures busy { result.busy.0 ≡ self.busy.0 + busy.0 }
    {
        Clock {
            instant: Ticks(self.instant.0 + 1),
            busy: Ticks(self.busy.0 + busy.0),
        }
    }

    // How a run ends now, with the place that missed or none.
    pub(crate) fn ending(self, missed: Option<usize>) -> Outcome
        ensures { result ≡ ended missed self.instant.0 self.busy.0 }
    {
        Outcome {
            miss: missed.map(|place| Miss {
                place,
                instant: self.instant,
            }),
            busy: self.busy,
        }
    }

    // At the horizon only the deadlines are looked at.
    pub(crate) fn last_look(self, states: &[State]) -> Outcome
        ensures { result ≡ ended (first_missed self.instant.0 0 states.now) self.instant.0 self.busy.0 }
    {
        self.ending(first_missed(states, self.instant))
    }
}
