// What is seen of one instant of a run.
ghost use Rattle.std.specs.Prelude.{◌≡◌, ◌||◌, IfOk};
ghost use Rattle.std.specs.List.{filter, position, enumerate_from};
ghost use Rattle.machine.specs.Machine.{releases, due};
ghost use Rattle.machine.specs.Moments.{is_now};
ghost use Rattle.machine.specs.Laws.{end_of};
ghost use Rattle.traces.specs.Traces.{released_below, waiting, ServedHasTurn};

use machine::{Miss, Release, State};
use std::alloc::{AllocError, Global};
use tasks::Ticks;

// Whether the release is now.
fn is_now(release: &Release, instant: Ticks) -> bool
    ensures { result ≡ is_now instant.0 release.now }
{
    release.instant == instant
}

// The releases that are now, in their order. Of a lawful list that is one for each task at most.
pub(crate) fn due_now(
    alloc: Global,
    releases: &[Release],
    instant: Ticks,
) -> Result<Vec<Release>, AllocError>
    ensures { IfOk result (λ v. v.items ≡ filter (is_now instant.0) releases.now) }
{
    releases
        .iter()
        .copied()
        .filter(|release| is_now(release, instant))
        .collect(alloc)
}

// Whether the release is of this place, and now.
fn is_of(release: &Release, place: usize, instant: Ticks) -> bool
    ensures { result ≡ releases place instant.0 release.now }
{
    release.place == place && release.instant == instant
}

// Whether a task waits.
fn waits(state: State) -> bool
    ensures { result ≡ waiting state }
{
    matches!(state, State::Waiting { .. })
}

// An instant, and the releases that may be of it.
#[derive(Clone, Copy)]
pub(crate) struct At<'a> {
    pub(crate) releases: &'a [Release],
    pub(crate) instant: Ticks,
}

impl At<'_> {
    // Whether the task at a place is released now.
    fn releases_at(self, place: usize) -> bool
        ensures { result ≡ due self.entry.releases.now place self.entry.instant.0 }
    {
        self.releases
            .iter()
            .any(|release| is_of(release, place, self.instant))
    }

    // The places, of so many, that are released now.
    pub(crate) fn released_places(
        self,
        alloc: Global,
        count: usize,
    ) -> Result<Vec<usize>, AllocError>
        ensures { IfOk result (λ v. v.items ≡ released_below self.entry.releases.now self.entry.instant.0 count) }
    {
        (0..count)
            .filter(|place| self.releases_at(*place))
            .collect(alloc)
    }

    // Whether the task at a place waits once the releases have come.
    fn will_wait(self, place: usize, state: State) -> bool
        ensures { result ≡ (due self.entry.releases.now place self.entry.instant.0 || waiting state) }
    {
        self.releases_at(place) || waits(state)
    }

    // The first place that waits once the releases have come.
    pub(crate) fn served_place(self, states: &[State]) -> Option<usize>
        ensures { result ≡ position (λ w. due self.entry.releases.now w.0 self.entry.instant.0 || waiting w.1) (enumerate_from 0 states.now) }
    {
        states
            .iter()
            .enumerate()
            .position(|(place, state)| self.will_wait(place, *state))
    }
}

// The instant at which a run ends: that of its miss, or the horizon.
pub(crate) fn end_of(horizon: Ticks, miss: Option<Miss>) -> Ticks
    ensures { result.0 ≡ end_of horizon.0 miss }
{
    miss.map_or(horizon, |found| found.instant)
}

/// The place that a trace says is served is the one that has the turn.
#[tactic(auto, using(crate::proofs::Turns::served_has_turn))]
pub fn served_has_turn()
    ensures { ServedHasTurn }
{}
