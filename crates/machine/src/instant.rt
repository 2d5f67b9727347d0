// The parts of one instant of the machine, over the states of all tasks.
ghost use Rattle.std.specs.Prelude.{◌≡◌, true, length, ◌==◌, ◌&&◌, nat_lt, take_while};
ghost use Rattle.machine.specs.Machine.{first_missed, with_releases, busy_tick, served};
ghost use Rattle.machine.specs.Moments.{deadlines_fit, is_now, Done};

use crate::event::{misses, with_job, work_on};
use crate::state::{Moment, Release, State};
use tasks::{Task, Ticks};

// The first waiting task in the order that has its deadline now.
pub(crate) fn first_missed(states: &[State], instant: Ticks) -> Option<usize>
    ensures { result ≡ first_missed instant.0 0 states.now }
{
    states.iter().position(|state| misses(*state, instant))
}

// Whether a release is now.
fn is_now(release: &Release, instant: Ticks) -> bool
    ensures { result ≡ is_now instant.0 release.now }
{
    release.instant == instant
}

// How many releases from the front on are now.
fn count_now(releases: &[Release], instant: Ticks) -> usize
    ensures { result ≡ length (take_while (is_now instant.0) releases.now) }
{
    releases
        .iter()
        .take_while(|release| is_now(release, instant))
        .count()
}

// The releases from the front on that are now.
pub(crate) fn releases_now<'a>(releases: &'a [Release], instant: Ticks) -> &'a [Release]
    ensures { result.now ≡ take_while (is_now instant.0) releases.now }
{
    &releases[..count_now(releases, instant)]
}

// Whether a release comes now to one of so many tasks.
fn is_due(release: &Release, instant: Ticks, count: usize) -> bool
    ensures { result ≡ (release.now.instant.0 == instant.0 && nat_lt release.now.place count) }
{
    is_now(release, instant) && release.place < count
}

// The first waiting task does its work of one tick; the busy ticks, 1 or 0.
fn run_first(states: &mut [State]) -> Ticks
    ensures states { states.new ≡ served states.old }
    ensures busy { result.0 ≡ busy_tick states.old }
{
    for state in states.iter_mut() {
        if let Some(next) = work_on(*state) {
            *state = next;
            return Ticks(1);
        }
    }
    Ticks(0)
}

// An instant: the tasks, the releases and when it is, where a job of each task that is released then has a deadline that fits.
// The states stand beside it, as beside a run, since only they change.
#[derive(Clone, Copy)]
pub(crate) struct Now<'a> {
    pub(crate) tasks: &'a [Task],
    pub(crate) releases: &'a [Release],
    pub(crate) instant: Ticks,
    pub(crate) ghost fits: { deadlines_fit tasks.now instant.0 ≡ true },
}

impl Now<'_> {
    // The releases that are now come to their tasks, wherever they stand in the list.
    fn release_all(&self, states: &mut [State])
        requires { length states.old ≡ length self.now.tasks.now }
        ensures { states.new ≡ with_releases self.now.releases.now self.now.instant.0 0 self.now.tasks.now states.old }
    {
        for release in self.releases {
            if is_due(release, self.instant, self.tasks.len()) {
                let place = release.place;
                states[place] = with_job(states[place], self.tasks[place], self.instant);
            }
        }
    }

    // One instant below the horizon: first the deadlines, then the releases, then the work.
    pub(crate) fn go_by(&self, states: &mut [State]) -> Moment
        requires { length states.old ≡ length self.now.tasks.now }
        ensures { Done self.now.tasks.now self.now.releases.now self.now.instant.0 states.old states.new result }
    {
        if let Some(place) = first_missed(states, self.instant) {
            return Moment::Missed(place);
        }
        self.release_all(states);
        let busy = run_first(states);
        Moment::Went(busy)
    }
}
