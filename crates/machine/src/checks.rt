// What a plan is looked over for.
ghost use Rattle.std.specs.Prelude.{◌≡◌, ◌≤◌, true, ◌&&◌, length, nat_le, nat_lt};
ghost use Rattle.tasks.specs.Limits.{all_within};
ghost use Rattle.machine.specs.Lawful.{lawful};
ghost use Rattle.machine.specs.Refusals.{tasks_allowed, horizon_allowed, releases_allowed};
ghost use Rattle.machine.specs.Separation.{may_come};

use crate::state::{Release, after};
use tasks::{Task, Ticks, all_keep_limits};

// Whether there may be so many tasks: at most 33. Each limit has a function of its own: a const parameter would only take its number away.
fn is_task_count(count: usize) -> bool
    ensures { result ≡ nat_le count 33 }
{
    count <= 33
}

// Whether there may be so many releases: at most 65,536.
fn is_release_count(count: usize) -> bool
    ensures { result ≡ nat_le count 65536 }
{
    count <= 65_536
}

// Whether the horizon is at most 2,000,000 ticks.
pub(crate) fn is_near(horizon: Ticks) -> bool
    ensures { result ≡ horizon_allowed horizon.0 }
{
    horizon.0 <= 2_000_000
}

// Whether the tasks may be rehearsed.
pub(crate) fn can_run(tasks: &[Task]) -> bool
    ensures { result ≡ tasks_allowed tasks.now }
{
    is_task_count(tasks.len()) && all_keep_limits(tasks)
}

// Whether the release's place exists, and its instant is below the horizon.
fn is_inside(release: &Release, count: usize, horizon: Ticks) -> bool
    ensures { result ≡ (nat_lt release.now.place count && nat_lt release.now.instant.0 horizon.0) }
{
    release.place < count && release.instant < horizon
}

// Whether the release is not before the last one, nor before its own place is free again.
fn comes_in_time(release: &Release, last: Ticks, free: Ticks) -> bool
    ensures { result ≡ may_come last.0 free.0 release.now }
{
    last <= release.instant && free <= release.instant
}

// Whether the releases are lawful. A pass carries the last instant and, in fixed memory, when each of 33 places is free: a chain with
// both is no plainer.
fn is_lawful(tasks: &[Task], horizon: Ticks, releases: &[Release]) -> bool
    requires few { length tasks.now ≤ 33 }
    requires limits { all_within tasks.now ≡ true }
    requires near { horizon.0 ≤ 2000000 }
    ensures { result ≡ lawful tasks.now horizon.0 releases.now }
{
    let mut last = Ticks(0);
    let mut free = [Ticks(0); 33];
    for release in releases {
        if !is_inside(release, tasks.len(), horizon) {
            return false;
        }
        if !comes_in_time(release, last, free[release.place]) {
            return false;
        }
        last = release.instant;
        free[release.place] = after(release.instant, tasks[release.place].period);
    }
    true
}

// Whether the releases may be rehearsed.
pub(crate) fn can_come(tasks: &[Task], horizon: Ticks, releases: &[Release]) -> bool
    requires tasks { tasks_allowed tasks.now ≡ true }
    requires near { horizon_allowed horizon.0 ≡ true }
    ensures { result ≡ releases_allowed tasks.now horizon.0 releases.now }
{
    is_release_count(releases.len()) && is_lawful(tasks, horizon, releases)
}
