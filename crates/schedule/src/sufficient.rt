// A good instant is enough for its place.
ghost use Rattle.schedule.specs.Sufficient.{RunsFollowTraces, RunsMeetTraces, WaitsLess, DoneBy, IdleFrom, FittingPlaceIsSafe, FittingListIsSafe};

/// A run misses where its trace first does, up to the horizon.
pub fn runs_follow_traces()
    ensures { RunsFollowTraces }
{}

/// A run misses nothing exactly when its trace does not, up to the horizon.
#[tactic(auto, using(crate::proofs::Runs::runs_meet_traces))]
pub fn runs_meet_traces()
    ensures { RunsMeetTraces }
{}

/// Under a good instant g each job of the place waits for less than g ticks.
#[tactic(auto, using(crate::proofs::Enough::waits_less))]
pub fn waits_less()
    ensures { WaitsLess }
{}

/// Under a good instant g a job released at r is done by r + g.
#[tactic(auto, using(crate::proofs::Enough::done_by))]
pub fn done_by()
    ensures { DoneBy }
{}

/// From then on its task is idle up to the next release.
#[tactic(auto, using(crate::proofs::Enough::idle_from))]
pub fn idle_from()
    ensures { IdleFrom }
{}

/// A place with a good instant is never the one that misses.
pub fn fitting_place_is_safe()
    ensures { FittingPlaceIsSafe }
{}

/// A list that fits never misses.
#[tactic(auto, using(crate::proofs::Enough::fitting_list_is_safe))]
pub fn fitting_list_is_safe()
    ensures { FittingListIsSafe }
{}
