// Laws over whole runs of the machine. Each function stands for the law in its contract, which is proved of every run.
ghost use Rattle.machine.specs.Laws.{MissIsFirst, OneUnitATick, BusyIsWorkDone, NoWorkIsLost, WaitsUntilDone, DoneByDeadline, ReleasedWhenIdle};

/// The miss of a run is the first.
#[tactic(auto, using(crate::proofs::Trace::miss_is_first))]
pub fn miss_is_first()
    ensures { MissIsFirst }
{}

/// In each tick at most one unit of work is done in all.
#[tactic(auto, using(crate::proofs::Work::one_unit_a_tick))]
pub fn one_unit_a_tick()
    ensures { OneUnitATick }
{}

/// The busy ticks of a run are the work done in it.
#[tactic(auto, using(crate::proofs::Work::busy_is_work_done))]
pub fn busy_is_work_done()
    ensures { BusyIsWorkDone }
{}

/// Up to the end of a lawful run, what was released is done or still waits.
#[tactic(auto, using(crate::proofs::Work::no_work_is_lost))]
pub fn no_work_is_lost()
    ensures { NoWorkIsLost }
{}

/// A task waits from its release until its work is done.
#[tactic(auto, using(crate::proofs::Job::waits_until_done))]
pub fn waits_until_done()
    ensures { WaitsUntilDone }
{}

/// With no miss up to the horizon, every job whose deadline is at most the horizon is done by it.
pub fn done_by_deadline()
    ensures { DoneByDeadline }
{}

/// In a lawful run no release finds its task still waiting.
#[tactic(auto, using(crate::proofs::Job::released_when_idle))]
pub fn released_when_idle()
    ensures { ReleasedWhenIdle }
{}
