// A good instant is needed: without one the synchronous releases make a task miss.
ghost use Rattle.schedule.specs.Necessary.{SynchronousIsAllMultiples, SynchronousIsLawful, SynchronousMisses, UnfitCanMiss, UnfitFrontCanMiss};

/// The synchronous releases are the multiples of the periods.
#[tactic(auto, using(crate::proofs::Sync::synchronous_is_all_multiples))]
pub fn synchronous_is_all_multiples()
    ensures { SynchronousIsAllMultiples }
{}

/// The synchronous releases are lawful.
#[tactic(auto, using(crate::proofs::Sync::synchronous_is_lawful))]
pub fn synchronous_is_lawful()
    ensures { SynchronousIsLawful }
{}

/// Without a good instant at some place, a task misses under the synchronous releases.
#[tactic(auto, using(crate::proofs::Needed::synchronous_misses))]
pub fn synchronous_misses()
    ensures { SynchronousMisses }
{}

/// A list with a place without a good instant can miss.
#[tactic(auto, using(crate::proofs::Needed::unfit_can_miss))]
pub fn unfit_can_miss()
    ensures { UnfitCanMiss }
{}

/// It can miss at that place or above.
#[tactic(auto, using(crate::proofs::Needed::unfit_front_can_miss))]
pub fn unfit_front_can_miss()
    ensures { UnfitFrontCanMiss }
{}
