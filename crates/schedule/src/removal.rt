// What stays good when a task leaves.
ghost use Rattle.schedule.specs.Removal.{GoodInstantsStay, RemovalFits};

/// When a task leaves, the good instants of the others stay good.
#[tactic(auto, using(crate::proofs::Removing::good_instants_stay))]
pub fn good_instants_stay()
    ensures { GoodInstantsStay }
{}

/// When a task leaves, a list that fits still fits.
#[tactic(auto, using(crate::proofs::Removing::removal_fits))]
pub fn removal_fits()
    ensures { RemovalFits }
{}
