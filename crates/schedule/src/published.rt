// The exact test as it was published, beside the one that is run.
ghost use Rattle.schedule.specs.Published.{UpIsTheCeiling, DemandIsTotalWork, PointsArePublished, PointsSuffice, OneTask, WholeList};

/// The rounding of the demand is the ceiling.
#[tactic(auto, using(crate::proofs::PublishedTest::up_is_the_ceiling))]
pub fn up_is_the_ceiling()
    ensures { UpIsTheCeiling }
{}

/// The demand is the published W(t).
#[tactic(auto, using(crate::proofs::PublishedTest::demand_is_total_work))]
pub fn demand_is_total_work()
    ensures { DemandIsTotalWork }
{}

/// The scheduling points are the published ones.
#[tactic(auto, using(crate::proofs::PublishedTest::points_are_published))]
pub fn points_are_published()
    ensures { PointsArePublished }
{}

/// A good instant exists exactly when a scheduling point is good.
#[tactic(auto, using(crate::proofs::PublishedTest::points_suffice))]
pub fn points_suffice()
    ensures { PointsSuffice }
{}

/// The published theorem, for one task.
pub fn one_task()
    ensures { OneTask }
{}

/// The published theorem, for the whole list.
#[tactic(auto, using(crate::proofs::Passing::whole_list))]
pub fn whole_list()
    ensures { WholeList }
{}
