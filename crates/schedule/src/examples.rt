// Small cases, so that no theorem is empty.
ghost use Rattle.schedule.specs.Examples.{OneFitsOneDoesNot, EitherOrderIsLawful, EmptyFitsEach};

/// A list that fits, and one that does not.
#[tactic(auto, using(crate::proofs::Cases::one_fits_one_does_not))]
pub fn one_fits_one_does_not()
    ensures { OneFitsOneDoesNot }
{}

/// Two tasks released at one instant, in either order.
#[tactic(auto, using(crate::proofs::Cases::either_order_is_lawful))]
pub fn either_order_is_lawful()
    ensures { EitherOrderIsLawful }
{}

/// A processor with no task fits each task within the limits.
#[tactic(auto, using(crate::proofs::Cases::empty_fits_each))]
pub fn empty_fits_each()
    ensures { EmptyFitsEach }
{}
