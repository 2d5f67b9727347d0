// Priority order is optimal among the fixed orders.
ghost use Rattle.schedule.specs.Orders.{PermutationsCountTheSame, FitsOrNot, PriorityOrderIsBest, PriorityOrderIsOptimal, FitsExactlyWhenSafe, UnfitExactlyWhenCanMiss, UnfitExactlyWhenNoOrder, JoinedKeepsOrder};

/// Permutations are the lists with the same tasks, each as often.
pub fn permutations_count_the_same()
    ensures { PermutationsCountTheSame }
{}

/// A list fits, or some place has no good instant.
pub fn fits_or_not()
    ensures { FitsOrNot }
{}

/// If priority order does not fit, no order does.
pub fn priority_order_is_best()
    ensures { PriorityOrderIsBest }
{}

/// If some order never misses, priority order never misses.
pub fn priority_order_is_optimal()
    ensures { PriorityOrderIsOptimal }
{}

/// A list fits exactly when it never misses.
#[tactic(auto, using(crate::proofs::Exactly::fits_exactly_when_safe))]
pub fn fits_exactly_when_safe()
    ensures { FitsExactlyWhenSafe }
{}

/// A list does not fit exactly when it can miss.
pub fn unfit_exactly_when_can_miss()
    ensures { UnfitExactlyWhenCanMiss }
{}

/// Priority order does not fit exactly when every order can miss.
#[tactic(auto, using(crate::proofs::Exactly::unfit_exactly_when_no_order))]
pub fn unfit_exactly_when_no_order()
    ensures { UnfitExactlyWhenNoOrder }
{}

/// A newcomer in its place keeps priority order.
pub fn joined_keeps_order()
    ensures { JoinedKeepsOrder }
{}
