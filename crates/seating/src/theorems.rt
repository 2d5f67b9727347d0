// Theorems about the lists of seats. The functions do nothing.
ghost use Rattle.seating.specs.Seats.{JoinedAtPlace};
ghost use Rattle.seating.specs.Refusals.{NumbersDiffer};
ghost use Rattle.seating.specs.Admission.{AdmitsOnce, AdmitsSome};
ghost use Rattle.seating.specs.Withdrawal.{WithdrawsOnce, WithdrawsSome};
ghost use Rattle.seating.specs.Judging.{TakesExactly};

/// A newcomer stands behind as many tasks as stand above it.
#[tactic(auto, using(crate::proofs::Placing::joined_at_place))]
pub fn joined_at_place()
    ensures { JoinedAtPlace }
{}

/// No two refusals have the same number.
#[tactic(auto, using(crate::proofs::Once::numbers_differ))]
pub fn numbers_differ()
    ensures { NumbersDiffer }
{}

/// An admission has at most one answer, one sheet and one table afterwards.
#[tactic(auto, using(crate::proofs::Once::admits_once))]
pub fn admits_once()
    ensures { AdmitsOnce }
{}

/// And it has one.
#[tactic(auto, using(crate::proofs::Answering::admits_some))]
pub fn admits_some()
    ensures { AdmitsSome }
{}

/// A withdrawal has at most one answer and one table afterwards.
#[tactic(auto, using(crate::proofs::WithdrawOnce::withdraws_once))]
pub fn withdraws_once()
    ensures { WithdrawsOnce }
{}

/// And it has one.
#[tactic(auto, using(crate::proofs::Answering::withdraws_some))]
pub fn withdraws_some()
    ensures { WithdrawsSome }
{}

/// Asking a lawful judge about the newcomer and the seats below it alone says whether the whole list fits.
#[tactic(auto, using(crate::proofs::Exactly::takes_exactly))]
pub fn takes_exactly()
    ensures { TakesExactly }
{}
