// The book of a rack, written from the calls and the answers alone, and what is claimed by it.
#![tactic(auto)]

ghost use Rattle.book.specs.Answers.{OneRightAnswer};

/// For each book whose tasks keep the limits, whose seats keep good instants and in which no number is seated twice, as each book at a moment of a rack, each call and each sheet have exactly one answer, and one sheet afterwards, that are right.
#[tactic(auto, using(crate::proofs::Single::one_right_answer))]
pub fn one_right_answer()
    ensures { OneRightAnswer }
{}
