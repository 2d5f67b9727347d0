// Worked cases, settled against the definitions that the contracts cite.
#![tactic(auto)]

ghost use Rattle.std.specs.Prelude.{All};
ghost use Rattle.cases.specs.Cases.{Settled, cases};

/// Each worked case gives what it must.
#[tactic(auto, using(crate::proofs::Worked::all_settled))]
pub fn worked_cases_hold()
    ensures { All Settled cases }
{}
