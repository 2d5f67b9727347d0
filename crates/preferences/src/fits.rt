// First fit, best fit and worst fit.
ghost use Rattle.std.specs.Prelude.{◌≡◌};
ghost use Rattle.preferences.specs.Fits.{first_fit, best_fit, worst_fit};
ghost use Rattle.std.proofs.Common.{rules};

use crate::contender::Contender;
use crate::preference::Preference;
use std::cmp::Reverse;

/// The smaller number goes first.
#[derive(Clone, Copy, Debug, PartialEq, Eq)]
pub struct FirstFit;

/// The greater load goes first, and at equal loads the smaller number.
#[derive(Clone, Copy, Debug, PartialEq, Eq)]
pub struct BestFit;

/// The smaller load goes first, and at equal loads the smaller number.
#[derive(Clone, Copy, Debug, PartialEq, Eq)]
pub struct WorstFit;

fn is_first(one: Contender, other: Contender) -> bool
    ensures { result ≡ first_fit one other }
{
    one.number < other.number
}

fn is_best(one: Contender, other: Contender) -> bool
    ensures { result ≡ best_fit one other }
{
    (Reverse(one.load), one.number) < (Reverse(other.load), other.number)
}

fn is_worst(one: Contender, other: Contender) -> bool
    ensures { result ≡ worst_fit one other }
{
    (one.load, one.number) < (other.load, other.number)
}

// Each law is found anew at its impl, so that a relation that breaks it is refused there.
impl Preference for FirstFit {
    ghost before = { λ _. first_fit };

    ghost lawful = { Prim.search rules };

    fn prefers(&mut self, one: Contender, other: Contender) -> bool {
        is_first(one, other)
    }
}

impl Preference for BestFit {
    ghost before = { λ _. best_fit };

    ghost lawful = { Prim.search rules };

    fn prefers(&mut self, one: Contender, other: Contender) -> bool {
        is_best(one, other)
    }
}

impl Preference for WorstFit {
    ghost before = { λ _. worst_fit };

    ghost lawful = { Prim.search rules };

    fn prefers(&mut self, one: Contender, other: Contender) -> bool {
        is_worst(one, other)
    }
}
