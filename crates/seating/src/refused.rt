// The refusals of all calls as one.
ghost use Rattle.std.specs.Prelude.{◌≡◌, Some};
ghost use Rattle.seating.specs.declared.refused.Refused.TheVariants.{Making, Admitting, Withdrawing, Asking};
ghost use Rattle.seating.specs.Refusals.{number_of, refused_text};

use super::refusal::{AdmitRefusal, MakeRefusal, QuestionRefusal, WithdrawRefusal};
use std::fmt;

/// A refusal, with the call that it belongs to.
#[derive(Clone, Copy, Debug, PartialEq, Eq)]
pub enum Refused {
    /// No rack is made.
    Making(MakeRefusal),
    /// A task is not admitted.
    Admitting(AdmitRefusal),
    /// A task is not withdrawn.
    Withdrawing(WithdrawRefusal),
    /// A question is not answered.
    Asking(QuestionRefusal),
}

impl Refused {
    /// The number of the refusal.
    pub fn number(&self) -> u32
        ensures { result ≡ number_of self.now }
    {
        match self {
            Refused::Making(cause) => cause.number(),
            Refused::Admitting(cause) => cause.number(),
            Refused::Withdrawing(cause) => cause.number(),
            Refused::Asking(cause) => cause.number(),
        }
    }
}

/// `R` and the number.
impl fmt::Display for Refused {
    ghost output = { λ refused. Some (refused_text refused) };

    fn fmt<W: fmt::Write>(&self, f: &mut fmt::Formatter<W>) -> fmt::Result {
        let number = self.number();
        write!(f, "R{number}")
    }
}

// A conversion for each enum: a generic one would need a trait of the four, and say no more.
impl From<MakeRefusal> for Refused {
    ghost from_gives = { λ refusal refused. refused ≡ Making refusal };

    fn from(refusal: MakeRefusal) -> Refused {
        Refused::Making(refusal)
    }
}

impl From<AdmitRefusal> for Refused {
    ghost from_gives = { λ refusal refused. refused ≡ Admitting refusal };

    fn from(refusal: AdmitRefusal) -> Refused {
        Refused::Admitting(refusal)
    }
}

impl From<WithdrawRefusal> for Refused {
    ghost from_gives = { λ refusal refused. refused ≡ Withdrawing refusal };

    fn from(refusal: WithdrawRefusal) -> Refused {
        Refused::Withdrawing(refusal)
    }
}

impl From<QuestionRefusal> for Refused {
    ghost from_gives = { λ refusal refused. refused ≡ Asking refusal };

    fn from(refusal: QuestionRefusal) -> Refused {
        Refused::Asking(refusal)
    }
}
