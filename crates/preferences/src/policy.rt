// The policies by name, for a rack whose preference is known only while the program runs.
ghost use Rattle.std.specs.Prelude.{◌≡◌, ok_or};
ghost use Rattle.preferences.specs.Policies.{policy_before, letter_of, policy_named, LettersDiffer};
ghost use Rattle.preferences.specs.declared.policy.Policy.TheVariants.{First, Best, Worst};
ghost use Rattle.preferences.specs.FitLaws.{first_laws, best_laws, worst_laws};

use crate::contender::Contender;
use crate::fits::{BestFit, FirstFit, WorstFit};
use crate::preference::Preference;

/// Which of two processors goes first: by its number, by the greater load, or by the smaller load.
#[derive(Clone, Copy, Debug, PartialEq, Eq)]
pub enum Policy {
    First,
    Best,
    Worst,
}

impl Policy {
    /// The policy's letter.
    pub fn letter(&self) -> char
        ensures { result ≡ letter_of self.now }
    {
        match *self {
            Policy::First => 'F',
            Policy::Best => 'B',
            Policy::Worst => 'W',
        }
    }
}

impl From<Policy> for char {
    ghost from_gives = { λ policy letter. letter ≡ letter_of policy };

    fn from(policy: Policy) -> char {
        policy.letter()
    }
}

/// A letter that stands for no policy.
#[derive(Clone, Copy, Debug, PartialEq, Eq)]
pub struct UnknownLetter(pub char);

impl TryFrom<char> for Policy {
    type Error = UnknownLetter;

    ghost try_from_gives = { λ letter r. r ≡ ok_or (policy_named letter) (record { 0 = letter }) };

    fn try_from(letter: char) -> Result<Policy, UnknownLetter> {
        match letter {
            'F' => Ok(Policy::First),
            'B' => Ok(Policy::Best),
            'W' => Ok(Policy::Worst),
            _ => Err(UnknownLetter(letter)),
        }
    }
}

impl Preference for Policy {
    ghost before = { policy_before };

    ghost lawful = { elim [ First ↦ first_laws | Best ↦ best_laws | Worst ↦ worst_laws ] };

    fn prefers(&mut self, one: Contender, other: Contender) -> bool {
        match *self {
            Policy::First => FirstFit.prefers(one, other),
            Policy::Best => BestFit.prefers(one, other),
            Policy::Worst => WorstFit.prefers(one, other),
        }
    }
}

/// No two policies have the same letter.
pub fn letters_differ()
    ensures { LettersDiffer }
{}
