// A preference of one's own.
ghost use Rattle.std.specs.Prelude.{◌≡◌};
ghost use Rattle.std.proofs.Common.{rules};
ghost use Rattle.example.specs.LastFit.{last_fit};

use preferences::{Contender, Preference};

/// The greater number goes first.
#[derive(Clone, Copy)]
pub(crate) struct LastFit;

impl Preference for LastFit {
    ghost before = { λ _. last_fit };

    ghost lawful = { Prim.search rules };

    fn prefers(&mut self, one: Contender, other: Contender) -> bool {
        one.number > other.number
    }
}
