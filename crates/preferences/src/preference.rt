// What a preference is.
ghost use Rattle.std.specs.Prelude.{◌≡◌};
ghost use Rattle.preferences.specs.Laws.{Relation, PreferenceLaws};

use crate::contender::Contender;

/// A preference is asked about two processors and says whether the first goes before the second.
/// Being asked may change its own state, but not the relation that it means.
pub trait Preference {
    ghost before: { Self → Relation };

    fn prefers(&mut self, one: Contender, other: Contender) -> bool
        ensures answer { result ≡ before self.old one other }
        ensures same { before self.new ≡ before self.old };

    ghost lawful: { (s : Self) → PreferenceLaws (before s) };
}
