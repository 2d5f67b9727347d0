// A refused making.
ghost use Rattle.std.specs.Prelude.{◌≡◌};

use seating::MakeRefusal;

/// What a refused making hands over: no processors, but the judge and the preference back.
#[derive(Debug, PartialEq, Eq, Drop)]
pub struct Blank<J, P> {
    pub(crate) refusal: MakeRefusal,
    pub(crate) judge: J,
    pub(crate) preference: P,
}

impl<J, P> Blank<J, P> {
    /// Why there is no rack.
    pub fn refusal(&self) -> MakeRefusal
        ensures { result ≡ self.now.refusal }
    {
        self.refusal
    }

    /// The judge and the preference back.
    pub fn into_parts(self) -> (J, P)
        ensures { result ≡ (self.judge, self.preference) }
    {
        (self.judge, self.preference)
    }
}
