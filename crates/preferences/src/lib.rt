// Preferences: which of two processors that would take a newcomer is to have it.
#![tactic(auto)]

mod contender;
mod fits;
mod policy;
mod preference;

pub use contender::Contender;
pub use fits::{BestFit, FirstFit, WorstFit};
pub use policy::{Policy, UnknownLetter, letters_differ};
pub use preference::Preference;
