// What the player's text has been proved to be.
ghost use Rattle.playing.specs.Lines.{FrontDecides, OneText, RefusalsShown};

/// Each input has exactly one text.
#[tactic(auto, using(crate::proofs::OnlyText::one_text))]
pub fn one_text()
    ensures { OneText }
{}

/// The first 65,537 bytes of an input decide its text.
#[tactic(auto, using(crate::proofs::Fronts::front_decides))]
pub fn front_decides()
    ensures { FrontDecides }
{}

/// A line shows the refusals 3 to 9 and no others.
#[tactic(auto, using(crate::proofs::Showing::refusals_shown))]
pub fn refusals_shown()
    ensures { RefusalsShown }
{}
