// What a preference sees of a processor.

/// A processor as a preference sees it: its number, and its load before the newcomer, in millionths.
#[derive(Clone, Copy, Debug, PartialEq, Eq)]
pub struct Contender {
    pub number: usize,
    pub load: u64,
}
