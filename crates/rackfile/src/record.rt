// A record of the file.

/// A record, which borrows its label from the input.
#[derive(Clone, Copy, Debug, PartialEq, Eq)]
pub enum Record<'a> {
    /// A task asks for a seat. Its label stands in the input at `place`.
    Admission {
        number: u32,
        work: u32,
        period: u32,
        label: &'a [u8],
        place: usize,
    },
    /// The task of this number leaves.
    Withdrawal {
        number: u32,
    },
}
