//! What lines ask, counted.

/// What lines ask.
#[derive(Clone, Copy, Debug, PartialEq, Eq)]
pub struct Tally {
    /// How many calls they ask.
    pub calls: u64,
    /// Whether one of them is not a valid request.
    pub refused: bool,
}
