//! Faults of texts of times.

/// Why a time or duration cannot be read from a text.
#[derive(Clone, Copy, Debug, PartialEq, Eq, Drop)]
pub enum TimeFault {
    /// The text is not a time or duration of the expected form.
    BadText,
    /// The time or duration is out of its range.
    OutOfRange,
}
