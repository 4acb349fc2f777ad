//! Why a text is not a row.

/// Why a text is not a row.
#[derive(Clone, Copy, Debug, PartialEq, Eq)]
pub enum RowFault {
    /// The text is not JSON (RFC 8259), or the JSON is not an array of the row's fields with values in their ranges.
    NotARow,
}
