//! How the command ends.

use crate::position::Position;

/// How the command `formula` ends.
#[derive(Clone, Copy, Debug, PartialEq, Eq)]
pub enum End {
    /// The results were written.
    Done,
    /// The formula's fault was written. It stands at this position of the source.
    Fault(Position),
    /// The source has more than `LIMIT` bytes; nothing was written.
    TooLong,
    /// The source failed; nothing was written.
    SourceFault,
    /// The sink failed; a prefix of the output may have been written.
    SinkFault,
    /// Out of memory; a prefix of the output may have been written.
    Memory,
}
