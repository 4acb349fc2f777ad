//! Why a close failed.
use sql_file::{WriteError, WriteFault};
use std::fmt;

/// Why a store was not closed as it should be.
#[derive(Clone, Copy, Debug, PartialEq, Eq)]
pub enum CloseError {
    /// The file or its disk failed when the log was to be copied. Nothing is lost: the log beside the file has what was written.
    Fault(WriteFault),
    /// Memory ran out when the log was to be copied. Nothing is lost either.
    Memory,
    /// So many writes, the last ones, are not in the file, since it could not be written; or nobody can say whether they are, since the store
    /// has shut itself.
    Unwritten(u64),
}

impl From<WriteError> for CloseError {
    fn from(error: WriteError) -> CloseError {
        match error {
            WriteError::Fault(fault) => CloseError::Fault(fault),
            WriteError::Memory => CloseError::Memory,
        }
    }
}

impl fmt::Display for CloseError {
    /// One line: the cause, what a user can do, and what is lost, if anything is.
    fn fmt<W: fmt::Write>(&self, f: &mut fmt::Formatter<W>) -> fmt::Result {
        match self {
            CloseError::Fault(fault) => write!(f, "{fault}")?,
            CloseError::Memory => f.write_str("out of memory: give the program more memory")?,
            CloseError::Unwritten(count) => return write!(
                f,
                "it could not be written for a minute, or is shut; the last {count} saves are not in it, or may not be if it is shut: calls and steps of which nothing was shown yet"
            ),
        }
        f.write_str(
            "; nothing is lost: the log beside the file, whose name ends in -wal, has what was saved, and the next start finds it",
        )
    }
}
