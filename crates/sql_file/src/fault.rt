//! Why a write or a close of the file failed.
use batch_keeper::KeepError;
use bt_base::NoMemory;
use sql_look::answer_after;
use sqlite::{Error, ErrorCode};
use std::fmt;

/// Why a write failed. None of its edits is in the file then, but after `Shut`, when the file has all of them or none.
#[derive(Clone, Copy, Debug, PartialEq, Eq)]
pub enum WriteFault {
    /// The disk has no room for the log or the file.
    DiskFull,
    /// The system did not write the log or the file.
    CannotWrite,
    /// Another process has the file.
    Busy,
    /// The disk did not confirm a write: the file does nothing more, and answers each call with a fault until it is opened again. What was
    /// written before is in it.
    Shut,
    /// A row or a number is greater than a file can have.
    TooLarge,
    /// What was read back is not what was written.
    Damaged,
    /// SQL refused a statement for another reason.
    Refused,
}

impl WriteFault {
    /// The fault that an error of SQL is.
    pub(crate) fn of_sql(error: Error) -> WriteFault {
        let code = match error {
            Error::SqliteFailure(code) => code,
            Error::IntegralValueOutOfRange(_) => return WriteFault::TooLarge,
            _ => return WriteFault::Refused,
        };
        match code {
            ErrorCode::DiskFull => WriteFault::DiskFull,
            ErrorCode::SystemIoFailure | ErrorCode::CannotOpen => WriteFault::CannotWrite,
            ErrorCode::DatabaseBusy => WriteFault::Busy,
            ErrorCode::Closed => WriteFault::Shut,
            ErrorCode::TooBig => WriteFault::TooLarge,
            ErrorCode::NotADatabase | ErrorCode::DatabaseCorrupt => WriteFault::Damaged,
            _ => WriteFault::Refused,
        }
    }
}

impl fmt::Display for WriteFault {
    /// One line: the cause, and what a user can do.
    fn fmt<W: fmt::Write>(&self, f: &mut fmt::Formatter<W>) -> fmt::Result {
        f.write_str(match self {
            WriteFault::DiskFull => "the disk is full: make room",
            WriteFault::CannotWrite =>
                "the file or its log cannot be written: see the disk and the permissions",
            WriteFault::Busy => "another process has the file: end it",
            WriteFault::Shut =>
                "the disk did not confirm a write, so that nothing more is written: see the disk, and start again; what was answered before is in the file",
            WriteFault::TooLarge => "a row or a number is too large for the file: take it back",
            WriteFault::Damaged =>
                "the file is not as it was written: see the disk, and restore a copy of the file and its log",
            WriteFault::Refused =>
                "SQL refused a statement: see that no other program changed the tables of the file",
        })
    }
}

/// Why a write was not done.
#[derive(Clone, Copy, Debug, PartialEq, Eq)]
pub enum WriteError {
    /// The file or its disk failed.
    Fault(WriteFault),
    /// Memory ran out.
    Memory,
}

impl WriteError {
    /// What the write answers.
    pub fn answer(&self) -> KeepError {
        match self {
            WriteError::Fault(_) => KeepError::Failed,
            WriteError::Memory => KeepError::Memory,
        }
    }
}

impl From<NoMemory> for WriteError {
    fn from(_: NoMemory) -> WriteError {
        WriteError::Memory
    }
}

impl From<Error> for WriteError {
    fn from(error: Error) -> WriteError {
        match answer_after(error) {
            KeepError::Failed => WriteError::Fault(WriteFault::of_sql(error)),
            KeepError::Memory => WriteError::Memory,
        }
    }
}
