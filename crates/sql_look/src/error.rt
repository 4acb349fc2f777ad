//! Why a file was not opened, and what calls answer after errors of SQL.
ghost use Rattle.std.specs.Prelude.{◌≡◌, ◌↔◌};
ghost use Rattle.sql_look.specs.Answers.{answer_after};
ghost use Rattle.sql_look.specs.declared.error.OpenError.TheVariants.{Memory as OpenMemory};
ghost use Rattle.sqlite.specs.declared.error.Error.TheVariants.{SqliteFailure};
ghost use Rattle.sqlite.specs.declared.error.ErrorCode.TheVariants.{OutOfMemory};

use crate::shown_name::Shown;
use batch_keeper::KeepError;
use bt_base::{NoMemory, Text};
use sqlite::{Error, ErrorCode};
use std::fmt;

/// What a file is that is not a store.
#[derive(Debug, Drop)]
pub enum ForeignFile {
    /// It is not a regular file, but a folder, a device or the like.
    NotAFile,
    /// It does not begin as each file of SQLite does.
    NotSqlite,
    /// It begins as a file of SQLite does, and cannot be read whole as one: it is damaged, or made with what this program does not know.
    Unreadable,
    /// It is a file of SQLite with the table, index, view or trigger of this name, which no store has.
    Object(Text),
    /// It is a file of SQLite in which the table of this name, which each store has, has other columns.
    Columns(Text),
}

impl fmt::Display for ForeignFile {
    fn fmt<W: fmt::Write>(&self, f: &mut fmt::Formatter<W>) -> fmt::Result {
        match self {
            ForeignFile::NotAFile => f.write_str("it is not a regular file"),
            ForeignFile::NotSqlite => f.write_str("it is not an SQLite file"),
            ForeignFile::Unreadable => f.write_str(
                "it is an SQLite file that is damaged, or that another program made",
            ),
            ForeignFile::Object(name) => {
                let name = Shown(name.as_str());
                write!(
                    f,
                    "it is another program's SQLite file, with the table, index, view or trigger {name}"
                )
            }
            ForeignFile::Columns(name) => {
                let name = Shown(name.as_str());
                write!(
                    f,
                    "it is another program's SQLite file, whose table {name} has other columns"
                )
            }
        }
    }
}

/// Why a file was not opened as a store.
#[derive(Debug, Drop)]
pub enum OpenError {
    /// There is no file at the path, and none was to be made.
    Missing,
    /// The file has no tables, and none were to be made. It was left as it was.
    Empty,
    /// The file is not a store. It was left as it was, byte for byte, and nothing was made beside it.
    Foreign(ForeignFile),
    /// Another process, or this one, has the file open. It was left as it was.
    InUse,
    /// There is no file at the path, and none can be made: its folder is missing, or may not be written.
    NotMade,
    /// The file is there, and the system does not let it or its log be read and written.
    Unusable,
    /// The disk has no room for the file or its log.
    DiskFull,
    /// The file begins as a store does, and is not whole.
    Damaged,
    /// Memory ran out.
    Memory,
}

impl From<NoMemory> for OpenError {
    fn from(_: NoMemory) -> OpenError {
        OpenError::Memory
    }
}

impl OpenError {
    /// Why SQL did not open, read or change a file that is there.
    pub fn of_sql(error: Error) -> OpenError
        ensures { result ≡ OpenMemory ↔ error ≡ SqliteFailure OutOfMemory }
    {
        match error {
            Error::SqliteFailure(ErrorCode::OutOfMemory) => OpenError::Memory,
            Error::SqliteFailure(ErrorCode::DatabaseBusy) => OpenError::InUse,
            Error::SqliteFailure(ErrorCode::DiskFull) => OpenError::DiskFull,
            Error::SqliteFailure(ErrorCode::NotADatabase | ErrorCode::DatabaseCorrupt) =>
                OpenError::Damaged,
            _ => OpenError::Unusable,
        }
    }
}

impl fmt::Display for OpenError {
    /// One line: the cause, and what a user can do.
    fn fmt<W: fmt::Write>(&self, f: &mut fmt::Formatter<W>) -> fmt::Result {
        match self {
            OpenError::Missing => f.write_str(
                "there is no such file: see the path, or begin a store with serve or replay",
            ),
            OpenError::Empty => f.write_str(
                "the file has no tables: see the path, or begin a store with serve or replay",
            ),
            OpenError::Foreign(foreign) => write!(
                f,
                "the file is not a store, and was left as it was: {foreign}; name another path"
            ),
            OpenError::InUse => f.write_str(
                "another process has the file open: end it, or name another path",
            ),
            OpenError::NotMade => f.write_str(
                "the file cannot be made: see that its folder is there and may be written",
            ),
            OpenError::Unusable => f.write_str(
                "the file or its log, whose name ends in -wal, cannot be read and written: see the permissions and the disk, and that the file has one name and no -journal beside it",
            ),
            OpenError::DiskFull => f.write_str("the disk is full: make room, and start again"),
            OpenError::Damaged => f.write_str(
                "the file is damaged: see the disk, and restore a copy of the file and its log",
            ),
            OpenError::Memory => f.write_str("out of memory: give the program more memory"),
        }
    }
}

/// What a call answers after this error: `Memory` if SQL is out of memory, otherwise `Failed`.
pub fn answer_after(error: Error) -> KeepError
    ensures { result ≡ answer_after error }
{
    match error {
        Error::SqliteFailure(ErrorCode::OutOfMemory) => KeepError::Memory,
        _ => KeepError::Failed,
    }
}
