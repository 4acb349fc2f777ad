//! The open file.
use crate::fault::WriteError;
use crate::reading::{ReadError, next_place, read_all, read_metas};
use crate::statements::{Statements, prepare_all};
use crate::writing::write_all;
use keeper_store::{Edit, Stored};
use sql_look::{Content, Found, OpenError, content_of, look, make_tables};
use sqlite::{Alter, Connection, Error, ErrorCode, File, FileStore};
use std::alloc::Global;

/// Whether an open may make a file or its tables.
#[derive(Clone, Copy, Debug, PartialEq, Eq)]
pub enum OpenMode {
    /// A file is made if none is at the path, and tables if the file has none.
    MakeIfMissing,
    /// The file has to be there, with its tables.
    MustExist,
}

/// A file that is open as a store.
pub struct SqlFile {
    connection: Connection<FileStore<File>>,
    statements: Statements,
    /// The place of the next new row.
    place: u64,
    is_new: bool,
}

impl Drop for SqlFile {
    fn drop(self) {
        let SqlFile {
            connection: _connection,
            statements: _statements,
            place: _,
            is_new: _,
        } = self;
    }
}

/// What is at the path, if the mode allows to open it.
fn allowed(rt: &HostRuntime, path: &str, mode: OpenMode) -> Result<Found, OpenError> {
    match (look(rt, path)?, mode) {
        (Found::Nothing, OpenMode::MustExist) => Err(OpenError::Missing),
        (Found::Unfinished, OpenMode::MustExist) => Err(OpenError::Empty),
        (found, _) => Ok(found),
    }
}

/// Why the file was not opened, if this was found at its path.
fn open_fault(error: Error, found: Found) -> OpenError {
    match (error, found) {
        (Error::SqliteFailure(ErrorCode::CannotOpen), Found::Nothing) => OpenError::NotMade,
        (error, _) => OpenError::of_sql(error),
    }
}

fn connect(
    rt: &HostRuntime,
    path: &str,
    found: Found,
) -> Result<Connection<FileStore<File>>, OpenError> {
    match Connection::open(rt, path) {
        Ok(connection) => Ok(connection),
        Err(error) => Err(open_fault(error, found)),
    }
}

/// Makes the tables, if the file was found without them. A file that another program has changed since it was looked at is refused.
fn complete<S: Alter>(connection: &mut Connection<S>, found: Found) -> Result<(), OpenError> {
    match content_of(connection)? {
        Content::Store => Ok(()),
        Content::Foreign(foreign) => Err(OpenError::Foreign(foreign)),
        Content::Unfinished if found == Found::Store => Err(OpenError::Empty),
        Content::Unfinished => make_tables(connection).map_err(OpenError::of_sql),
    }
}

/// Prepares the statements, and finds the next place.
fn prepare<S: Alter>(connection: &mut Connection<S>) -> Result<(Statements, u64), Error> {
    let statements = prepare_all(connection)?;
    match next_place(connection, &statements.reads.last_place) {
        Ok(place) => Ok((statements, place)),
        Err(error) => {
            drop(statements);
            Err(error)
        }
    }
}

/// A connection with tables, its statements, and the next place.
fn begin<S: Alter>(
    connection: &mut Connection<S>,
    found: Found,
) -> Result<(Statements, u64), OpenError> {
    complete(connection, found)?;
    prepare(connection).map_err(OpenError::of_sql)
}

/// Whether the connection answers nothing any more, since its disk did not confirm a write. It reads no row.
fn answers_nothing<S: Alter>(connection: &mut Connection<S>) -> bool {
    match connection.prepare("SELECT 1") {
        Ok(statement) => {
            drop(statement);
            false
        }
        Err(error) => error == Error::SqliteFailure(ErrorCode::Closed),
    }
}

impl SqlFile {
    /// Opens the file. It looks at it first, and changes nothing of one that is not a store. If the mode is `MakeIfMissing`, a file is made if
    /// there is none, and its tables if it has none.
    ///
    /// `Missing` and `Empty` come only if the mode is `MustExist`: there is no file, or it has no tables. `Foreign` comes if the file is not
    /// a store, or has more than a store has; it is then as it was, byte for byte, and nothing was made beside it. `InUse` comes if a
    /// process has it open, `NotMade` if it cannot be made, `Unusable` if it cannot be read and written, `DiskFull` if there is no room,
    /// and `Damaged` if it is not whole. What the tables contain is not tested here but by `read`.
    pub fn open(rt: &HostRuntime, path: &str, mode: OpenMode) -> Result<SqlFile, OpenError> {
        let found = allowed(rt, path, mode)?;
        let mut connection = connect(rt, path, found)?;
        match begin(&mut connection, found) {
            Ok((statements, place)) => Ok(SqlFile {
                connection,
                statements,
                place,
                is_new: found != Found::Store,
            }),
            Err(error) => {
                drop(connection);
                Err(error)
            }
        }
    }

    /// Whether the open made the file, or its tables.
    pub fn is_new(&self) -> bool {
        self.is_new
    }

    /// How many new rows the file has places for.
    pub fn places(&self) -> u64 {
        (i64::MAX as u64).saturating_sub(self.place)
    }

    /// Makes the edits in one transaction, in order. After a fault the file has none of them, but if it is shut, when it has all or none.
    pub fn write(&mut self, edits: &[Edit]) -> Result<(), WriteError> {
        self.place = write_all(
            &mut self.connection,
            &self.statements.writes,
            self.place,
            edits,
        )?;
        Ok(())
    }

    /// Whether the file has shut itself: its disk did not confirm a write, and it answers nothing any more.
    pub fn is_shut(&mut self) -> bool {
        answers_nothing(&mut self.connection)
    }

    /// Reads all that the file contains.
    pub fn read(&mut self, alloc: Global) -> Result<Stored, ReadError> {
        read_all(alloc, &mut self.connection, &self.statements.reads)
    }

    /// The last moment of the tables that the file has, in milliseconds since 1970; None if it has none, or cannot be read.
    pub fn last_moment(&mut self) -> Option<u64> {
        match read_metas(&mut self.connection, &self.statements.reads.metas) {
            Ok(metas) => metas.moment,
            Err(_) => None,
        }
    }

    /// Copies the log into the file and closes both. The file alone then has all that was written; the log stays beside it, with no rows.
    /// After an error the log has what was written, and the next open finds it. So it is if the file is dropped.
    pub fn close(self) -> Result<(), WriteError> {
        let SqlFile {
            connection,
            statements: _,
            place: _,
            is_new: _,
        } = self;
        match connection.close() {
            Ok(()) => Ok(()),
            Err(error) => Err(error.into()),
        }
    }
}
