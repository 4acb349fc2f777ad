//! A look at a file that changes nothing of it, before it is opened.
use crate::error::{ForeignFile, OpenError};
use crate::schema::{Content, content_of};
use crate::tables::make_tables;
use os::RangeLock;
use sqlite::{Connection, Error, ErrorCode, FileStore, Files, Options};
use sqlite_disk::{Disk, Memory};
use std::alloc::Global;
use std::fs::{File, OpenOptions};
use std::io::Read;
use std::os::fd::AsRawFd;
use std::{fs, io};

/// How each file of SQLite begins (SQLite's file format).
const MAGIC: &[u8] = b"SQLite format 3\0";

/// Where the first byte is that SQL locks to have a file alone, and how many it locks (SQLite's locking protocol).
const LOCK_START: u64 = 1 << 30;

const LOCK_LENGTH: u64 = 512;

/// The size of a page of a file that this program made, in bytes.
const PAGE: usize = 4096;

/// The size of the header of a file of SQLite, after which its first page has the schema.
const HEADER: usize = 100;

/// How many pages of a copy in memory SQL keeps beside it: few, since it is read once.
const COPY_CACHE: usize = 64;

/// What is at a path.
#[derive(Clone, Copy, Debug, PartialEq, Eq)]
pub enum Found {
    /// No file.
    Nothing,
    /// A file without tables, or with some of a store's alone.
    Unfinished,
    /// The file of a store.
    Store,
}

/// Why the system did not let a file be looked at.
fn of_system(error: io::Error) -> OpenError {
    if error.kind() == io::ErrorKind::OutOfMemory {
        OpenError::Memory
    } else {
        OpenError::Unusable
    }
}

/// The size of the regular file at the path in bytes; None if nothing is there. Anything else there is refused.
fn size_at(rt: &HostRuntime, path: &str) -> Result<Option<u64>, OpenError> {
    match fs::metadata(rt, path) {
        Ok(found) if found.is_file() => Ok(Some(found.len())),
        Ok(_) => Err(OpenError::Foreign(ForeignFile::NotAFile)),
        Err(error) if error.kind() == io::ErrorKind::NotFound => Ok(None),
        Err(error) => Err(of_system(error)),
    }
}

/// Locks the file as SQL does, until what is returned is dropped, so that no process changes it meanwhile.
fn locked(rt: &HostRuntime, path: &str) -> Result<File, OpenError> {
    let opened = OpenOptions::new().read(true).write(true).open(rt, path);
    let file = match opened {
        Ok(file) => file,
        Err(error) => return Err(of_system(error)),
    };
    let locked = os::try_lock_range(
        file.as_raw_fd(),
        RangeLock::Exclusive,
        LOCK_START,
        LOCK_LENGTH,
    );
    if locked == 0 {
        return Ok(file);
    }
    let error = io::Error::from_raw_os_error(os::errno());
    if error.kind() == io::ErrorKind::WouldBlock {
        Err(OpenError::InUse)
    } else {
        Err(of_system(error))
    }
}

/// The path of the log of the file at the path. As SQL, it follows links to the file.
fn log_path(rt: &HostRuntime, path: &str) -> Result<String, OpenError> {
    let real = match fs::canonicalize(rt, path) {
        Ok(real) => real,
        Err(error) => return Err(of_system(error)),
    };
    let real = real.as_str();
    format!(in rt.alloc(); "{real}-wal").map_err(|_| OpenError::Memory)
}

/// The first page of the file, or the whole file if it is shorter.
fn first_page(alloc: Global, file: &mut File) -> Result<Vec<u8>, OpenError> {
    let mut page = Vec::new(alloc);
    match file.take(PAGE as u64).read_to_end(&mut page) {
        Ok(_) => Ok(page),
        Err(error) => Err(of_system(error)),
    }
}

/// Why SQL did not open a copy in memory, whose calls fail for memory alone.
fn of_copy(error: Error, database: &[u8]) -> OpenError {
    match error {
        Error::SqliteFailure(ErrorCode::OutOfMemory | ErrorCode::SystemIoFailure) =>
            OpenError::Memory,
        _ if database.starts_with(MAGIC) => OpenError::Foreign(ForeignFile::Unreadable),
        _ => OpenError::Foreign(ForeignFile::NotSqlite),
    }
}

/// A connection to a copy of the files in memory.
fn open_copy(
    alloc: Global,
    database: &[u8],
    log: &[u8],
) -> Result<Connection<FileStore<Memory>>, OpenError> {
    let mut files = Files {
        log: Memory::new(alloc),
        db: Memory::new(alloc),
    };
    if files.db.write_at(0, database).is_err() || files.log.write_at(0, log).is_err() {
        return Err(OpenError::Memory);
    }
    let mut options = Options::new(0);
    options.cache_pages = COPY_CACHE;
    match Connection::open_files(alloc, files, options) {
        Ok(connection) => Ok(connection),
        Err((error, left)) => {
            drop(left);
            Err(of_copy(error, database))
        }
    }
}

/// The bytes of a new store without rows.
fn new_store(alloc: Global) -> Result<Files<Memory>, OpenError> {
    let mut connection = open_copy(alloc, &[], &[])?;
    if let Err(error) = make_tables(&mut connection) {
        drop(connection);
        return Err(OpenError::of_sql(error));
    }
    match connection.close_files() {
        Ok(files) => Ok(files),
        Err((_, store)) => {
            drop(store);
            Err(OpenError::Memory)
        }
    }
}

/// Whether the page, the first one of a file, which has its schema, is that of a store which this program made.
fn is_own_page(alloc: Global, page: &[u8]) -> Result<bool, OpenError> {
    if !page.starts_with(MAGIC) {
        return Ok(false);
    }
    let files = new_store(alloc)?;
    let own = files.db.bytes();
    let is_same = match (own.get(HEADER..PAGE), page.get(HEADER..PAGE)) {
        (Some(own), Some(found)) => own == found,
        _ => false,
    };
    drop(files);
    Ok(is_same)
}

/// What a copy of the files in memory is.
fn look_at_copy(alloc: Global, database: &[u8], log: &[u8]) -> Result<Found, OpenError> {
    let mut connection = open_copy(alloc, database, log)?;
    let content = content_of(&mut connection);
    drop(connection);
    match content? {
        Content::Unfinished => Ok(Found::Unfinished),
        Content::Store => Ok(Found::Store),
        Content::Foreign(foreign) => Err(OpenError::Foreign(foreign)),
    }
}

/// The bytes of a file; none if nothing is at its path.
fn bytes_at(rt: &HostRuntime, path: &str, size: Option<u64>) -> Result<Vec<u8>, OpenError> {
    match size {
        None => Ok(Vec::new(rt.alloc())),
        Some(_) => fs::read(rt, path).map_err(of_system),
    }
}

/// What a file of more than one page of a store, or another file, is: SQL reads a copy in memory.
fn look_in_copy(
    rt: &HostRuntime,
    path: &str,
    log: &str,
    log_size: Option<u64>,
) -> Result<Found, OpenError> {
    let database = fs::read(rt, path).map_err(of_system)?;
    let log = bytes_at(rt, log, log_size)?;
    let found = look_at_copy(rt.alloc(), database.as_slice(), log.as_slice());
    drop(database);
    drop(log);
    found
}

/// What a file of this size is. If its log is at most a page, the log adds nothing to it, and then the first page of a store tells that
/// it is one. A file of one byte is one that an open left half made only beside a log.
fn look_at(rt: &HostRuntime, path: &str, file: &mut File, size: u64) -> Result<Found, OpenError> {
    if size == 0 {
        return Ok(Found::Unfinished);
    }
    let log = log_path(rt, path)?;
    let log_size = size_at(rt, log.as_str())?;
    if size == 1 && log_size.unwrap_or(0) == 0 {
        return Err(OpenError::Foreign(ForeignFile::NotSqlite));
    }
    if log_size.unwrap_or(0) <= PAGE as u64 {
        let page = first_page(rt.alloc(), file)?;
        if is_own_page(rt.alloc(), page.as_slice())? {
            return Ok(Found::Store);
        }
    }
    look_in_copy(rt, path, log.as_str(), log_size)
}

/// What is at the path. It changes no file and makes none. What is not a store is refused.
pub fn look(rt: &HostRuntime, path: &str) -> Result<Found, OpenError> {
    let Some(size) = size_at(rt, path)? else {
        return Ok(Found::Nothing);
    };
    let mut file = locked(rt, path)?;
    let found = look_at(rt, path, &mut file, size);
    drop(file);
    found
}
