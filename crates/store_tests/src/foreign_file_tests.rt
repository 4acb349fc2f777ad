//! Files that are not stores: each is refused by its name, and left byte for byte.
use crate::sql_files::{Counting, open, remove};
use sql_store::{ForeignFile, OpenError, OpenMode, SqlStore};
use sqlite::Connection;
use std::fs;
use std::test::Fail;

/// The tables of a store, as SQL makes them.
const OWN: &str =
    "CREATE TABLE batch_row(kind INTEGER NOT NULL, key TEXT NOT NULL, place INTEGER NOT NULL, body TEXT NOT NULL, PRIMARY KEY(kind, key)); CREATE TABLE batch_meta(name TEXT PRIMARY KEY, value INTEGER NOT NULL);";

/// The path of what stands beside the file with this ending.
fn beside(rt: &HostRuntime, path: &str, ending: &str) -> Result<String, Fail> {
    Ok(format!(in rt.alloc(); "{path}{ending}")?)
}

/// Makes a file of SQLite by these statements, without a log beside it. If it is to be as of a program without logs, its header says so.
fn make(rt: &HostRuntime, path: &str, sql: &str, has_log: bool) -> Result<(), Fail> {
    let log = beside(rt, path, "-wal")?;
    remove(rt, path, log.as_str());
    let mut connection = Connection::open(rt, path)?;
    let executed = connection.execute_batch(sql);
    connection.close()?;
    executed?;
    fs::remove_file(rt, log.as_str())?;
    if !has_log {
        let mut bytes = fs::read(rt, path)?;
        // the versions of the format that a writer and a reader need: 1 without logs
        for version in bytes.iter_mut().skip(18).take(2) {
            *version = 1;
        }
        fs::write(rt, path, bytes.as_slice())?;
    }
    Ok(())
}

/// Why the file is refused. It and its folder are as before.
fn refusal_of(rt: &HostRuntime, path: &str, mode: OpenMode) -> Result<OpenError, Fail> {
    let before = fs::read(rt, path)?;
    let monitor = Counting::new(rt.alloc())?;
    let error = match SqlStore::open(rt, *rt, path, mode, monitor) {
        Ok(store) => {
            drop(store);
            return Err("opened".into());
        }
        Err(error) => error,
    };
    let after = fs::read(rt, path)?;
    if before.as_slice() != after.as_slice() {
        return Err("changed".into());
    }
    for ending in ["-wal", "-shm", "-journal"] {
        let other = beside(rt, path, ending)?;
        if fs::exists(rt, other.as_str())? {
            return Err("made a file".into());
        }
    }
    Ok(error)
}

/// The line of the refusal of the file, in both modes.
fn line_of(rt: &HostRuntime, path: &str) -> Result<String, Fail> {
    let first = refusal_of(rt, path, OpenMode::MakeIfMissing)?;
    let second = refusal_of(rt, path, OpenMode::MustExist)?;
    let first = format!(in rt.alloc(); "{first}")?;
    let second = format!(in rt.alloc(); "{second}")?;
    let _ = fs::remove_file(rt, path);
    if first.as_str() == second.as_str() {
        Ok(first)
    } else {
        Err("modes".into())
    }
}

#[test]
fn files_of_other_programs_are_left(rt: HostRuntime) -> Result<(), Fail> {
    let note =
        "CREATE TABLE note(id INTEGER PRIMARY KEY, title TEXT); INSERT INTO note VALUES (1, 'a')";
    for has_log in [true, false] {
        make(&rt, "note.db", note, has_log)?;
        let line = line_of(&rt, "note.db")?;
        assert!(rt;
            line.as_str()
                .contains("the table, index, view or trigger note;")
        );
        assert!(rt; !line.as_str().contains("\n"));
    }
    Ok(())
}

/// Whether the line of the refusal of a file that a store's tables and this statement make has the words.
fn says_of_more(rt: &HostRuntime, path: &str, sql: &str, words: &str) -> Result<bool, Fail> {
    let all = format!(in rt.alloc(); "{OWN} {sql}")?;
    make(rt, path, all.as_str(), true)?;
    let line = line_of(rt, path)?;
    Ok(line.as_str().contains(words))
}

#[test]
fn files_with_more_than_a_store_are_left(rt: HostRuntime) -> Result<(), Fail> {
    let index = "CREATE INDEX by_place ON batch_row(place)";
    assert!(rt;
        says_of_more(
            &rt,
            "more.db",
            "CREATE TABLE further(x)",
            "trigger further;"
        )?
    );
    assert!(rt; says_of_more(&rt, "more.db", index, "trigger by_place;")?);
    Ok(())
}

#[test]
fn files_with_other_columns_are_left(rt: HostRuntime) -> Result<(), Fail> {
    let view = "CREATE VIEW seen AS SELECT key FROM batch_row";
    assert!(rt; says_of_more(&rt, "columns.db", view, "trigger seen;")?);
    let table = "CREATE TABLE batch_row(kind, key, place, body)";
    make(&rt, "columns.db", table, true)?;
    let line = line_of(&rt, "columns.db")?;
    assert!(rt;
        line.as_str()
            .contains("whose table batch_row has other columns;")
    );
    Ok(())
}

/// Whether a file with these bytes is refused as one that is not of SQLite.
fn is_not_sqlite(rt: &HostRuntime, bytes: &[u8]) -> Result<bool, Fail> {
    fs::write(rt, "letter.db", bytes)?;
    let error = refusal_of(rt, "letter.db", OpenMode::MakeIfMissing)?;
    Ok(matches!(error, OpenError::Foreign(ForeignFile::NotSqlite)))
}

#[test]
fn files_without_sqlite_are_left(rt: HostRuntime) -> Result<(), Fail> {
    assert!(rt; is_not_sqlite(&rt, b"a letter to the editor\n")?);
    assert!(rt; is_not_sqlite(&rt, b"S")?);
    assert!(rt; is_not_sqlite(&rt, b"SQLite format 4\0 and more")?);
    let cut = b"SQLite format 3\0 and nothing more";
    fs::write(&rt, "letter.db", cut.as_slice())?;
    let error = refusal_of(&rt, "letter.db", OpenMode::MustExist)?;
    assert!(rt; matches!(error, OpenError::Foreign(ForeignFile::Unreadable)));
    fs::write(&rt, "letter.db", b"".as_slice())?;
    let error = refusal_of(&rt, "letter.db", OpenMode::MustExist)?;
    assert!(rt; matches!(error, OpenError::Empty));
    fs::remove_file(&rt, "letter.db")?;
    Ok(())
}

#[test]
fn a_path_without_a_file_is_told(rt: HostRuntime) -> Result<(), Fail> {
    remove(&rt, "absent.db", "absent.db-wal");
    let monitor = Counting::new(rt.alloc())?;
    let missing = SqlStore::open(&rt, rt, "absent.db", OpenMode::MustExist, monitor);
    assert!(rt; matches!(missing, Err(OpenError::Missing)));
    drop(missing);
    assert!(rt; !fs::exists(&rt, "absent.db")?);
    let folder = open(&rt, &rt, ".");
    assert!(rt; matches!(folder, Err(OpenError::Foreign(ForeignFile::NotAFile))));
    drop(folder);
    let nowhere = open(&rt, &rt, "no_such_folder/store.db");
    assert!(rt; matches!(nowhere, Err(OpenError::NotMade)));
    Ok(())
}
