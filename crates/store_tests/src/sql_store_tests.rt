//! A store in a file that is opened again, and files that contain other tables.
use crate::sql_files::{Counting, open, put, remove, text};
use bt_base::NoMemory;
use keeper_store::{Edit, Entry, MetaName, Store, Stored};
use row_texts::RowKind;
use sql_store::{OpenError, OpenMode, SqlStore};
use sqlite::Connection;
use std::alloc::Global;
use std::fs::remove_file;
use std::process::Abort;
use std::sync::Wait;
use std::test::Fail;
use std::time::Clock;

/// Three jobs, of which the first is put again and the second dropped, a pool, and two numbers.
fn push_first(alloc: Global, edits: &mut Vec<Edit>) -> Result<(), NoMemory> {
    edits.push(put(alloc, RowKind::Job, "night", "one")?)?;
    edits.push(put(alloc, RowKind::Job, "day", "two")?)?;
    edits.push(put(alloc, RowKind::Pool, "pool", "[\"it's\"]")?)?;
    edits.push(put(alloc, RowKind::Job, "alone", "three")?)?;
    edits.push(put(alloc, RowKind::Job, "night", "four")?)?;
    edits.push(Edit::Drop(RowKind::Job, text(alloc, "day")?))?;
    edits.push(Edit::Meta(MetaName::NextRun, 7))?;
    edits.push(Edit::Meta(MetaName::Moment, 1_700_000_000_000))?;
    Ok(())
}

/// A job whose key was dropped, a number that was set, and one that was not.
fn push_second(alloc: Global, edits: &mut Vec<Edit>) -> Result<(), NoMemory> {
    edits.push(put(alloc, RowKind::Job, "day", "five")?)?;
    edits.push(Edit::Meta(MetaName::NextRun, 8))?;
    edits.push(Edit::Meta(MetaName::NextNode, 3))?;
    Ok(())
}

/// Two jobs, and a number that no file can have.
fn push_faulty(alloc: Global, edits: &mut Vec<Edit>) -> Result<(), NoMemory> {
    edits.push(put(alloc, RowKind::Job, "night", "six")?)?;
    edits.push(put(alloc, RowKind::Job, "noon", "seven")?)?;
    edits.push(Edit::Meta(MetaName::NextRun, u64::MAX))?;
    Ok(())
}

/// Which edits are written.
#[derive(Clone, Copy)]
enum Written {
    First,
    Second,
    Faulty,
}

/// Writes these edits.
fn write<R: Wait + Clock + Drop>(
    store: &mut SqlStore<R, Counting>,
    alloc: Global,
    which: Written,
) -> Result<(), &'static str> {
    let mut edits = Vec::new(alloc);
    let pushed = match which {
        Written::First => push_first(alloc, &mut edits),
        Written::Second => push_second(alloc, &mut edits),
        Written::Faulty => push_faulty(alloc, &mut edits),
    };
    let written = store.write(alloc, edits.as_slice());
    drop(edits);
    if pushed.is_ok() & written.is_ok() {
        Ok(())
    } else {
        Err("written")
    }
}

/// What the store contains once the second edits are written.
fn write_and_read<R: Wait + Clock + Drop>(
    store: &mut SqlStore<R, Counting>,
    alloc: Global,
) -> Result<Stored, &'static str> {
    write(store, alloc, Written::Second)?;
    store.read(alloc).map_err(|_| "read")
}

fn assert_entry(rt: &impl Abort, entry: &Entry, key: &str, row: &str) {
    assert_eq!(rt; entry.key.as_str(), key);
    assert_eq!(rt; entry.text.as_str(), row);
}

/// Writes the first edits; whether the open has made the file.
fn write_first<R: Wait + Clock + Copy + Drop>(
    host: &HostRuntime,
    rt: &R,
    path: &str,
) -> Result<bool, Fail> {
    let alloc = host.alloc();
    let mut store = open(host, rt, path).map_err(|_| "made")?;
    let is_new = store.is_new();
    let written = write(&mut store, alloc, Written::First);
    store.close().map_err(|_| "closed")?;
    written?;
    Ok(is_new)
}

#[test]
fn a_file_keeps_its_content(rt: HostRuntime) -> Result<(), Fail> {
    let alloc = rt.alloc();
    remove(&rt, "kept.db", "kept.db-wal");
    assert!(rt; write_first(&rt, &rt, "kept.db")?);
    // the file alone has all that was written
    let _ = remove_file(&rt, "kept.db-wal");
    let mut store = open(&rt, &rt, "kept.db").map_err(|_| "opened")?;
    let is_new = store.is_new();
    let read = write_and_read(&mut store, alloc);
    let is_closed = store.close().is_ok();
    remove(&rt, "kept.db", "kept.db-wal");
    let stored = read?;
    assert!(rt; is_closed & !is_new);
    let jobs = stored.jobs.as_slice();
    assert_eq!(rt; jobs.len(), 3);
    assert_entry(&rt, &jobs[0], "night", "four");
    assert_entry(&rt, &jobs[1], "alone", "three");
    assert_entry(&rt, &jobs[2], "day", "five");
    let pools = stored.pools.as_slice();
    assert_eq!(rt; pools.len(), 1);
    assert_entry(&rt, &pools[0], "pool", "[\"it's\"]");
    assert_eq!(rt; stored.tasks.as_slice().len(), 0);
    let metas = stored.metas;
    drop(stored);
    assert_eq!(rt; metas.next_node, Some(3));
    assert_eq!(rt; metas.next_run, Some(8));
    assert_eq!(rt; metas.moment, Some(1_700_000_000_000));
    assert_eq!(rt; metas.version, None);
    Ok(())
}

/// The keys of the jobs that the store has, each after a space.
fn job_keys<R: Wait + Clock + Drop>(
    store: &mut SqlStore<R, Counting>,
    alloc: Global,
) -> Result<String, &'static str> {
    let stored = store.read(alloc).map_err(|_| "read")?;
    let mut keys = String::new(alloc);
    let mut is_whole = true;
    for entry in stored.jobs.as_slice() {
        let key = entry.key.as_str();
        let is_written = write!(keys, " {key}").is_ok();
        is_whole = is_whole & is_written;
    }
    drop(stored);
    if is_whole { Ok(keys) } else { Err("keys") }
}

/// Makes the edits of SQL in the file, and closes it.
fn execute(rt: &HostRuntime, path: &str, sql: &str) -> Result<(), Fail> {
    let mut connection = Connection::open(rt, path)?;
    let executed = connection.execute_batch(sql);
    connection.close()?;
    executed?;
    Ok(())
}

/// The keys of the jobs of a store in which a program set the number `place` back, before the second edits.
fn keys_after_place<R: Wait + Clock + Copy + Drop>(
    host: &HostRuntime,
    rt: &R,
) -> Result<String, Fail> {
    let alloc = host.alloc();
    write_first(host, rt, "place.db")?;
    execute(
        host,
        "place.db",
        "UPDATE batch_meta SET value = 0 WHERE name = 'place'",
    )?;
    let mut store = open(host, rt, "place.db").map_err(|_| "opened")?;
    let written = write(&mut store, alloc, Written::Second);
    let keys = job_keys(&mut store, alloc);
    drop(store);
    written?;
    Ok(keys?)
}

#[test]
fn a_new_row_goes_to_the_end(rt: HostRuntime) -> Result<(), Fail> {
    remove(&rt, "place.db", "place.db-wal");
    let keys = keys_after_place(&rt, &rt);
    remove(&rt, "place.db", "place.db-wal");
    assert_eq!(rt; keys?.as_str(), " night alone day");
    Ok(())
}

/// Whether the file's content is read after this statement, and no fault is kept then.
fn is_read_after<R: Wait + Clock + Copy + Drop>(
    host: &HostRuntime,
    rt: &R,
    sql: &str,
) -> Result<bool, Fail> {
    remove(host, "other.db", "other.db-wal");
    let made = open(host, rt, "other.db").map_err(|_| "made")?;
    made.close().map_err(|_| "closed")?;
    execute(host, "other.db", sql)?;
    let mut store = open(host, rt, "other.db").map_err(|_| "opened")?;
    let is_read = match store.read(host.alloc()) {
        Ok(stored) => {
            drop(stored);
            true
        }
        Err(_) => false,
    };
    let has_fault = store.read_fault().is_some();
    drop(store);
    remove(host, "other.db", "other.db-wal");
    if has_fault == is_read {
        return Err("fault".into());
    }
    Ok(is_read)
}

#[test]
fn other_content_is_a_fault(rt: HostRuntime) -> Result<(), Fail> {
    let statements = [
        ("INSERT INTO batch_meta VALUES ('version', 1)", true),
        ("INSERT INTO batch_meta VALUES ('place', 3)", true),
        ("INSERT INTO batch_row VALUES (8, 'a', 9, '')", true),
        ("INSERT INTO batch_row VALUES (9, 'a', 9, '')", false),
        ("INSERT INTO batch_row VALUES (0, 'a', 9, '')", false),
        ("INSERT INTO batch_meta VALUES ('next_job', 1)", false),
        ("INSERT INTO batch_meta VALUES ('next_node', -1)", false),
        ("INSERT INTO batch_meta VALUES ('next_node', 'one')", false),
        ("INSERT INTO batch_meta VALUES (NULL, 1)", false),
    ];
    for (sql, is_read) in statements {
        assert_eq!(rt; is_read_after(&rt, &rt, sql)?, is_read, "after {sql}");
    }
    Ok(())
}

/// What a monitor is told of three writes that fail and one that succeeds, and the keys of the jobs then.
fn told_of_faults<R: Wait + Clock + Copy + Drop>(
    host: &HostRuntime,
    rt: &R,
) -> Result<((u64, u64, u64), String), Fail> {
    let alloc = host.alloc();
    let counting = Counting::new(alloc)?;
    let mut store = SqlStore::open(
        host,
        *rt,
        "faults.db",
        OpenMode::MakeIfMissing,
        counting.share()?,
    )
    .map_err(|_| "made")?;
    let first = write(&mut store, alloc, Written::First);
    let is_sound = !store.health().is_failing();
    let mut is_refused = true;
    for _try in 0..3usize {
        is_refused = is_refused & write(&mut store, alloc, Written::Faulty).is_err();
    }
    let is_failing = store.health().is_failing() & !store.health().is_shut();
    let keys = job_keys(&mut store, alloc);
    let second = write(&mut store, alloc, Written::Second);
    let is_sound_again = !store.health().is_failing();
    drop(store);
    first?;
    second?;
    if is_sound & is_refused & is_failing & is_sound_again {
        Ok((counting.told(), keys?))
    } else {
        Err("health".into())
    }
}

#[test]
fn a_write_with_an_edit_that_no_file_can_have_leaves_nothing(rt: HostRuntime) -> Result<(), Fail> {
    remove(&rt, "faults.db", "faults.db-wal");
    let told = told_of_faults(&rt, &rt);
    remove(&rt, "faults.db", "faults.db-wal");
    let (told, keys) = told?;
    assert_eq!(rt; keys.as_str(), " night alone");
    assert_eq!(rt; told.0, 1);
    assert_eq!(rt; told.1, 0);
    assert_eq!(rt; told.2, 1);
    Ok(())
}

/// Whether the store at the path is refused as one that is in use.
fn is_in_use(rt: &HostRuntime, path: &str) -> bool {
    match open(rt, rt, path) {
        Ok(store) => {
            drop(store);
            false
        }
        Err(error) => matches!(error, OpenError::InUse),
    }
}

/// Whether a second open is refused, and the keys of the jobs once the first store was dropped without a close.
fn after_a_drop<R: Wait + Clock + Copy + Drop>(
    host: &HostRuntime,
    rt: &R,
) -> Result<(bool, String), Fail> {
    let alloc = host.alloc();
    let mut store = open(host, rt, "dropped.db").map_err(|_| "made")?;
    let written = write(&mut store, alloc, Written::First);
    let is_refused = is_in_use(host, "dropped.db");
    let written_again = write(&mut store, alloc, Written::Second);
    let is_waited = store.sync().wait(rt, None).is_ok();
    drop(store);
    let mut again = open(host, rt, "dropped.db").map_err(|_| "opened")?;
    let keys = job_keys(&mut again, alloc);
    drop(again);
    written?;
    written_again?;
    Ok((is_refused & is_waited, keys?))
}

#[test]
fn a_second_open_is_refused_and_a_drop_loses_nothing_that_was_waited_for(
    rt: HostRuntime,
) -> Result<(), Fail> {
    remove(&rt, "dropped.db", "dropped.db-wal");
    let seen = after_a_drop(&rt, &rt);
    remove(&rt, "dropped.db", "dropped.db-wal");
    let (is_refused, keys) = seen?;
    assert!(rt; is_refused);
    assert_eq!(rt; keys.as_str(), " night alone day");
    Ok(())
}
