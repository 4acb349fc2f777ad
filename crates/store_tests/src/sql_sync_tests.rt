//! Writes that wait in a queue: they are made together in one transaction, once somebody waits for them.
use crate::sql_files::{Counting, open, put, remove};
use bt_base::NoMemory;
use keeper_store::{Edit, MetaName, Store};
use row_texts::RowKind;
use sql_store::{OpenMode, SqlStore};
use std::alloc::Global;
use std::fs;
use std::sync::Wait;
use std::test::Fail;
use std::thread::{Builder, Threads};
use std::time::Clock;

/// The size of the header of a log, of that of each of its pages, and of a page, in bytes (SQLite's file format).
const LOG_HEADER: usize = 32;

const PAGE_HEADER: usize = 24;

const PAGE: usize = 4096;

/// How many transactions the log has. The last page of each has a number that is not zero from the fifth to the eighth byte of its header
/// (SQLite's file format).
fn transactions(rt: &HostRuntime, log: &str) -> Result<u64, Fail> {
    let bytes = fs::read(rt, log)?;
    let mut count = 0u64;
    for frame in bytes
        .as_slice()
        .get(LOG_HEADER..)
        .unwrap_or(b"")
        .chunks(PAGE_HEADER + PAGE)
    {
        if frame.get(4..8).unwrap_or(b"\0\0\0\0") != b"\0\0\0\0".as_slice() {
            count = count.saturating_add(1);
        }
    }
    Ok(count)
}

/// Writes a job with this key.
fn write_job<R: Wait + Clock + Drop>(
    store: &mut SqlStore<R, Counting>,
    alloc: Global,
    key: &str,
) -> Result<(), &'static str> {
    let mut edits = Vec::new(alloc);
    let pushed: Result<(), NoMemory> = match put(alloc, RowKind::Job, key, "night") {
        Ok(edit) => edits.push(edit).map_err(|_| NoMemory),
        Err(error) => Err(error),
    };
    let written = store.write(alloc, edits.as_slice());
    drop(edits);
    if pushed.is_ok() & written.is_ok() {
        Ok(())
    } else {
        Err("written")
    }
}

/// How many jobs a copy of the file and its log has.
fn jobs_in_copy<R: Wait + Clock + Copy + Drop>(
    host: &HostRuntime,
    rt: &R,
    path: &str,
    log: &str,
) -> Result<usize, Fail> {
    remove(host, "copied.db", "copied.db-wal");
    let bytes = fs::read(host, path)?;
    fs::write(host, "copied.db", bytes.as_slice())?;
    let bytes = fs::read(host, log)?;
    fs::write(host, "copied.db-wal", bytes.as_slice())?;
    let mut copy = open(host, rt, "copied.db").map_err(|_| "copied")?;
    let count = match copy.read(host.alloc()) {
        Ok(stored) => Ok(stored.jobs.as_slice().len()),
        Err(_) => Err("read"),
    };
    drop(copy);
    remove(host, "copied.db", "copied.db-wal");
    Ok(count?)
}

/// The jobs that the file has after three writes, and after the wait for them, and in how many transactions they are in the log.
fn written_together<R: Wait + Clock + Copy + Drop>(
    host: &HostRuntime,
    rt: &R,
) -> Result<(usize, usize, u64), Fail> {
    let alloc = host.alloc();
    let mut store = open(host, rt, "together.db").map_err(|_| "made")?;
    let before = transactions(host, "together.db-wal")?;
    for key in ["one", "two", "three"] {
        write_job(&mut store, alloc, key)?;
    }
    let early = jobs_in_copy(host, rt, "together.db", "together.db-wal")?;
    store.sync().wait(rt, None).map_err(|_| "waited")?;
    let late = jobs_in_copy(host, rt, "together.db", "together.db-wal")?;
    let after = transactions(host, "together.db-wal")?;
    drop(store);
    Ok((early, late, after - before.min(after)))
}

#[test]
fn writes_are_made_in_one_transaction_once_one_waits(rt: HostRuntime) -> Result<(), Fail> {
    remove(&rt, "together.db", "together.db-wal");
    let seen = written_together(&rt, &rt);
    remove(&rt, "together.db", "together.db-wal");
    let (early, late, count) = seen?;
    assert_eq!(rt; early, 0);
    assert_eq!(rt; late, 3);
    assert_eq!(rt; count, 1);
    Ok(())
}

/// Writes a job and closes the store; how many jobs a read then finds.
fn jobs_after_close<R: Wait + Clock + Copy + Drop>(
    host: &HostRuntime,
    rt: &R,
) -> Result<usize, Fail> {
    let alloc = host.alloc();
    let mut store = open(host, rt, "closed.db").map_err(|_| "made")?;
    write_job(&mut store, alloc, "one")?;
    let sync = store.sync().share()?;
    store.close().map_err(|_| "closed")?;
    sync.wait(rt, None).map_err(|_| "waited")?;
    drop(sync);
    let mut store = open(host, rt, "closed.db").map_err(|_| "opened")?;
    let count = match store.read(alloc) {
        Ok(stored) => Ok(stored.jobs.as_slice().len()),
        Err(_) => Err("read"),
    };
    drop(store);
    Ok(count?)
}

#[test]
fn a_close_writes_what_nobody_waited_for(rt: HostRuntime) -> Result<(), Fail> {
    remove(&rt, "closed.db", "closed.db-wal");
    let count = jobs_after_close(&rt, &rt);
    remove(&rt, "closed.db", "closed.db-wal");
    assert_eq!(rt; count?, 1);
    Ok(())
}

/// What a monitor is told of a write whose number no file can have, and of the next one: faults of that kind, others, and successes.
fn told_of_refusal<R: Wait + Clock + Copy + Drop>(
    host: &HostRuntime,
    rt: &R,
) -> Result<((u64, u64, u64), usize), Fail> {
    let alloc = host.alloc();
    let counting = Counting::new(alloc)?;
    let monitor = counting.share()?;
    let mut store = SqlStore::open(
        host,
        *rt,
        "refused.db",
        OpenMode::MakeIfMissing,
        monitor,
    ).map_err(|_| "made")?;
    write_job(&mut store, alloc, "one")?;
    let mut edits = Vec::new(alloc);
    edits.push(Edit::Meta(MetaName::NextRun, 1 << 63))?;
    let is_refused = store.write(alloc, edits.as_slice()).is_err();
    drop(edits);
    write_job(&mut store, alloc, "two")?;
    let count = match store.read(alloc) {
        Ok(stored) => Ok(stored.jobs.as_slice().len()),
        Err(_) => Err("read"),
    };
    drop(store);
    if is_refused {
        Ok((counting.told(), count?))
    } else {
        Err("not refused".into())
    }
}

#[test]
fn a_write_that_no_file_can_have_is_refused_before_it_waits(rt: HostRuntime) -> Result<(), Fail> {
    remove(&rt, "refused.db", "refused.db-wal");
    let told = told_of_refusal(&rt, &rt);
    remove(&rt, "refused.db", "refused.db-wal");
    let (told, count) = told?;
    assert_eq!(rt; told.0, 1);
    assert_eq!(rt; told.1, 0);
    assert_eq!(rt; told.2, 1);
    assert_eq!(rt; count, 2);
    Ok(())
}

/// Keys of as many writes as there are threads.
const KEYS: [&str; 8] = ["1", "2", "3", "4", "5", "6", "7", "8"];

/// Makes writes, and for each a thread that waits for it. Whether all waits ended well, and how many jobs the file has then.
fn waited_in_threads<R: Threads + Wait + Clock + Copy + Send + Drop + 'static>(
    host: &HostRuntime,
    rt: &R,
) -> Result<(bool, usize), Fail> {
    let alloc = host.alloc();
    let mut store = open(host, rt, "threads.db").map_err(|_| "made")?;
    let mut waiting = Vec::new(alloc);
    for key in KEYS {
        write_job(&mut store, alloc, key)?;
        let sync = store.sync().share()?;
        let rt_there = *rt;
        let spawned = Builder::new().spawn(rt, move || sync.wait(&rt_there, None).is_ok());
        waiting.push(spawned.map_err(|_| "thread")?)?;
    }
    let mut are_written = true;
    for handle in waiting {
        are_written = are_written & handle.join(rt);
    }
    let count = jobs_in_copy(host, rt, "threads.db", "threads.db-wal")?;
    drop(store);
    Ok((are_written, count))
}

#[test]
fn threads_wait_for_writes_of_one_store(rt: HostRuntime) -> Result<(), Fail> {
    remove(&rt, "threads.db", "threads.db-wal");
    let seen = waited_in_threads(&rt, &rt);
    remove(&rt, "threads.db", "threads.db-wal");
    let (are_written, count) = seen?;
    assert!(rt; are_written);
    assert_eq!(rt; count, 8);
    Ok(())
}
