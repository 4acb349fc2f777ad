//! Tables that a keeper saves in a file, and another one loads.
use crate::sql_files::{Counting, open, remove};
use crate::store_keeper_tests::{Seen, has_first, loaded, puts, rows};
use batch_keeper::{KeepError, Keeper};
use bt_rows::tables::Change;
use keeper_store::{Store, Stored};
use sql_store::SqlStore;
use std::alloc::Global;
use std::sync::Wait;
use std::test::Fail;
use std::time::Clock;
use store_keeper::StoreKeeper;

/// Saves these changes in the file, one save after another, and closes it.
fn save_all<R: Wait + Clock + Copy + Drop>(
    host: &HostRuntime,
    rt: &R,
    saves: [&[Change]; 2],
) -> Result<(), Fail> {
    let alloc = host.alloc();
    let store = open(host, rt, "tables.db").map_err(|_| "made")?;
    let mut keeper = StoreKeeper::new(store);
    let first = keeper.save(alloc, saves[0]);
    let second = keeper.save(alloc, saves[1]);
    let is_closed = keeper.into_store().close().is_ok();
    if first.is_ok() & second.is_ok() & is_closed {
        Ok(())
    } else {
        Err("saved".into())
    }
}

/// What is seen of the loaded tables, and what the store has.
fn load<R: Wait + Clock + Drop>(
    alloc: Global,
    store: SqlStore<R, Counting>,
) -> Result<(Seen, Stored), KeepError> {
    let mut keeper = StoreKeeper::new(store);
    let seen = loaded(alloc, &mut keeper);
    let mut store = keeper.into_store();
    let stored = store.read(alloc);
    drop(store);
    match seen {
        Ok(seen) => Ok((seen, stored?)),
        Err(error) => {
            drop(stored);
            Err(error)
        }
    }
}

#[test]
fn saved_tables_are_loaded_from_a_file(rt: HostRuntime) -> Result<(), Fail> {
    let alloc = rt.alloc();
    remove(&rt, "tables.db", "tables.db-wal");
    let first = puts(alloc, &[1, 2], (2, 1, 1))?;
    let second = puts(alloc, &[3, 4, 5, 6, 8], (2, 2, 9))?;
    let saved = save_all(&rt, &rt, [first.as_slice(), second.as_slice()]);
    drop(first);
    drop(second);
    saved?;
    let store = open(&rt, &rt, "tables.db").map_err(|_| "opened")?;
    let found = load(alloc, store);
    remove(&rt, "tables.db", "tables.db-wal");
    let (seen, stored) = found.map_err(|_| "loaded")?;
    let entries = [
        &stored.pools,
        &stored.nodes,
        &stored.jobs,
        &stored.tasks,
        &stored.runs,
        &stored.preps,
        &stored.samples,
        &stored.scales,
    ];
    let rows = rows();
    for i in 0..8usize {
        // no sample was saved
        let is_same = i == 6 || has_first(entries[i], rows[i].1, rows[i].2);
        assert!(rt; is_same, "{i}");
    }
    drop(stored);
    assert!(rt; seen == (true, true, true, 2, 9));
    Ok(())
}
