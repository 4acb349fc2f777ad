//! Edits of a store in memory, and calls that fail.
use batch_keeper::KeepError;
use bt_base::{NoMemory, Text};
use keeper_store::{Edit, Entry, MemoryStore, MetaName, Store, Stored, SureStore};
use row_texts::RowKind;
use std::alloc::Global;
use std::test::Fail;

fn text(alloc: Global, text: &str) -> Result<Text, NoMemory> {
    Text::of_string(String::from_str(alloc, text)?)
}

fn put(alloc: Global, key: &str, row: &str) -> Result<Edit, NoMemory> {
    let entry = Entry {
        key: text(alloc, key)?,
        text: text(alloc, row)?,
    };
    Ok(Edit::Put(RowKind::Job, entry))
}

/// Edits that add the jobs a and b, change a, drop a pool that is not there, and set a number.
fn push_edits(alloc: Global, edits: &mut Vec<Edit>) -> Result<(), NoMemory> {
    edits.push(put(alloc, "a", "one")?)?;
    edits.push(put(alloc, "b", "two")?)?;
    edits.push(put(alloc, "a", "three")?)?;
    edits.push(Edit::Drop(RowKind::Pool, text(alloc, "b")?))?;
    edits.push(Edit::Meta(MetaName::NextRun, 7))?;
    Ok(())
}

/// Writes them.
fn write_edits(alloc: Global, store: &mut impl Store) -> Result<(), KeepError> {
    let mut edits = Vec::new(alloc);
    let pushed = push_edits(alloc, &mut edits);
    let written = store.write(alloc, edits.as_slice());
    drop(edits);
    pushed?;
    written
}

/// How many jobs the store has.
fn job_count(alloc: Global, store: &mut MemoryStore) -> Result<usize, KeepError> {
    let stored = store.read(alloc)?;
    let count = stored.jobs.as_slice().len();
    drop(stored);
    Ok(count)
}

#[test]
fn a_put_keeps_its_place(rt: HostRuntime) -> Result<(), Fail> {
    let alloc = rt.alloc();
    let mut store = SureStore::new(Stored::empty(alloc));
    let written = write_edits(alloc, &mut store);
    let stored = store.read(alloc);
    drop(store);
    assert!(rt; written.is_ok());
    let stored = stored.map_err(|_| "read")?;
    let jobs = stored.jobs.as_slice();
    assert_eq!(rt; jobs.len(), 2);
    assert_eq!(rt; jobs[0].text.as_str(), "three");
    assert_eq!(rt; jobs[1].key.as_str(), "b");
    let metas = stored.metas;
    drop(stored);
    assert_eq!(rt; metas.next_run, Some(7));
    assert_eq!(rt; metas.version, None);
    Ok(())
}

#[test]
fn the_listed_calls_fail(rt: HostRuntime) -> Result<(), Fail> {
    let alloc = rt.alloc();
    let fails = vec![in alloc; 1, 3]?;
    let mut store = MemoryStore::new(Stored::empty(alloc), fails);
    let first = write_edits(alloc, &mut store);
    let second = job_count(alloc, &mut store);
    let third = job_count(alloc, &mut store);
    drop(store);
    assert!(rt; matches!(first, Err(KeepError::Failed)));
    assert!(rt; matches!(second, Ok(0)));
    assert!(rt; matches!(third, Err(KeepError::Failed)));
    Ok(())
}
