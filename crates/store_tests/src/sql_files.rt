//! What the tests of stores in files share: files, edits, and a monitor that counts.
use bt_base::{NoMemory, Text};
use keeper_store::{Edit, Entries, Entry, Stored};
use row_texts::RowKind;
use sql_store::{OpenError, OpenMode, SqlStore, StoreMonitor, WriteFault};
use std::alloc::{AllocError, Global};
use std::fs;
use std::sync::Arc;
use std::sync::atomic::{AtomicU64, Ordering};

/// How often a monitor was told of each.
#[derive(Drop)]
pub struct Counts {
    /// That a write was too large.
    pub too_large: AtomicU64,
    /// That a write failed for another cause.
    pub others: AtomicU64,
    /// That a write succeeded after one that failed.
    pub successes: AtomicU64,
}

/// A monitor that counts what it is told.
#[derive(Drop)]
pub struct Counting {
    counts: Arc<Counts>,
}

impl Counting {
    /// A monitor that was told nothing. The only error is out of memory.
    pub fn new(alloc: Global) -> Result<Counting, AllocError> {
        let counts = Counts {
            too_large: AtomicU64::new(0),
            others: AtomicU64::new(0),
            successes: AtomicU64::new(0),
        };
        Ok(Counting {
            counts: Arc::new(alloc, counts)?,
        })
    }

    /// Another monitor with the same counts. The only error is out of memory.
    pub fn share(&self) -> Result<Counting, AllocError> {
        Ok(Counting {
            counts: Arc::try_clone(&self.counts)?,
        })
    }

    /// How often a fault of too large a number was told, another fault, and a success.
    pub fn told(&self) -> (u64, u64, u64) {
        (
            self.counts.too_large.load(Ordering::SeqCst),
            self.counts.others.load(Ordering::SeqCst),
            self.counts.successes.load(Ordering::SeqCst),
        )
    }
}

impl StoreMonitor for Counting {
    fn write_failed(&mut self, fault: WriteFault) {
        let count = if fault == WriteFault::TooLarge {
            &self.counts.too_large
        } else {
            &self.counts.others
        };
        count.fetch_add(1, Ordering::SeqCst);
    }

    fn write_succeeded(&mut self) {
        self.counts.successes.fetch_add(1, Ordering::SeqCst);
    }
}

/// Opens the store at the path, or makes it, beside a monitor that is not asked.
pub fn open<R: Copy + Drop>(
    host: &HostRuntime,
    rt: &R,
    path: &str,
) -> Result<SqlStore<R, Counting>, OpenError> {
    let monitor = Counting::new(host.alloc()).map_err(|_| OpenError::Memory)?;
    SqlStore::open(host, *rt, path, OpenMode::MakeIfMissing, monitor)
}

/// Removes the file and its log, if they are there.
pub fn remove(rt: &HostRuntime, path: &str, log: &str) {
    let _ = fs::remove_file(rt, path);
    let _ = fs::remove_file(rt, log);
}

/// The text, in memory of its own.
pub fn text(alloc: Global, text: &str) -> Result<Text, NoMemory> {
    Text::of_string(String::from_str(alloc, text)?)
}

/// The edit that puts this row with this key.
pub fn put(alloc: Global, kind: RowKind, key: &str, row: &str) -> Result<Edit, NoMemory> {
    let entry = Entry {
        key: text(alloc, key)?,
        text: text(alloc, row)?,
    };
    Ok(Edit::Put(kind, entry))
}

fn are_same_entries(a: &Entries, b: &Entries) -> bool {
    let (a, b) = (a.as_slice(), b.as_slice());
    a.len() == b.len()
        && a.iter().zip(b.iter()).all(|(one, other)| {
            one.key.as_str() == other.key.as_str() && one.text.as_str() == other.text.as_str()
        })
}

/// Whether both have the same entries in the same order, and the same numbers.
pub fn are_same(a: &Stored, b: &Stored) -> bool {
    are_same_entries(&a.pools, &b.pools)
        && are_same_entries(&a.nodes, &b.nodes)
        && are_same_entries(&a.jobs, &b.jobs)
        && are_same_entries(&a.tasks, &b.tasks)
        && are_same_entries(&a.runs, &b.runs)
        && are_same_entries(&a.preps, &b.preps)
        && are_same_entries(&a.samples, &b.samples)
        && are_same_entries(&a.scales, &b.scales)
        && a.metas == b.metas
}
