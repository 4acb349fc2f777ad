//! Waiting until writes are in the file.
use crate::monitor::{StoreMonitor, Watch};
use crate::queue::{Queue, Step};
use bt_base::NoMemory;
use sql_file::SqlFile;
use std::alloc::Global;
use std::sync::{Arc, Condvar, Mutex, MutexGuard, Wait};
use std::time::{Clock, Duration, Instant};

#[derive(Drop)]
struct Shared<M: StoreMonitor + Drop> {
    /// It is locked for moments, and never while the file is written.
    queue: Mutex<Queue<M>>,
    /// Told whenever the file is put back.
    changed: Condvar,
}

/// Why one waits no longer for writes that are not in the file.
#[derive(Clone, Copy, Debug, PartialEq, Eq)]
pub enum WaitFault {
    /// The store has shut itself: whether they are in the file, nobody can say.
    Shut,
    /// The store was closed before they could be written: they are lost.
    Closed,
    /// The time was over. The writes are tried again as before.
    TimeOver,
}

/// What the writes of a store wait in until they are in its file. Each share of it is of the same store, in every thread.
///
/// Those who wait write: the first one makes all writes that were added up to then in one transaction, while the others wait for it. If
/// that fails, it is tried again after 50 milliseconds, and then after pauses that are twice as long each time, up to 5 seconds.
#[derive(Drop)]
pub struct StoreSync<M: StoreMonitor + Drop> {
    shared: Arc<Shared<M>>,
}

/// How long the rest of a wait is at most; None if the time is over. A clock that cannot be read ends a wait that has a limit.
fn left_of<R: Clock>(rt: &R, limit: Option<Duration>, start: Option<Instant>) -> Option<Duration> {
    let Some(limit) = limit else {
        return Some(Duration::MAX);
    };
    let now = Instant::now(rt).ok()?;
    let left = limit.saturating_sub(now.saturating_duration_since(start?));
    if left.is_zero() { None } else { Some(left) }
}

impl<M: StoreMonitor + Drop> StoreSync<M> {
    /// No writes for this file. The only error is out of memory.
    pub(crate) fn new(
        alloc: Global,
        file: SqlFile,
        watch: Watch<M>,
    ) -> Result<StoreSync<M>, NoMemory> {
        let shared = Shared {
            queue: Mutex::new(Queue::new(alloc, file, watch)),
            changed: Condvar::new(),
        };
        Ok(StoreSync {
            shared: Arc::new(alloc, shared)?,
        })
    }

    /// Another share. The only error is out of memory.
    pub fn share(&self) -> Result<StoreSync<M>, NoMemory> {
        Ok(StoreSync {
            shared: Arc::try_clone(&self.shared)?,
        })
    }

    /// The queue of the writes, once no other thread has it.
    pub(crate) fn queue<R: Wait>(&self, rt: &R) -> MutexGuard<'_, Queue<M>> {
        self.shared.queue.lock(rt)
    }

    /// The file, once nobody writes.
    pub(crate) fn take_file<R: Wait>(&self, rt: &R) -> SqlFile {
        let mut queue = self.shared.queue.lock(rt);
        for _ in rt.forever() {
            if let Some(file) = queue.take_file() {
                return file;
            }
            queue = self.shared.changed.wait(rt, queue);
        }
        unreachable!()
    }

    /// Takes the file back.
    pub(crate) fn put_file<R: Wait>(&self, rt: &R, file: SqlFile) {
        self.shared.queue.lock(rt).put_file(file);
        self.shared.changed.notify_all();
    }

    /// Says that the file will not be put back. Returns how many writes are not in it.
    pub(crate) fn close<R: Wait>(&self, rt: &R) -> u64 {
        let mut queue = self.shared.queue.lock(rt);
        queue.close();
        let unwritten = queue.unwritten();
        drop(queue);
        self.shared.changed.notify_all();
        unwritten
    }

    /// Waits until each write that has answered `Ok` up to now is in the file, so that no crash can lose it. With a limit, in milliseconds,
    /// it waits no longer than that for others and between attempts; an attempt of its own takes as long as the disk. With 0 it makes an
    /// attempt if one may be made at once, and does not wait.
    ///
    /// `Shut` comes if the store has shut itself, `Closed` if it was closed meanwhile, and `TimeOver` if the limit is over, or the clock cannot
    /// be read.
    pub fn wait<R: Wait + Clock>(&self, rt: &R, limit_ms: Option<u64>) -> Result<(), WaitFault> {
        let mut queue = self.shared.queue.lock(rt);
        let number = queue.added();
        if queue.unwritten() == 0 {
            return Ok(());
        }
        let limit = limit_ms.map(Duration::from_millis);
        let start = Instant::now(rt).ok();
        for _ in rt.forever() {
            match queue.step(rt, number) {
                Step::Written => return Ok(()),
                Step::Shut => return Err(WaitFault::Shut),
                Step::Closed => return Err(WaitFault::Closed),
                Step::Make(attempt) => {
                    drop(queue);
                    let attempted = attempt.make();
                    queue = self.shared.queue.lock(rt);
                    queue.end(rt, attempted);
                    self.shared.changed.notify_all();
                }
                Step::Wait(longest) => {
                    let Some(left) = left_of(rt, limit, start) else {
                        return Err(WaitFault::TimeOver);
                    };
                    queue = self
                        .shared
                        .changed
                        .wait_timeout(rt, queue, longest.min(left))
                        .0;
                }
            }
        }
        unreachable!()
    }
}
