//! Writes that are not in the file yet.
use crate::monitor::{StoreMonitor, Watch};
use keeper_store::Edit;
use sql_file::{CopiedEdits, SqlFile, WriteError, WriteFault};
use std::alloc::Global;
use std::mem;
use std::time::{Clock, Duration, Instant};

/// How long the first pause after an attempt that failed takes, in milliseconds. Each later one takes twice as long.
const FIRST_PAUSE_MS: u64 = 50;

/// The longest pause between two attempts, in milliseconds.
const LAST_PAUSE_MS: u64 = 5_000;

/// How long one waits at most for the attempt of another one without looking again, in milliseconds.
const LONGEST_WAIT_MS: u64 = 3_600_000;

/// How many edits wait at most before a write has them written, so that a command that shows nothing for long does not keep them all in memory.
const MAX_EDITS: usize = 4_096;

/// The edits of some writes, one after the other, and the file in which they are to be made.
#[derive(Drop)]
pub struct Attempt {
    file: SqlFile,
    edits: Vec<Edit>,
    /// The number of the last of the writes.
    last: u64,
}

/// An attempt that was made, and why it failed if it did.
#[derive(Drop)]
pub struct Attempted {
    attempt: Attempt,
    fault: Option<WriteError>,
    is_shut: bool,
}

impl Attempt {
    /// Makes the edits in one transaction. After a fault the file has none of them, but if the store is shut, when it has all or none.
    pub fn make(self) -> Attempted {
        let mut attempt = self;
        match attempt.file.write(attempt.edits.as_slice()) {
            Ok(()) => {
                attempt.edits.clear();
                Attempted {
                    attempt,
                    fault: None,
                    is_shut: false,
                }
            }
            Err(fault) => {
                let is_shut = attempt.file.is_shut();
                Attempted {
                    attempt,
                    fault: Some(fault),
                    is_shut,
                }
            }
        }
    }
}

/// What follows an attempt that failed.
#[derive(Clone, Copy)]
struct Retry {
    /// Why it failed.
    fault: WriteError,
    /// When the next attempt may be made; None if the clock could not be read.
    due: Option<Instant>,
    /// How long the pause before it takes, in milliseconds.
    pause_ms: u64,
}

/// The next step of one that waits for a write.
pub enum Step {
    /// The write is in the file.
    Written,
    /// Whether it is in the file, nobody can say, since the store has shut itself.
    Shut,
    /// It is not in the file, which is closed.
    Closed,
    /// To make this attempt.
    Make(Attempt),
    /// To wait until another one has made an attempt, and for this time at most.
    Wait(Duration),
}

/// Writes that are not in the file yet, in their order, and the file while nobody writes.
pub struct Queue<M: StoreMonitor + Drop> {
    /// None while one has it, and after it was closed.
    file: Option<SqlFile>,
    is_closed: bool,
    /// The edits of the writes that no attempt has had yet.
    edits: Vec<Edit>,
    /// The edits of the last attempt, if it failed.
    failed: Vec<Edit>,
    /// The number of the last write of that attempt.
    last_failed: u64,
    /// How many writes were added.
    added: u64,
    /// How many of them, from the first on, are in the file.
    written: u64,
    /// How many new rows the file has places for.
    places: u64,
    /// What follows the last attempt, if it failed.
    retry: Option<Retry>,
    watch: Watch<M>,
}

impl<M: StoreMonitor + Drop> Drop for Queue<M> {
    fn drop(self) {
        let Queue {
            file: _file,
            is_closed: _,
            edits: _edits,
            failed: _failed,
            last_failed: _,
            added: _,
            written: _,
            places: _,
            retry: _,
            watch: _watch,
        } = self;
    }
}

impl<M: StoreMonitor + Drop> Queue<M> {
    /// No writes for this file. It does not allocate.
    pub fn new(alloc: Global, file: SqlFile, watch: Watch<M>) -> Queue<M> {
        let places = file.places();
        Queue {
            file: Some(file),
            is_closed: false,
            edits: Vec::new(alloc),
            failed: Vec::new(alloc),
            last_failed: 0,
            added: 0,
            written: 0,
            places,
            retry: None,
            watch,
        }
    }

    /// The number of the last write that was added.
    pub fn added(&self) -> u64 {
        self.added
    }

    /// How many writes are not in the file.
    pub fn unwritten(&self) -> u64 {
        self.added.saturating_sub(self.written)
    }

    /// Why writes fail; None if the last attempt did not.
    pub fn fault(&self) -> Option<WriteError> {
        if self.watch.health().is_shut() {
            return Some(WriteError::Fault(WriteFault::Shut));
        }
        Some(self.retry?.fault)
    }

    /// Adds the edits of a write at the end. It fails if the last attempt had a fault, and if there are no places or no memory for them.
    pub fn add(&mut self, copied: CopiedEdits) -> Result<(), WriteError> {
        if let Some(WriteError::Fault(fault)) = self.fault() {
            return Err(WriteError::Fault(fault));
        }
        let CopiedEdits { edits, puts } = copied;
        let mut edits = edits;
        if puts > self.places {
            return Err(self.refuse(WriteFault::TooLarge));
        }
        if self.edits.append(&mut edits).is_err() {
            return Err(WriteError::Memory);
        }
        self.places = self.places.saturating_sub(puts);
        self.added = self.added.saturating_add(1);
        self.watch.note_success();
        Ok(())
    }

    /// Whether so many edits wait that they are to be written now.
    pub fn is_long(&self) -> bool {
        self.edits.len() >= MAX_EDITS
    }

    /// Notes a fault of a write that is not added.
    pub fn refuse(&mut self, fault: WriteFault) -> WriteError {
        self.watch.note_fault(fault);
        WriteError::Fault(fault)
    }

    /// The file, if nobody has it.
    pub fn take_file(&mut self) -> Option<SqlFile> {
        self.file.take()
    }

    /// Takes the file back.
    pub fn put_file(&mut self, file: SqlFile) {
        self.file = Some(file);
    }

    /// Says that the file will not be put back.
    pub fn close(&mut self) {
        self.is_closed = true;
    }

    /// The edits of the last attempt if it failed, else all that were added since, and the number of the last write of them.
    fn take_edits(&mut self) -> (Vec<Edit>, u64) {
        let alloc = *self.edits.allocator();
        if self.failed.is_empty() {
            (mem::replace(&mut self.edits, Vec::new(alloc)), self.added)
        } else {
            (
                mem::replace(&mut self.failed, Vec::new(alloc)),
                self.last_failed,
            )
        }
    }

    /// How long the next attempt is to wait yet; None if it need not.
    fn pause<R: Clock>(&self, rt: &R) -> Option<Duration> {
        let due = self.retry?.due?;
        let now = Instant::now(rt).ok()?;
        let left = due.saturating_duration_since(now);
        if left.is_zero() { None } else { Some(left) }
    }

    /// The next step of one that waits for the write with this number.
    pub fn step<R: Clock>(&mut self, rt: &R, number: u64) -> Step {
        if number <= self.written {
            return Step::Written;
        }
        if self.watch.health().is_shut() {
            return Step::Shut;
        }
        if self.is_closed {
            return Step::Closed;
        }
        if let Some(left) = self.pause(rt) {
            return Step::Wait(left);
        }
        let Some(file) = self.file.take() else {
            return Step::Wait(Duration::from_millis(LONGEST_WAIT_MS));
        };
        let (edits, last) = self.take_edits();
        Step::Make(Attempt { file, edits, last })
    }

    /// What follows an attempt that failed for this fault.
    fn next_retry<R: Clock>(&self, rt: &R, fault: WriteError) -> Retry {
        let pause_ms = match self.retry {
            None => FIRST_PAUSE_MS,
            Some(retry) => retry.pause_ms.saturating_mul(2).min(LAST_PAUSE_MS),
        };
        let due = match Instant::now(rt) {
            Ok(now) => now.checked_add(Duration::from_millis(pause_ms)),
            Err(_) => None,
        };
        Retry {
            fault,
            due,
            pause_ms,
        }
    }

    /// Takes an attempt back. After a fault its edits are kept, and stand before all others.
    pub fn end<R: Clock>(&mut self, rt: &R, attempted: Attempted) {
        let Attempted {
            attempt,
            fault,
            is_shut,
        } = attempted;
        let Attempt { file, edits, last } = attempt;
        self.file = Some(file);
        match fault {
            None => {
                self.written = last;
                self.retry = None;
                self.watch.note_success();
            }
            Some(fault) => {
                self.failed = edits;
                self.last_failed = last;
                self.retry = Some(self.next_retry(rt, fault));
                if let WriteError::Fault(fault) = fault {
                    self.watch.note_fault(fault);
                }
                if is_shut {
                    self.watch.note_fault(WriteFault::Shut);
                }
            }
        }
    }
}
