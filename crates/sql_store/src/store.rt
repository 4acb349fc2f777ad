//! The store.
ghost use Rattle.std.specs.Prelude.{◌≡◌, ◌≤◌, ◌+◌, ◌-◌, ◌^◌, min, IfOk, IsErrOf};
ghost use Rattle.batch_keeper.specs.Told.{FailsWithCause};

use crate::closing::CloseError;
use crate::health::StoreHealth;
use crate::monitor::{StoreMonitor, Watch};
use crate::sync::StoreSync;
use batch_keeper::KeepError;
use keeper_store::{Edit, Store, Stored};
use sql_file::{
    CopiedEdits, OpenMode, ReadError, ReadFault, SqlFile, WriteError, WriteFault, copy_edits,
};
use sql_look::OpenError;
use std::alloc::Global;
use std::marker::Model;
use std::sync::Wait;
use std::time::Clock;

/// How long a read and a close wait at most for writes that fail, in milliseconds.
const LAST_WAIT_MS: u64 = 60_000;

/// A store in a file of SQL. A write that answers `Ok` is in the file once `sync` has waited for it. Contracts see how many faults it counted.
pub struct SqlStore<R: Drop, M: StoreMonitor + Drop> {
    rt: R,
    sync: StoreSync<M>,
    health: StoreHealth,
    faults: u64,
    is_new: bool,
    read_fault: Option<ReadFault>,
}

impl<R: Drop, M: StoreMonitor + Drop> Drop for SqlStore<R, M> {
    fn drop(self) {
        let SqlStore {
            rt: _rt,
            sync: _sync,
            health: _health,
            faults: _,
            is_new: _,
            read_fault: _read_fault,
        } = self;
    }
}

impl<R: Drop, M: StoreMonitor + Drop> Model for SqlStore<R, M> {
    ghost use Rattle.std.specs.Prelude.{ℕ};

    ghost Value = { ℕ };

    ghost view = { λ s. s.faults };
}

impl<R: Drop, M: StoreMonitor + Drop> SqlStore<R, M> {
    /// Opens the file as `SqlFile::open` does, with the runtime of the program, and tells the monitor of its writes. `rt` is what its calls
    /// wait with.
    pub fn open(
        host: &HostRuntime,
        rt: R,
        path: &str,
        mode: OpenMode,
        monitor: M,
    ) -> Result<SqlStore<R, M>, OpenError>
        ensures { IfOk result (λ store. store ≡ 0) }
    {
        let alloc = host.alloc();
        let health = StoreHealth::new(alloc)?;
        let watch = Watch::new(monitor, health.share()?);
        let file = SqlFile::open(host, path, mode)?;
        let is_new = file.is_new();
        Ok(SqlStore {
            rt,
            sync: StoreSync::new(alloc, file, watch)?,
            health,
            faults: 0,
            is_new,
            read_fault: None,
        })
    }

    /// Whether the open made the file, or its tables.
    pub fn is_new(&self) -> bool {
        self.is_new
    }

    /// What its writes wait in until they are in the file: `share` of it is for another thread.
    pub fn sync(&self) -> &StoreSync<M> {
        &self.sync
    }

    /// Whether its writes fail, for others to ask: `share` of it is for another thread.
    pub fn health(&self) -> &StoreHealth {
        &self.health
    }

    /// Why the last `read` failed; None if it did not fail, or memory ran out.
    pub fn read_fault(&self) -> Option<&ReadFault> {
        self.read_fault.as_ref()
    }
}

impl<R: Wait + Clock + Drop, M: StoreMonitor + Drop> SqlStore<R, M> {
    /// The last moment of the tables that the file has, in milliseconds since 1970; None if it has none, or cannot be read. It counts no fault.
    pub fn last_moment(&mut self) -> Option<u64>
        ensures { self.new ≡ self.old }
    {
        let mut file = self.sync.take_file(&self.rt);
        let moment = file.last_moment();
        self.sync.put_file(&self.rt, file);
        moment
    }

    /// Waits for all writes, at most a minute if they fail, copies the log into the file and closes both. The file alone then has all that
    /// was written; the log stays beside it, with no rows. A store that is dropped leaves rows in the log, and then the file and its log
    /// belong together; writes that were not waited for are lost then.
    ///
    /// `Unwritten` comes if writes could not be made in that time, or if the store has shut itself: nobody who waited for them was told that they
    /// are in the file, and they are lost, but that after a shut the file may have them. Another error comes if the log cannot be copied, as on a full disk. Nothing is lost then: the log beside the file has
    /// what was written, as if the store was dropped, and the next open finds it.
    pub fn close(self) -> Result<(), CloseError> {
        let _ = self.sync.wait(&self.rt, Some(LAST_WAIT_MS));
        let closed = self.sync.take_file(&self.rt).close();
        let unwritten = self.sync.close(&self.rt);
        if unwritten > 0 {
            return Err(CloseError::Unwritten(unwritten));
        }
        match closed {
            Ok(()) => Ok(()),
            Err(error) => Err(error.into()),
        }
    }

    // Counts a fault, if the answer is one.
    fn count(&mut self, answer: KeepError)
        ensures later { self.old ≤ self.new }
        ensures faulted { answer ≡ KeepError.Failed → self.new ≡ min (self.old + 1) (2 ^ 64 - 1) }
        ensures faultless { ¬ (answer ≡ KeepError.Failed) → self.new ≡ self.old }
    {
        match answer {
            KeepError::Failed => self.faults = self.faults.saturating_add(1),
            KeepError::Memory => {}
        }
    }

    // Notes why a read failed; what the read answers.
    fn note_read(&mut self, error: ReadError) -> KeepError
        ensures { self.new ≡ self.old }
    {
        match error {
            ReadError::Fault(fault) => {
                self.read_fault = Some(fault);
                KeepError::Failed
            }
            ReadError::Memory => KeepError::Memory,
        }
    }

    // Why not all writes are in the file. If no attempt has failed, one takes too long.
    fn unwritten_cause(&self) -> ReadError {
        match self.sync.queue(&self.rt).fault() {
            Some(WriteError::Fault(fault)) => ReadError::Fault(ReadFault::Unread(fault)),
            Some(WriteError::Memory) => ReadError::Memory,
            None => ReadError::Fault(ReadFault::Unread(WriteFault::CannotWrite)),
        }
    }

    // Reads the file once all writes are in it.
    fn read_file(&self, alloc: Global) -> Result<Stored, ReadError> {
        if self.sync.wait(&self.rt, Some(LAST_WAIT_MS)).is_err() {
            return Err(self.unwritten_cause());
        }
        let mut file = self.sync.take_file(&self.rt);
        let read = file.read(alloc);
        self.sync.put_file(&self.rt, file);
        read
    }

    // Adds the copies to the edits that wait to be written. Whether these are to be written now.
    fn add_copies(&self, copied: CopiedEdits) -> Result<bool, WriteError> {
        let mut queue = self.sync.queue(&self.rt);
        match queue.add(copied) {
            Ok(()) => Ok(queue.is_long()),
            Err(error) => Err(error),
        }
    }

    // Adds the edits to those that wait to be written. If there are many then, one attempt is made to write them.
    fn add(&self, alloc: Global, edits: &[Edit]) -> Result<(), WriteError> {
        let copied = match copy_edits(alloc, edits) {
            Ok(copied) => copied,
            Err(WriteError::Fault(fault)) => return Err(self.sync.queue(&self.rt).refuse(fault)),
            Err(WriteError::Memory) => return Err(WriteError::Memory),
        };
        if self.add_copies(copied)? {
            let _ = self.sync.wait(&self.rt, Some(0));
        }
        Ok(())
    }
}

impl<R: Wait + Clock + Drop, M: StoreMonitor + Drop> Store for SqlStore<R, M> {
    ghost use Rattle.std.specs.Prelude.{None};

    ghost content = { λ _. None };

    ghost faults = { λ s. s };

    /// Waits for all writes, at most a minute if they fail, and reads the file. Each error but one of memory is counted as a fault, and
    /// `read_fault` then says why.
    fn read(&mut self, alloc: Global) -> Result<Stored, KeepError>
        ensures cause { FailsWithCause self.old self.new result }
        ensures faulted { IsErrOf result KeepError.Failed → self.new ≡ min (self.old + 1) (2 ^ 64 - 1) }
        ensures faultless { ¬ IsErrOf result KeepError.Failed → self.new ≡ self.old }
    {
        self.read_fault = None;
        match self.read_file(alloc) {
            Ok(stored) => Ok(stored),
            Err(error) => {
                let answer = self.note_read(error);
                self.count(answer);
                Err(answer)
            }
        }
    }

    /// Adds the edits to those that wait to be written: they are all made in one transaction, after those of earlier writes, and at the
    /// latest when one waits for them (`sync`). It writes nothing itself, unless some thousands of edits wait. Each error but one of
    /// memory is counted as a fault, and told to the monitor. While the last attempt to write has failed it answers that fault, until one
    /// who waits has made an attempt that succeeded.
    fn write(&mut self, alloc: Global, edits: &[Edit]) -> Result<(), KeepError>
        ensures cause { FailsWithCause self.old self.new result }
        ensures faulted { IsErrOf result KeepError.Failed → self.new ≡ min (self.old + 1) (2 ^ 64 - 1) }
        ensures faultless { ¬ IsErrOf result KeepError.Failed → self.new ≡ self.old }
    {
        match self.add(alloc, edits) {
            Ok(()) => Ok(()),
            Err(error) => {
                let answer = error.answer();
                self.count(answer);
                Err(answer)
            }
        }
    }
}
