//! A store of which some calls fail.
ghost use Rattle.std.specs.Prelude.{◌≡◌, ◌≤◌, ◌+◌, ◌-◌, ◌^◌, ◌↔◌, min, Contains, IsTrue, IsErrOf, IfOk, OnOk, OnErr};
ghost use Rattle.batch_keeper.specs.Told.{FailsWithCause};
ghost use Rattle.keeper_store.specs.Contents.{apply_edits};

use crate::content::Stored;
use crate::edit::Edit;
use crate::store::Store;
use crate::sure::SureStore;
use batch_keeper::KeepError;
use std::alloc::Global;
use std::marker::Model;

/// A store in memory of which the calls of given numbers fail. Contracts see what it contains, these numbers, and how many calls were
/// made and failed.
pub struct MemoryStore {
    inner: SureStore,
    fails: Vec<u64>,
    calls: u64,
    faults: u64,
}

impl Drop for MemoryStore {
    fn drop(self) {
        let MemoryStore {
            inner: _inner,
            fails: _fails,
            calls: _calls,
            faults: _faults,
        } = self;
    }
}

impl Model for MemoryStore {
    ghost use Rattle.keeper_store.specs.Listed.{ListedStore};

    ghost Value = { ListedStore };

    ghost view = { λ s. record { content = s.inner; fails = s.fails.items; calls = s.calls; faults = s.faults } };
}

impl MemoryStore {
    /// A store that contains this. The reads and writes of these numbers fail, counted together from 1. It does not allocate.
    pub fn new(stored: Stored, fails: Vec<u64>) -> MemoryStore
        ensures { result ≡ record { content = stored; fails = fails.items; calls = 0; faults = 0 } }
    {
        MemoryStore {
            inner: SureStore::new(stored),
            fails,
            calls: 0,
            faults: 0,
        }
    }

    // Counts a call, and its fault if it is to fail; whether it is to fail.
    fn fails_now(&mut self) -> bool
        ensures content { self.new.content ≡ self.old.content }
        ensures counted { self.new.calls ≡ min (self.old.calls + 1) (2 ^ 64 - 1) }
        ensures listed { IsTrue result ↔ Contains self.old.fails self.new.calls }
        ensures kept { self.new.fails ≡ self.old.fails }
        ensures later { self.old.faults ≤ self.new.faults }
        ensures faulted { IsTrue result → self.new.faults ≡ min (self.old.faults + 1) (2 ^ 64 - 1) }
        ensures faultless { ¬ IsTrue result → self.new.faults ≡ self.old.faults }
    {
        self.calls = self.calls.saturating_add(1);
        let fails = self.fails.contains(&self.calls);
        if fails {
            self.faults = self.faults.saturating_add(1);
        }
        fails
    }
}

impl Store for MemoryStore {
    ghost use Rattle.std.specs.Prelude.{Some};

    ghost content = { λ s. Some s.content };

    ghost faults = { λ s. s.faults };

    /// Answers `Failed` exactly if the number of the call is listed. If memory runs out no fault is counted.
    fn read(&mut self, alloc: Global) -> Result<Stored, KeepError>
        ensures content { IfOk result (λ stored. stored ≡ self.old.content) }
        ensures same { self.new.content ≡ self.old.content }
        ensures cause { FailsWithCause self.old.faults self.new.faults result }
        ensures counted { self.new.calls ≡ min (self.old.calls + 1) (2 ^ 64 - 1) }
        ensures listed { IsErrOf result KeepError.Failed ↔ Contains self.old.fails self.new.calls }
        ensures kept { self.new.fails ≡ self.old.fails }
        ensures faulted { IsErrOf result KeepError.Failed → self.new.faults ≡ min (self.old.faults + 1) (2 ^ 64 - 1) }
        ensures faultless { ¬ IsErrOf result KeepError.Failed → self.new.faults ≡ self.old.faults }
    {
        if self.fails_now() {
            return Err(KeepError::Failed);
        }
        self.inner.read(alloc)
    }

    /// Answers `Failed` exactly if the number of the call is listed. If memory runs out no fault is counted.
    fn write(&mut self, alloc: Global, edits: &[Edit]) -> Result<(), KeepError>
        ensures ok { OnOk result (self.new.content ≡ apply_edits edits.now self.old.content) }
        ensures err { OnErr result (self.new.content ≡ self.old.content) }
        ensures cause { FailsWithCause self.old.faults self.new.faults result }
        ensures counted { self.new.calls ≡ min (self.old.calls + 1) (2 ^ 64 - 1) }
        ensures listed { IsErrOf result KeepError.Failed ↔ Contains self.old.fails self.new.calls }
        ensures kept { self.new.fails ≡ self.old.fails }
        ensures faulted { IsErrOf result KeepError.Failed → self.new.faults ≡ min (self.old.faults + 1) (2 ^ 64 - 1) }
        ensures faultless { ¬ IsErrOf result KeepError.Failed → self.new.faults ≡ self.old.faults }
    {
        if self.fails_now() {
            return Err(KeepError::Failed);
        }
        self.inner.write(alloc, edits)
    }
}
