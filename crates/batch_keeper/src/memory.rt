//! A keeper of which some calls fail.
ghost use Rattle.std.specs.Prelude.{◌≡◌, ◌≤◌, ◌+◌, ◌-◌, ◌^◌, ◌↔◌, min, Contains, IsTrue, IsErrOf, IfOk, OnOk, OnErr};
ghost use Rattle.bt_rows.specs.Changes.{apply_changes};
ghost use Rattle.batch_model.specs.WellFormed.{IsWellFormed};
ghost use Rattle.batch_keeper.specs.Told.{FailsWithCause};

use crate::error::KeepError;
use crate::keeper::Keeper;
use crate::sure::SureKeeper;
use bt_rows::tables::{Change, Tables};
use std::alloc::Global;
use std::marker::Model;

/// A keeper in memory of which the calls of given numbers fail. Contracts see its tables, these numbers, and how many calls were
/// made and failed.
pub struct MemoryKeeper {
    inner: SureKeeper,
    fails: Vec<u64>,
    calls: u64,
    faults: u64,
}

impl Drop for MemoryKeeper {
    fn drop(self) {
        let MemoryKeeper {
            inner: _inner,
            fails: _fails,
            calls: _calls,
            faults: _faults,
        } = self;
    }
}

impl Model for MemoryKeeper {
    ghost use Rattle.batch_keeper.specs.Listed.{ListedKeeper};

    ghost Value = { ListedKeeper };

    ghost view = { λ k. record { tables = k.inner; fails = k.fails.items; calls = k.calls; faults = k.faults } };
}

impl MemoryKeeper {
    /// A keeper of these tables. The loads and saves of these numbers fail, counted together from 1. It does not allocate.
    pub fn new(tables: Tables, fails: Vec<u64>) -> MemoryKeeper
        requires { IsWellFormed tables.state }
        ensures { result ≡ record { tables = tables.state; fails = fails.items; calls = 0; faults = 0 } }
    {
        MemoryKeeper {
            inner: SureKeeper::new(tables),
            fails,
            calls: 0,
            faults: 0,
        }
    }

    // Counts a call, and its fault if it is to fail; whether it is to fail.
    fn fails_now(&mut self) -> bool
        ensures tables { self.new.tables ≡ self.old.tables }
        ensures counted { self.new.calls ≡ min (self.old.calls + 1) (2 ^ 64 - 1) }
        ensures listed { IsTrue result ↔ Contains self.old.fails self.new.calls }
        ensures kept { self.new.fails ≡ self.old.fails }
        ensures later { self.old.faults ≤ self.new.faults }
        ensures faulted { IsTrue result → self.new.faults ≡ min (self.old.faults + 1) (2 ^ 64 - 1) }
        ensures faultless { ¬ IsTrue result → self.new.faults ≡ self.old.faults }
    {
        self.calls = self.calls.saturating_add(1);
        let fails = self.fails.contains(&self.calls);
        if fails {
            self.faults = self.faults.saturating_add(1);
        }
        fails
    }
}

impl Keeper for MemoryKeeper {
    ghost use Rattle.std.specs.Prelude.{Some};

    ghost told = { λ k. Some k.tables };

    ghost faults = { λ k. k.faults };

    /// Answers `Failed` exactly if the number of the call is listed. If memory runs out no fault is counted.
    fn load(&mut self, alloc: Global) -> Result<Tables, KeepError>
        ensures tables { IfOk result (λ tables. tables.state ≡ self.old.tables) }
        ensures well_formed { IfOk result (λ tables. IsWellFormed tables.state) }
        ensures same { self.new.tables ≡ self.old.tables }
        ensures cause { FailsWithCause self.old.faults self.new.faults result }
        ensures counted { self.new.calls ≡ min (self.old.calls + 1) (2 ^ 64 - 1) }
        ensures listed { IsErrOf result KeepError.Failed ↔ Contains self.old.fails self.new.calls }
        ensures kept { self.new.fails ≡ self.old.fails }
        ensures faulted { IsErrOf result KeepError.Failed → self.new.faults ≡ min (self.old.faults + 1) (2 ^ 64 - 1) }
        ensures faultless { ¬ IsErrOf result KeepError.Failed → self.new.faults ≡ self.old.faults }
    {
        if self.fails_now() {
            return Err(KeepError::Failed);
        }
        self.inner.load(alloc)
    }

    /// Answers `Failed` exactly if the number of the call is listed. If memory runs out no fault is counted.
    fn save(&mut self, alloc: Global, changes: &[Change]) -> Result<(), KeepError>
        requires { IsWellFormed (apply_changes changes.now self.old.tables) }
        ensures ok { OnOk result (self.new.tables ≡ apply_changes changes.now self.old.tables) }
        ensures err { OnErr result (self.new.tables ≡ self.old.tables) }
        ensures cause { FailsWithCause self.old.faults self.new.faults result }
        ensures counted { self.new.calls ≡ min (self.old.calls + 1) (2 ^ 64 - 1) }
        ensures listed { IsErrOf result KeepError.Failed ↔ Contains self.old.fails self.new.calls }
        ensures kept { self.new.fails ≡ self.old.fails }
        ensures faulted { IsErrOf result KeepError.Failed → self.new.faults ≡ min (self.old.faults + 1) (2 ^ 64 - 1) }
        ensures faultless { ¬ IsErrOf result KeepError.Failed → self.new.faults ≡ self.old.faults }
    {
        if self.fails_now() {
            return Err(KeepError::Failed);
        }
        self.inner.save(alloc, changes)
    }
}
