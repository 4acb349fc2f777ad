//! A spawner of which some calls fail.
ghost use Rattle.std.specs.Prelude.{◌≡◌, []};
ghost use Rattle.child_runs.specs.Memory.{RunsOrFails};

use crate::counter::CallCounter;
use crate::ran::{ChildEnding, ChildRun, Ran};
use crate::run_identity::RunIdentity;
use crate::spawner::Spawner;
use crate::sure_spawner::SureSpawner;
use bt_base::Word;
use byte_streams::Failed;
use std::alloc::Global;
use std::marker::Model;

/// A spawner in memory of which the calls of given numbers fail, and no others. Contracts see the list of endings, the children
/// that ran, the numbers of the calls that fail, and how many calls were made and failed.
pub struct MemorySpawner {
    inner: SureSpawner,
    counter: CallCounter,
}

impl Drop for MemorySpawner {
    fn drop(self) {
        let MemorySpawner {
            inner: _inner,
            counter: _counter,
        } = self;
    }
}

impl Model for MemorySpawner {
    ghost use Rattle.child_runs.specs.Memory.{FailingRuns};

    ghost Value = { FailingRuns };

    ghost view = { λ s. record { inner = s.inner; fails = s.counter.fails.items; calls = s.counter.calls; faults = s.counter.faults } };
}

impl MemorySpawner {
    /// A spawner that has run no child. The child of a run ends as this list says for the number of the run, and with `Code(0)`
    /// if the list does not have the number. The calls of the numbers in `fails` fail, counted from 1. It does not allocate.
    pub fn new(alloc: Global, endings: Vec<(u64, ChildEnding)>, fails: Vec<u64>) -> MemorySpawner
        ensures { result ≡ record {
          inner = record { endings = endings.items; runs = [] };
          fails = fails.items;
          calls = 0;
          faults = 0;
        } }
    {
        MemorySpawner {
            inner: SureSpawner::new(alloc, endings),
            counter: CallCounter::new(fails),
        }
    }

    /// The children that ran, in order. It does not allocate.
    pub fn runs(&self) -> &[ChildRun]
        ensures { result.now ≡ self.now.inner.runs }
    {
        self.inner.runs()
    }
}

impl Spawner for MemorySpawner {
    ghost faults = { λ s. s.faults };

    ghost ran = { RunsOrFails };

    /// `NotStarted` exactly if the number of the call is listed; then the child is not kept.
    fn run(&mut self, alloc: Global, run: &RunIdentity, number: u64, words: &[Word]) -> Ran {
        match self.counter.count() {
            Ok(()) => self.inner.run(alloc, run, number, words),
            Err(Failed) => Ran::NotStarted,
        }
    }
}
