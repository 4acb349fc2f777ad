//! Stoppers in memory.
ghost use Rattle.std.specs.Prelude.{◌≡◌, ◌∷◌, [], Some, option_map};
ghost use Rattle.byte_streams.specs.Content.{Gains};
ghost use Rattle.child_runs.specs.Stops.{StopsSurely, StopsOrFails};

use crate::counter::CallCounter;
use crate::stopper::Stopper;
use byte_streams::Failed;
use std::alloc::Global;
use std::marker::Model;

/// A stopper in memory that never fails. Once it is out of memory it drops the numbers that it kept, and later ones too.
/// Contracts see the numbers of the runs that it was asked to stop, in order; None once it is out of memory.
pub struct SureStopper {
    numbers: Option<Vec<u64>>,
}

impl Drop for SureStopper {
    fn drop(self) {
        let SureStopper { numbers: _numbers } = self;
    }
}

impl Model for SureStopper {
    ghost use Rattle.std.specs.Prelude.{ℕ, List, Option, option_map};

    ghost Value = { Option (List ℕ) };

    ghost view = { λ s. option_map (λ v. v.items) s.numbers };
}

impl SureStopper {
    /// A stopper that was asked to stop no run. It does not allocate.
    pub fn new(alloc: Global) -> SureStopper
        ensures { result ≡ Some [] }
    {
        SureStopper {
            numbers: Some(Vec::new(alloc)),
        }
    }

    /// The numbers of the runs that it was asked to stop, in order; None once it is out of memory. It does not allocate.
    pub fn into_numbers(self) -> Option<Vec<u64>>
        ensures { option_map (λ numbers. numbers.items) result ≡ self }
    {
        let SureStopper { numbers } = self;
        numbers
    }

    /// Keeps a number.
    fn keep(&mut self, number: u64)
        ensures { Gains self.old self.new (number ∷ []) }
    {
        let mut kept = self.numbers.take();
        if let Some(numbers) = &mut kept {
            if numbers.push(number).is_err() {
                return;
            }
        }
        self.numbers = kept;
    }
}

impl Stopper for SureStopper {
    ghost faults = { λ _. 0 };

    ghost stopped = { StopsSurely };

    fn stop(&mut self, number: u64) -> Result<(), Failed> {
        self.keep(number);
        Ok(())
    }
}

/// A stopper in memory of which the calls of given numbers fail, and no others. Contracts see the numbers of the runs that it
/// stopped, the numbers of the calls that fail, and how many calls were made and failed.
pub struct MemoryStopper {
    inner: SureStopper,
    counter: CallCounter,
}

impl Drop for MemoryStopper {
    fn drop(self) {
        let MemoryStopper {
            inner: _inner,
            counter: _counter,
        } = self;
    }
}

impl Model for MemoryStopper {
    ghost use Rattle.child_runs.specs.Stops.{FailingStops};

    ghost Value = { FailingStops };

    ghost view = { λ s. record { numbers = s.inner; fails = s.counter.fails.items; calls = s.counter.calls; faults = s.counter.faults } };
}

impl MemoryStopper {
    /// A stopper that was asked to stop no run. The calls of these numbers fail, counted from 1. It does not allocate.
    pub fn new(alloc: Global, fails: Vec<u64>) -> MemoryStopper
        ensures { result ≡ record { numbers = Some []; fails = fails.items; calls = 0; faults = 0 } }
    {
        MemoryStopper {
            inner: SureStopper::new(alloc),
            counter: CallCounter::new(fails),
        }
    }

    /// The numbers of the runs that it was asked to stop by calls that did not fail, in order; None once it is out of memory.
    /// It does not allocate.
    pub fn into_numbers(self) -> Option<Vec<u64>>
        ensures { option_map (λ numbers. numbers.items) result ≡ self.numbers }
    {
        let MemoryStopper { inner, counter } = self;
        drop(counter);
        inner.into_numbers()
    }
}

impl Stopper for MemoryStopper {
    ghost faults = { λ s. s.faults };

    ghost stopped = { StopsOrFails };

    /// `Failed` exactly if the number of the call is listed; then the number of the run is not kept.
    fn stop(&mut self, number: u64) -> Result<(), Failed> {
        match self.counter.count() {
            Ok(()) => self.inner.stop(number),
            Err(Failed) => Err(Failed),
        }
    }
}
