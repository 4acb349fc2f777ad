//! Counts of calls of which some fail.
ghost use Rattle.std.specs.Prelude.{◌≡◌, ◌+◌, ◌-◌, ◌^◌, ◌↔◌, min, IsErr, Contains};
ghost use Rattle.bt_base.specs.Causes.{HasCause};
ghost use Rattle.child_runs.specs.Counts.{CountsFault};

use byte_streams::Failed;

/// The numbers of the calls that fail, counted from 1, and how many calls were made and failed.
#[derive(Drop)]
pub(crate) struct CallCounter {
    /// The numbers of the calls that fail; a number may be there twice.
    pub fails: Vec<u64>,
    /// How many calls were made, 2^64 - 1 at most.
    pub calls: u64,
    /// How many of them failed, 2^64 - 1 at most.
    pub faults: u64,
}

impl CallCounter {
    /// No call was made. It does not allocate.
    pub fn new(fails: Vec<u64>) -> CallCounter
        ensures fails { result.fails.items ≡ fails.items }
        ensures calls { result.calls ≡ 0 }
        ensures faults { result.faults ≡ 0 }
    {
        CallCounter {
            fails,
            calls: 0,
            faults: 0,
        }
    }

    /// Counts a call, and a fault if it is one that fails.
    pub fn count(&mut self) -> Result<(), Failed>
        ensures same_fails { self.new.fails ≡ self.old.fails }
        ensures counted { self.new.calls ≡ min (self.old.calls + 1) (2 ^ 64 - 1) }
        ensures listed { IsErr result ↔ Contains self.old.fails.items self.new.calls }
        ensures faults { CountsFault self.old.faults self.new.faults result }
        ensures cause { HasCause self.old.faults self.new.faults result }
    {
        self.calls = self.calls.saturating_add(1);
        if self.fails.contains(&self.calls) {
            self.faults = self.faults.saturating_add(1);
            return Err(Failed);
        }
        Ok(())
    }
}
