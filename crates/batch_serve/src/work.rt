//! What workers do.
ghost use Rattle.std.specs.Prelude.{◌≡◌};
ghost use Rattle.counted_lock.specs.Passes.{IsPassOf, LockIdentity};
ghost use Rattle.shared_desk.specs.Openings.{Opening};
ghost use Rattle.shared_desk.specs.Sharing.{Caller};

use crate::monitor::ServiceMonitor;
use batch_keeper::Keeper;
use shared_desk::{Pass, SharedDesk};
use std::alloc::Global;
use std::sync::Wait;

/// What a worker does over a shared desk with its pass.
pub trait Work {
    /// What it needs before it works.
    ghost can_work: { Self → Type 0 };

    /// A relation between the desk, the pass and the worker before its work, and both after it.
    ghost worked: { LockIdentity Opening → Caller → Self → Caller → Self → Type 0 };

    /// Works until it has ended, tells the monitor of the desk how, and returns the pass.
    fn work<K: Keeper + Drop, M: ServiceMonitor + Drop, R: Wait>(
        &mut self,
        rt: &R,
        alloc: Global,
        desk: &SharedDesk<K, M>,
        pass: Pass,
    ) -> Pass
        requires pass { IsPassOf desk.now pass }
        requires ready { can_work self.old }
        ensures pass { IsPassOf desk.now result }
        ensures number { result.number ≡ pass.number }
        ensures works { worked desk.now pass self.old result self.new };
}
