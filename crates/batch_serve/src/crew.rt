//! Workers in threads of their own.
ghost use Rattle.std.specs.Prelude.{◌≡◌, ◌<◌, ℕ, All, length, slice_index_or};
ghost use Rattle.batch_serve.specs.Passes.{CanWork, WorksWithPass};

use crate::monitor::ServiceMonitor;
use crate::work::Work;
use crate::worker::Worker;
use batch_keeper::Keeper;
use shared_desk::{Pass, SharedDesk};
use std::alloc::Global;
use std::sync::Wait;
use std::thread::Threads;
use std::{mem, thread};

/// The work of one worker.
fn work<K: Keeper + Drop, M: ServiceMonitor + Drop, W: Work, R: Wait>(
    rt: &R,
    alloc: Global,
    desk: &SharedDesk<K, M>,
    worker: &mut Worker<W>,
)
    requires { CanWork W.can_work desk.now worker.old }
    ensures { WorksWithPass W.worked desk.now worker.old worker.new }
{
    let pass = mem::replace(&mut worker.pass, Pass::blank());
    worker.pass = worker.kind.work(rt, alloc, desk, pass);
}

/// Runs all workers, each in a thread of its own where one can be made, and returns once all have ended.
pub(crate) fn crew<
    K: Keeper + Drop + Send,
    M: ServiceMonitor + Drop + Sync,
    W: Work + Send,
    R: Threads + Wait + Sync,
>(rt: &R, alloc: Global, desk: &SharedDesk<K, M>, workers: &mut [Worker<W>])
    requires { All (CanWork W.can_work desk.now) workers.old }
    ensures count { length workers.new ≡ length workers.old }
    ensures works { (k : ℕ) (d : _) → k < length workers.old → WorksWithPass W.worked desk.now (slice_index_or workers.old k d) (slice_index_or workers.new k d) }
{
    let threads = workers.len().max(1);
    thread::for_each_mut(
        rt,
        workers,
        threads,
        &|_, worker| { work(rt, alloc, desk, worker) },
    );
}
