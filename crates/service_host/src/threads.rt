//! Whether the system has threads for all workers.
use std::alloc::{AllocError, Global};
use std::sync::{Arc, Condvar, Mutex, Wait};
use std::thread::{Builder, JoinHandle, Threads};

/// A gate at which threads wait until it is opened.
#[derive(Drop)]
struct Gate {
    is_open: Mutex<bool>,
    opened: Condvar,
}

impl Gate {
    fn closed() -> Gate {
        Gate {
            is_open: Mutex::new(false),
            opened: Condvar::new(),
        }
    }

    /// Waits until the gate is open.
    fn pass<R: Wait>(&self, rt: &R) {
        let mut is_open = self.is_open.lock(rt);
        for _ in rt.forever() {
            if *is_open {
                return;
            }
            is_open = self.opened.wait(rt, is_open);
        }
    }

    /// Lets all threads pass, those that come later too.
    fn open<R: Wait>(&self, rt: &R) {
        *self.is_open.lock(rt) = true;
        self.opened.notify_all();
    }
}

/// Makes a thread that waits at the gate; None if the system has no thread for it.
fn make_waiting<R: Threads + Wait + Copy + Send + Drop + 'static>(
    rt: &R,
    gate: &Arc<Gate>,
) -> Option<JoinHandle<()>> {
    let gate = Arc::try_clone(gate).ok()?;
    let rt_there = *rt;
    Builder::new()
        .spawn(rt, move || { gate.pass(&rt_there) })
        .ok()
}

/// Makes so many threads that wait at the gate. Returns whether the system has them all.
fn make_all<R: Threads + Wait + Copy + Send + Drop + 'static>(
    rt: &R,
    gate: &Arc<Gate>,
    count: usize,
    made: &mut Vec<JoinHandle<()>>,
) -> Result<bool, AllocError> {
    made.reserve(count)?;
    for _ in 0..count {
        match make_waiting(rt, gate) {
            Some(handle) => made.push(handle).map_err(AllocError::from)?,
            None => return Ok(false),
        }
    }
    Ok(true)
}

/// Whether the system can have this number of threads beside those that there are: they are made, all at once, and end at once. The only
/// error is out of memory.
pub fn has_threads<R: Threads + Wait + Copy + Send + Drop + 'static>(
    rt: &R,
    alloc: Global,
    count: usize,
) -> Result<bool, AllocError> {
    let gate = Arc::new(alloc, Gate::closed())?;
    let mut made = Vec::new(alloc);
    let has_all = make_all(rt, &gate, count, &mut made);
    gate.open(rt);
    for handle in made {
        handle.join(rt);
    }
    has_all
}
