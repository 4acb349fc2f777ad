//! A counting semaphore, at which threads wait with a limit of time.
use std::sync::{Condvar, CondvarTimeouts, Mutex, Wait};
use std::time::{Clock as Time, Duration};

/// The permits of a semaphore.
#[derive(Drop)]
struct Permits {
    /// How many nobody has used.
    unused: u32,
    /// How many threads wait for one.
    waiting: u32,
}

/// A counting semaphore: a permit ends one wait, one that goes on or else the next one.
#[derive(Drop)]
pub struct Semaphore {
    permits: Mutex<Permits>,
    added: Condvar,
    most: u32,
}

impl Semaphore {
    /// A semaphore that has at most this number of unused permits; further ones are lost. It does not allocate.
    pub fn new(most: u32) -> Semaphore {
        Semaphore {
            permits: Mutex::new(Permits {
                unused: 0,
                waiting: 0,
            }),
            added: Condvar::new(),
            most,
        }
    }

    /// Adds this number of permits, and wakes nobody. Returns whether a thread waits, for which `wake` is then to be called.
    pub fn add<R: Wait>(&self, rt: &R, count: u32) -> bool {
        let mut permits = self.permits.lock(rt);
        permits.unused = permits.unused.saturating_add(count).min(self.most);
        permits.waiting > 0
    }

    /// Wakes a waiting thread for each unused permit.
    pub fn wake<R: Wait>(&self, rt: &R) {
        let permits = self.permits.lock(rt);
        let count = permits.unused.min(permits.waiting);
        drop(permits);
        for _ in 0..count {
            self.added.notify_one();
        }
    }

    /// Uses a permit, and waits for one for this number of milliseconds at most if there is none. It may also return early for no reason.
    pub fn wait<R: Wait + Time>(&self, rt: &R, longest_ms: u64) {
        let mut permits = self.permits.lock(rt);
        if permits.unused == 0 {
            permits.waiting = permits.waiting.saturating_add(1);
            let longest = Duration::from_millis(longest_ms);
            permits = self.added.wait_timeout(rt, permits, longest).0;
            permits.waiting = permits.waiting.saturating_sub(1);
        }
        permits.unused = permits.unused.saturating_sub(1);
    }
}
