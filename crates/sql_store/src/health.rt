//! Whether a store can be written, as others than its owner may ask.
use bt_base::NoMemory;
use std::alloc::Global;
use std::sync::Arc;
use std::sync::atomic::{AtomicBool, Ordering};

#[derive(Drop)]
struct Flags {
    is_failing: AtomicBool,
    is_shut: AtomicBool,
}

/// Whether writes of a store fail. Each share of it shows the same, in every thread.
#[derive(Drop)]
pub struct StoreHealth {
    flags: Arc<Flags>,
}

impl StoreHealth {
    /// The health of a store of which no write has failed. The only error is out of memory.
    pub(crate) fn new(alloc: Global) -> Result<StoreHealth, NoMemory> {
        let flags = Flags {
            is_failing: AtomicBool::new(false),
            is_shut: AtomicBool::new(false),
        };
        Ok(StoreHealth {
            flags: Arc::new(alloc, flags)?,
        })
    }

    /// Another share. The only error is out of memory.
    pub fn share(&self) -> Result<StoreHealth, NoMemory> {
        Ok(StoreHealth {
            flags: Arc::try_clone(&self.flags)?,
        })
    }

    /// Whether the last write failed. One that was out of memory does not count.
    pub fn is_failing(&self) -> bool {
        self.flags.is_failing.load(Ordering::SeqCst)
    }

    /// Whether the store has shut itself: it answers each call with a fault until it is opened again.
    pub fn is_shut(&self) -> bool {
        self.flags.is_shut.load(Ordering::SeqCst)
    }

    /// Sets whether the last write failed.
    pub(crate) fn set_failing(&self, is_failing: bool) {
        self.flags.is_failing.store(is_failing, Ordering::SeqCst);
    }

    /// Says that the store has shut itself.
    pub(crate) fn set_shut(&self) {
        self.flags.is_shut.store(true, Ordering::SeqCst);
    }
}
