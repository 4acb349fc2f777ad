//! What the listeners of one socket share.
use crate::monitor::TcpMonitor;
use crate::retry::Told;
use std::alloc::AllocError;
use std::sync::Arc;
use std::sync::atomic::{AtomicBool, AtomicU64, Ordering};

/// The flags of a socket's listeners, which its service shares.
#[derive(Drop)]
pub struct ListenFlags {
    /// Raised by the service to end the listeners.
    pub stopping: Arc<AtomicBool>,
    /// Raised once each of the listeners has ended or failed.
    pub all_ended: Arc<AtomicBool>,
}

/// How many connections may still be accepted, how many listeners have not ended, the flags, the monitor, and what was told of failures.
#[derive(Drop)]
pub(crate) struct Turns<M: TcpMonitor + Drop> {
    monitor: M,
    left: AtomicU64,
    listeners: AtomicU64,
    flags: ListenFlags,
    told: Told,
}

impl<M: TcpMonitor + Drop> Turns<M> {
    /// So many connections, for one listener. It does not allocate.
    pub fn new(connections: u64, flags: ListenFlags, monitor: M) -> Turns<M> {
        Turns {
            monitor,
            left: AtomicU64::new(connections),
            listeners: AtomicU64::new(1),
            flags,
            told: Told::new(),
        }
    }

    /// The monitor.
    pub fn monitor(&self) -> &M {
        &self.monitor
    }

    /// Takes the right to accept one connection; false if none is left.
    pub fn take(&self) -> bool {
        self.left
            .fetch_update(
                Ordering::SeqCst,
                Ordering::SeqCst,
                |left| left.checked_sub(1),
            )
            .is_ok()
    }

    /// Whether the listeners are to end.
    pub fn are_stopping(&self) -> bool {
        self.flags.stopping.load(Ordering::SeqCst)
    }

    /// The flag that says so. Fails if there are too many owners of it.
    pub fn stopping(&self) -> Result<Arc<AtomicBool>, AllocError> {
        Arc::try_clone(&self.flags.stopping)
    }

    /// What was told of failures.
    pub fn told(&self) -> &Told {
        &self.told
    }

    /// There is one listener more.
    pub fn add_listener(&self) {
        self.listeners.fetch_add(1, Ordering::SeqCst);
    }

    /// One listener has ended.
    pub fn end_listener(&self) {
        if self.listeners.fetch_sub(1, Ordering::SeqCst) == 1 {
            self.flags.all_ended.store(true, Ordering::SeqCst);
        }
    }
}
