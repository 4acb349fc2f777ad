//! The service in a thread of its own.
use crate::service::ServeFault;
use crate::service::host::Host;
use crate::service::start::StartFault;
use batch_serve::ServeStatus;
use service_host::Reports;
use sql_store::{StoreSync, WaitFault};
use std::alloc::{AllocError, Global};
use std::io::Eprint;
use std::sync::atomic::{AtomicBool, Ordering};
use std::sync::{Arc, Mutex, Wait};
use std::thread::{JoinHandle, Parker};
use std::time::{Clock, Duration};

/// How often the program looks whether the store is shut, and writes what nobody waits for, in milliseconds.
const LOOK_MS: u64 = 1_000;

/// Whether the service has ended, the writes of its store, and what waits for its end.
#[derive(Drop)]
pub struct Ending<R: Eprint + Copy + Drop> {
    has_ended: AtomicBool,
    sync: Mutex<Option<StoreSync<Reports<R>>>>,
    parker: Parker,
}

impl<R: Wait + Clock + Eprint + Copy + Drop> Ending<R> {
    /// The service has not ended, and has no store yet. The only error is out of memory.
    pub fn new(alloc: Global) -> Result<Arc<Ending<R>>, AllocError> {
        let ending = Ending {
            has_ended: AtomicBool::new(false),
            sync: Mutex::new(None),
            parker: Parker::new(),
        };
        Arc::new(alloc, ending).map_err(AllocError::from)
    }

    /// Watches a store with these writes. The only error is out of memory.
    pub fn watch(&self, rt: &R, sync: &StoreSync<Reports<R>>) -> Result<(), StartFault> {
        let sync = sync.share()?;
        *self.sync.lock(rt) = Some(sync);
        Ok(())
    }

    /// Says that the service has ended.
    pub fn end(&self) {
        self.has_ended.store(true, Ordering::SeqCst);
        self.parker.unpark();
    }

    /// Has one attempt made to write what is not in the store yet, unless it is to wait. Whether the service has a store, and it is shut.
    fn is_shut(&self, rt: &R) -> bool {
        match &*self.sync.lock(rt) {
            Some(sync) => matches!(sync.wait(rt, Some(0)), Err(WaitFault::Shut)),
            None => false,
        }
    }
}

/// Waits until the service has ended in its thread, or until its store is shut; then the thread goes on, and is cut off at the end of the program.
pub fn wait_for_end<R: Host>(
    rt: &R,
    ending: &Ending<R>,
    service: JoinHandle<Result<ServeStatus, ServeFault>>,
) -> Result<ServeStatus, ServeFault> {
    for _ in rt.forever() {
        if ending.has_ended.load(Ordering::SeqCst) {
            return service.join(rt);
        }
        if ending.is_shut(rt) {
            drop(service);
            return Err(ServeFault::Start(StartFault::StoreShut));
        }
        ending
            .parker
            .park_timeout(rt, Duration::from_millis(LOOK_MS));
    }
    unreachable!()
}
