//! What a service says on standard error of its store, its listeners and its child programs, and what these wait for.
use bt_base::NoMemory;
use child_programs::StartMonitor;
use sql_store::{StoreMonitor, StoreSync, WriteFault};
use std::io;
use std::io::Eprint;
use std::sync::Wait;
use std::time::Clock;
use tcp_links::{AcceptCause, TcpMonitor};

/// How long a link waits at most until what it shows is saved, in milliseconds: as long as an answer may take.
const ANSWER_MS: u64 = 60_000;

/// How an answer begins that says that a call could not be saved. It shows nothing of the tables.
const NOT_SAVED: &[u8] = b"HTTP/1.1 500 ";

/// Says on standard error, in a line each, what the store tells. Faults of standard error change nothing.
#[derive(Clone, Copy)]
pub struct Reports<R: Eprint + Copy> {
    rt: R,
}

impl<R: Eprint + Copy> Reports<R> {
    /// Reports on the standard error of this runtime. It does not allocate.
    pub fn new(rt: R) -> Reports<R> {
        Reports { rt }
    }
}

impl<R: Eprint + Copy> StoreMonitor for Reports<R> {
    fn write_failed(&mut self, fault: WriteFault) {
        let _ = self.rt.eprintln(format_args!("batch: the store: {fault}"));
    }

    fn write_succeeded(&mut self) {
        let _ = self.rt.eprintln("batch: the store is written again");
    }
}

/// Says on standard error, in a line each, what the listeners and the spawners of a service tell. Faults of standard error change nothing.
/// Links and spawners wait until all that was saved up to then is in the store, if there is one.
#[derive(Drop)]
pub struct ServiceReports<R: Wait + Clock + Eprint + Copy + Drop> {
    rt: R,
    sync: Option<StoreSync<Reports<R>>>,
}

impl<R: Wait + Clock + Eprint + Copy + Drop> ServiceReports<R> {
    /// Reports on the standard error of this runtime, for a service over a store with these writes, or over tables in memory. The only
    /// error is out of memory.
    pub fn new(rt: R, sync: Option<&StoreSync<Reports<R>>>) -> Result<ServiceReports<R>, NoMemory> {
        let sync = match sync {
            Some(sync) => Some(sync.share()?),
            None => None,
        };
        Ok(ServiceReports { rt, sync })
    }

    /// Waits until all that was saved up to now is in the store, for this number of milliseconds at most if there is one. Whether it is.
    fn is_saved(&self, limit_ms: Option<u64>) -> bool {
        match &self.sync {
            Some(sync) => sync.wait(&self.rt, limit_ms).is_ok(),
            None => true,
        }
    }
}

impl<R: Wait + Clock + Eprint + Copy + Drop> TcpMonitor for ServiceReports<R> {
    fn before_write(&self, piece: &[u8]) -> bool {
        piece.starts_with(NOT_SAVED) || self.is_saved(Some(ANSWER_MS))
    }

    fn accept_waits(&self, cause: AcceptCause) {
        let _ = self.rt.eprintln(format_args!(
            "batch: connections are not accepted for now: {cause}"
        ));
    }

    fn accept_goes_on(&self) {
        let _ = self.rt.eprintln("batch: connections are accepted again");
    }
}

impl<R: Wait + Clock + Eprint + Copy + Drop> StartMonitor for ServiceReports<R> {
    // without a limit: the end of a run that was not started could be saved no sooner than its take
    fn before_start(&self, _number: u64) -> bool {
        self.is_saved(None)
    }

    fn start_waits(&self, number: u64, cause: io::Error) {
        let _ = self.rt.eprintln(format_args!(
            "batch: run {number} cannot be started yet ({cause}); it is tried again for 10 minutes: make room on the disk, or allow more files (ulimit -n) or processes (ulimit -u)"
        ));
    }

    fn start_goes_on(&self, number: u64) {
        let _ = self.rt.eprintln(format_args!("batch: run {number} waits no longer to be started"));
    }

    fn start_given_up(&self, number: u64, cause: io::Error) {
        let _ = self.rt.eprintln(format_args!(
            "batch: run {number} could not be started for 10 minutes ({cause}); it ends as not started"
        ));
    }

    fn list_fails(&self, cause: io::Error) {
        let _ = self.rt.eprintln(format_args!(
            "batch: the list of runs, runs.csv, cannot be written ({cause}); lines are left out until it can: make room on the disk"
        ));
    }
}
