//! The parts of a service that stand on the system, beside its adapters: the log of its calls, what it says on standard error, the clocks
//! of its workers, its folders, and whether the system has threads for all workers. Contracts say nothing of them but whether a clock has
//! ended.
#![tactic(auto)]

mod clock;
mod folders;
mod log;
mod monitor;
mod queues;
mod reports;
mod requests;
mod semaphore;
mod threads;
mod ticks;
mod wakes;
#[cfg(test)]
mod wakes_tests;
mod writer;

pub use clock::{LaneWait, PAUSE_MS, TimerWait, WorkerClock};
pub use folders::{file_instant, log_path, make_folders, runs_path};
pub use log::{CallLog, LogLines};
pub use monitor::HostMonitor;
pub use reports::{Reports, ServiceReports};
pub use threads::has_threads;
pub use wakes::Wakes;
pub use writer::LogWriter;
