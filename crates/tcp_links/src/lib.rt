//! Links and listeners over TCP on this machine alone (127.0.0.1). Several listeners share one socket; together they accept a
//! given number of connections, and then end, as they do once a flag is raised. A peer does not hold its listener for ever: each
//! part of a connection has a time (`WaitLimits`), and it is a fault of the link when that is over. A listener that cannot accept a
//! connection for a cause that may pass waits and tries again, and tells a monitor. Contracts see counts of faults, whether a link is
//! out and whether a listener has ended, and no bytes.
#![tactic(auto)]

mod cause;
mod limits;
mod link;
mod listener;
mod monitor;
mod retry;
mod times;
mod turns;

pub use cause::AcceptCause;
pub use limits::{
    MAX_ANSWER_MS, MAX_CALL_MS, MAX_DRAIN_MS, MAX_FIRST_BYTE_MS, MAX_KEPT_MS, MAX_MESSAGE_MS,
    MAX_STOPPING_MS, WaitLimits,
};
pub use link::TcpLink;
pub use listener::{BindFault, ListenOptions, TcpListener};
pub use monitor::TcpMonitor;
pub use retry::{MAX_RETRY_MS, MAX_UNKNOWN_MS, MIN_RETRY_MS};
pub use turns::ListenFlags;
