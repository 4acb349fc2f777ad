//! The command `serve`: it opens a desk, shares it among workers, each in a thread of its own where one can be made, and closes it once all of
//! them have ended (this project's own). A worker is a lane, which runs child programs, a timer, or a door, which serves the links of a
//! listener as HTTP. What each worker did is told by its pass, whose calls stand in the journal that is returned.
#![tactic(auto)]

mod crew;
mod kinds;
mod message;
mod monitor;
mod passes;
mod serving;
mod status;
mod work;
mod worker;

pub use monitor::ServiceMonitor;
pub use serving::{Served, serve_words};
pub use status::ServeStatus;
pub use work::Work;
pub use worker::{Door, Lane, Timer, Worker, WorkerKind};
