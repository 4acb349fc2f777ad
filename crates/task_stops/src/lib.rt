//! The changes that stop placed tasks: an end of each is wanted, and the runs of their present attempts are halted. With them a job is
//! disabled or closed, a task whose wall time is over is stopped, and so are the tasks that wait for a preparation that has failed. The
//! preparations of a job that is closed are halted. A task that was completed may disable or terminate its job: then the others are stopped.
//! Tasks and preparations on nodes that leave are stopped and halted in the same way.
#![tactic(auto)]

mod after_put;
mod halt;
mod jobs;
mod leaving;
mod on_nodes;
mod rows;
mod stop;
mod task;

pub use after_put::{disable_after_put, terminate_after_put};
pub use halt::failed_preparation;
pub use jobs::{close, disable, job_in};
pub use leaving::{LeavingNodes, is_on, leaves};
pub use on_nodes::{push_halt_on, push_stop_on};
pub use rows::halted;
pub use stop::waits_on;
pub use task::{push_requeue_of_waiting, stop_task, stop_task_at};
