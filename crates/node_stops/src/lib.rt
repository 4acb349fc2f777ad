//! The changes by which nodes leave their pool: each leaves by an option, its start runs are halted, and by requeue and by terminate the
//! tasks that run there are stopped and the preparations there are halted. All of it is read off the tables before the first change.
#![tactic(auto)]

mod leaving;

pub use leaving::leave;
pub use task_stops::LeavingNodes;
