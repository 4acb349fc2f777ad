//! What is kept of the tables' tasks: the active tasks of each job, the placed ones that are over, those by the moments at which their wall
//! times are over, and those of each job by their numbers. Each part follows every change of the tables, so that none walks them. Places are
//! those of the tables' tasks.
#![tactic(auto)]

mod active_tasks;
mod numbered_tasks;
mod placed_tasks;
mod row_tests;
mod timed_tasks;

pub use active_tasks::ActiveTasks;
pub use numbered_tasks::NumberedTasks;
pub use placed_tasks::PlacedTasks;
pub use row_tests::satisfies_others;
pub use timed_tasks::TimedTasks;
