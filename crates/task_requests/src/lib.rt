//! What is asked of tasks: the answers to `add-task`, `add-tasks`, `delete-task`, `terminate-task` and `reactivate-task`. With them go
//! the rows of tasks that end or become active again and the changes that drop a task, which the due step that settles a task needs too.
//! What it answers is defined in `batch_model`.
#![tactic(auto)]

mod collection;
mod removal;
mod task;
mod task_events;
mod task_rows;

pub use collection::add_tasks;
pub use removal::drop_changes;
pub use task::add_task;
pub use task_events::{delete_task, reactivate_task, terminate_task};
pub use task_rows::{again, completed, terminated};
