//! The bodies of requests (Azure Batch REST reference, in this project's profile): the members of each, read in the order of its
//! definition. The first fault in this order is returned, and other members are ignored.
#![tactic(auto)]

mod collection;
mod dependencies;
mod exit_conditions;
mod job;
mod job_change;
mod job_member;
mod job_task;
mod list_item;
mod pool;
mod pool_member;
mod reason;
mod resize;
mod scaling;
mod start;
mod task;

pub use collection::{read_collection, read_task_items};
pub use job::{read_job, read_job_spec};
pub use job_change::{read_disable_tasks, read_job_patch, read_terminate_reason};
pub use pool::read_pool;
pub use resize::read_resize;
pub use scaling::{read_enable_autoscale, read_evaluate_autoscale};
pub use task::read_task;
