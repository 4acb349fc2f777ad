//! Tests of one row: whether its values are in their ranges, its moments not after the last one and in order, and its marks those of
//! its stage. What each answers is defined in `batch_model`. That ids and command lines are such is a fact of their types.
#![tactic(auto)]

mod jobs;
mod pools;
mod ranges;
mod reasons;
mod runs;
mod tasks;

pub use jobs::is_job_valid;
pub use pools::{is_node_in_range, is_pool_valid, is_sample_valid, is_scale_in_range};
pub use runs::is_run_valid;
pub use tasks::{has_fitting_marks, is_closed_if_completed, is_task_valid};
