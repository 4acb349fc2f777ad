//! The due steps of jobs and of wall times, each at its first row: a task whose wall time is over is stopped (U2), a release run whose
//! wall time is over is asked to stop (U3), a job whose wall time is over is terminated (U4), an enabling job is active (U6), a job is
//! terminated with its tasks (U7), a disabling job is disabled (U8), a release run of a terminating or deleting job is made (U9), and
//! such a job has ended (U10).
#![tactic(auto)]

mod release;
mod removal;
mod rule;
mod wall;

pub use release::release_first;
pub use removal::end_first;
pub use rule::{disable_first, enable_first, terminate_first};
pub use wall::{is_undisturbed, time_out_job_first, time_out_release_first, time_out_task_first};
