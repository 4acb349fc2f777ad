//! Plans of none, one, two and three changes and of lists of them: each machine makes such plans. `specs/Plans.antt` states what
//! a plan means, what a machine answers to an event, and what its due step is.
#![tactic(auto)]

mod answer;
mod ended;
mod job_runs;
mod listed;
mod plan;

pub use answer::or_refused;
pub use ended::ended_run;
pub use job_runs::job_run;
pub use listed::{accept_listed, reply_listed};
pub use plan::{accept_none, accept_one, accept_two, refuse, step_one, step_three, step_two};
