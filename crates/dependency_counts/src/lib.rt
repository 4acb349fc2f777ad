//! Exit conditions of tasks, and how many dependencies each task of a job waits for.
#![tactic(auto)]

mod conditions;
mod counts;
mod dependencies;
mod live;
mod steps;

pub use conditions::condition;
pub use counts::Counts;
pub use live::{CountKey, Live};
pub use steps::Steps;
