//! The machine of jobs and tasks: their events, the endings of runs that are not start runs, the due step that settles a task, and the
//! order of the due steps of jobs and tasks.
//! What it answers is defined in `batch_model`.
#![tactic(auto)]

mod actions;
mod change;
mod ending;
mod job;
mod machine;
mod preparing;
mod preps;
mod settle;

pub use machine::{next_due, plan_event};
