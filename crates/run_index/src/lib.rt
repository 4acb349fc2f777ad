//! What is kept of the tables' runs: the runs of each attempt and on each node, the slots that they hold on each node, the queued ones,
//! and those that are asked to stop. Each part follows every change of the tables, so that none walks them. Places are those of the
//! tables' tasks and runs.
#![tactic(auto)]

mod asked_runs;
mod attempt_text;
mod chains;
mod held_slots;
mod named_tasks;
mod node_sums;
mod queued_runs;
mod row_tests;
mod runs_of_attempts;
mod runs_of_nodes;

pub use asked_runs::AskedRuns;
pub use chains::add_place;
pub use held_slots::HeldSlots;
pub use named_tasks::place_of_run;
pub use queued_runs::QueuedRuns;
pub use row_tests::is_placed;
pub use runs_of_attempts::RunsOfAttempts;
pub use runs_of_nodes::{NodeRuns, RunsOfNodes};
