//! Scans of the tables that planners and writers share: runs, attempts of tasks, states of jobs, nodes of pools, preparations, and the
//! slots that are held. What each answers is defined in `batch_model`.
#![tactic(auto)]

mod attempts;
mod jobs;
mod nodes;
mod preparations;
mod runs;
mod slots;
mod states;
mod times;

pub use attempts::{ending_of, is_active, is_placed, is_success, is_unended, main_ending};
pub use jobs::is_past;
pub use nodes::{
    has_leaving, has_number_left, is_in_pool, is_resizing, is_usable, staying_count, stays,
};
pub use preparations::{is_at_prep, is_tried_again, prepares, waits_for_preparation};
pub use runs::{is_present, is_start_number, names};
pub use slots::holds_slots;
pub use states::{node_state, task_state};
pub use times::has_passed;
