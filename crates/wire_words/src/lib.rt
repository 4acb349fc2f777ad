//! The words that texts and JSON share: states of pools, nodes, jobs, tasks and runs; how tasks ended; the numbers, statuses, names
//! and values of refusals; and the ids of nodes. Names of states and refusals are those of the Azure Batch REST reference where it
//! has them; the others are this project's own.
#![tactic(auto)]

mod nodes;
mod refusals;
mod words;

pub use nodes::node_id;
pub use refusals::{name_of, number_of, status_of, table_word, values_of};
pub use words::{
    alloc_word, fill_word, id_or_dash, job_state_word, node_state_word, pool_state_word,
    prep_state_word, push_exit, push_how, push_run_ending, release_state_word, result_word,
    run_kind_word, run_state_word, success_word, task_state_word, text_or_dash,
};
