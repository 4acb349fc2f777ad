//! Which tasks are ready: active ones all of whose dependencies are satisfied. What each function answers is defined in `batch_model`.
#![tactic(auto)]

mod readiness;

pub use readiness::{is_ready, is_unblocked};
