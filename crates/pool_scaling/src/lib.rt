//! Automatic scaling of pools: evaluation of formulas over a pool, the events `enable-autoscale`, `disable-autoscale` and
//! `evaluate-autoscale`, and the due step that evaluates the formula of a pool. What each does is defined in `batch_model`.
#![tactic(auto)]

mod enabling;
mod evaluation;
mod gathering;
mod requests;
mod scaling;

pub use enabling::{enable_autoscale, is_steady, new_scale};
pub use evaluation::{Ran, check_formula};
pub use requests::{disable_autoscale, evaluate_autoscale, scales};
pub use scaling::scale_first;
