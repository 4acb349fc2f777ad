//! The context of an evaluation.

use crate::outcome::Outcome;
use bt_base::Moment;
use formula_metrics::Metrics;

/// What the value of an expression depends on: the formula's text, the metrics, the present moment, and what is set so far.
#[derive(Drop)]
pub struct EvalContext<'a> {
    /// The formula's text, of which spans are parts.
    pub text: &'a [u8],
    /// The metrics that the formula reads.
    pub metrics: &'a Metrics,
    /// The present moment, in milliseconds since 1970.
    pub now: Moment,
    /// What the statements before this one have set.
    pub set: &'a Outcome,
}
