//! The metrics of a pool: their current values, their samples, and the methods by which a formula reads them.
#![tactic(auto)]

mod labels;
mod methods;
mod metrics;
mod samples;

pub use metrics::{MetricPart, Metrics};
