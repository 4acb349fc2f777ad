//! Histories of metrics: the last samples of a metric, and what autoscale formulas read of them.
#![tactic(auto)]

mod history;

pub use history::{
    History, MAX_SAMPLES, SAMPLE_INTERVAL_MS, Sample, SampleTooOld, pushes_keep_the_last,
};
