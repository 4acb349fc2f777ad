//! Samples of pools: the values of a pool's metrics now, the event that takes a sample of the processors, and the due step that samples
//! the pools that scale automatically. What is sampled and when is defined in `batch_model`.
#![tactic(auto)]

mod counts;
mod event;
mod first;
mod kept;
mod metrics;
mod sampling;

pub use event::sample_pool;
pub use first::sample_first;
pub use metrics::{PoolMetrics, pool_metrics};
