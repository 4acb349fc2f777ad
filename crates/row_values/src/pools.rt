//! Pools, their nodes, their samples and their formulas.
ghost use Rattle.std.specs.Prelude.{◌≡◌};
ghost use Rattle.bt_rows.specs.Ranges.{is_percentage, is_formula_text};
ghost use Rattle.batch_model.specs.WellFormed.{is_pool_in_range, is_pool_past, is_pool_valid, is_node_in_range, is_sample_in_range, is_sample_valid, is_scale_in_range};

use crate::ranges::{
    is_interval, is_node_number, is_past_if_some, is_resize_timeout, is_slot_count,
    is_start_in_range, is_target,
};
use bt_base::{Num, Text};
use bt_rows::limits::{FORMULA_LIMIT, SEAT_LIMIT};
use bt_rows::node::NodeRow;
use bt_rows::pool::PoolRow;
use bt_rows::sample::{Metric, SampleRow};
use bt_rows::scale::ScaleRow;

/// The percentage 100, in millionths.
const WHOLE: i64 = 100_000_000;

/// Whether the pool's values are in their ranges.
fn is_pool_in_range(pool: &PoolRow) -> bool
    ensures { result ≡ is_pool_in_range pool.now }
{
    is_slot_count(pool.slots)
        && is_target(pool.dedicated)
        && pool.low == 0
        && is_resize_timeout(pool.usual_timeout)
        && is_resize_timeout(pool.timeout)
        && is_start_in_range(&pool.start)
}

/// Whether the beginning of the pool's resize, and the last call that made it scale, are not after `now`.
fn is_pool_past(now: u64, pool: &PoolRow) -> bool
    ensures { result ≡ is_pool_past now pool.now }
{
    pool.began <= now && is_past_if_some(now, pool.enabled)
}

/// Whether the pool's values are in their ranges, and its moments not after `now`, in milliseconds since 1970.
pub fn is_pool_valid(now: u64, pool: &PoolRow) -> bool
    ensures { result ≡ is_pool_valid now pool.now }
{
    is_pool_in_range(pool) && is_pool_past(now, pool)
}

/// Whether the node's number is 1 to 10^15, and its seat 1 to 32.
pub fn is_node_in_range(node: &NodeRow) -> bool
    ensures { result ≡ is_node_in_range node.now }
{
    is_node_number(node.number) && (1 <= node.seat && node.seat <= SEAT_LIMIT)
}

/// Whether the number is 0 to 100.
fn is_percentage(value: Num) -> bool
    ensures { result ≡ is_percentage value }
{
    let millionths = value.millionths();
    0 <= millionths && millionths <= WHOLE
}

/// Whether the sample is a percentage, if it is of the processors' metric.
fn is_sample_in_range(sample: &SampleRow) -> bool
    ensures { result ≡ is_sample_in_range sample.now }
{
    !matches!(sample.metric, Metric::CpuPercent) || is_percentage(sample.value)
}

/// Whether the sample is a percentage, if it is of the processors' metric, and not taken after `now`, in milliseconds since 1970.
pub fn is_sample_valid(now: u64, sample: &SampleRow) -> bool
    ensures { result ≡ is_sample_valid now sample.now }
{
    is_sample_in_range(sample) && sample.label <= now
}

/// Whether the text has at most 8,192 bytes.
fn is_formula_text(text: &Text) -> bool
    ensures { result ≡ is_formula_text text.now }
{
    text.as_str().len() <= FORMULA_LIMIT
}

/// Whether the formula has at most 8,192 bytes, and is evaluated every 5 minutes to every 168 hours.
pub fn is_scale_in_range(scale: &ScaleRow) -> bool
    ensures { result ≡ is_scale_in_range scale.now }
{
    is_formula_text(&scale.formula) && is_interval(scale.interval)
}
