//! Ranges of values, and moments that are not after the last one.
ghost use Rattle.std.specs.Prelude.{◌≡◌};
ghost use Rattle.bt_rows.specs.Ranges.{passes_if_some, is_duration, is_retry_limit, is_resize_timeout, is_target, is_slot_count, is_interval, is_start_in_range};
ghost use Rattle.batch_model.specs.WellFormed.{is_past_if_some, is_node_number};

use bt_rows::limits::{
    DURATION_LIMIT, GREATEST_INTERVAL, GREATEST_RESIZE_TIMEOUT, LEAST_INTERVAL,
    LEAST_RESIZE_TIMEOUT, NUMBER_LIMIT, RETRY_LIMIT, SLOT_LIMIT, TARGET_LIMIT,
};
use bt_rows::pool::StartTask;

/// Whether it is the number of a node: 1 to 10^15.
pub fn is_node_number(number: u64) -> bool
    ensures { result ≡ is_node_number number }
{
    1 <= number && number <= NUMBER_LIMIT
}

/// Whether it is a limit of retries: 0 to 1,000,000, or -1 for none.
pub fn is_retry_limit(limit: i32) -> bool
    ensures { result ≡ is_retry_limit limit }
{
    -1 <= limit && limit <= RETRY_LIMIT
}

/// Whether it is a limit of retries, if there is one.
pub fn is_retry_limit_if_some(limit: Option<i32>) -> bool
    ensures { result ≡ passes_if_some is_retry_limit limit }
{
    match limit {
        None => true,
        Some(limit) => is_retry_limit(limit),
    }
}

/// Whether it is at most 36,500 days in milliseconds, if there is a duration.
pub fn is_duration_if_some(span: Option<u64>) -> bool
    ensures { result ≡ passes_if_some is_duration span }
{
    match span {
        None => true,
        Some(span) => span <= DURATION_LIMIT,
    }
}

/// Whether it is 5 minutes to 10 days in milliseconds.
pub fn is_resize_timeout(span: u64) -> bool
    ensures { result ≡ is_resize_timeout span }
{
    LEAST_RESIZE_TIMEOUT <= span && span <= GREATEST_RESIZE_TIMEOUT
}

/// Whether it is 5 minutes to 168 hours in milliseconds.
pub fn is_interval(span: u64) -> bool
    ensures { result ≡ is_interval span }
{
    LEAST_INTERVAL <= span && span <= GREATEST_INTERVAL
}

/// Whether it is at most 1,000 nodes.
pub fn is_target(nodes: u32) -> bool
    ensures { result ≡ is_target nodes }
{
    nodes <= TARGET_LIMIT
}

/// Whether it is 1 to 8 slots.
pub fn is_slot_count(slots: u8) -> bool
    ensures { result ≡ is_slot_count slots }
{
    1 <= slots && slots <= SLOT_LIMIT
}

/// Whether the values of the start or preparation task are in their ranges, if there is one.
pub fn is_start_in_range(start: &Option<StartTask>) -> bool
    ensures { result ≡ passes_if_some is_start_in_range start.now }
{
    match start {
        None => true,
        Some(start) => is_retry_limit(start.retries),
    }
}

/// Whether it is not after `now`, if there is a moment.
pub fn is_past_if_some(now: u64, at: Option<u64>) -> bool
    ensures { result ≡ is_past_if_some now at }
{
    match at {
        None => true,
        Some(at) => at <= now,
    }
}
