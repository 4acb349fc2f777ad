//! Runs.
ghost use Rattle.std.specs.Prelude.{◌≡◌, nat_le};
ghost use Rattle.bt_rows.specs.Ranges.{passes_if_some};
ghost use Rattle.batch_model.specs.WellFormed.{is_run_in_range, is_run_past, is_ended_in_order, is_run_in_order, is_run_valid};

use crate::ranges::{is_node_number, is_past_if_some};
use bt_rows::limits::{NUMBER_LIMIT, SLOT_LIMIT};
use bt_rows::run::RunRow;

/// The greatest number of a run: 63 above the limit, up to which the instances of one placing may come.
const GREATEST_NUMBER: u64 = NUMBER_LIMIT + 63;

/// Whether the run's number and slots, and the number of its node, are in their ranges.
fn is_run_in_range(run: &RunRow) -> bool
    ensures { result ≡ is_run_in_range run.now }
{
    1 <= run.number
        && run.number <= GREATEST_NUMBER
        && run.slots <= SLOT_LIMIT
        && is_node_number(run.node)
}

/// Whether the run was made, taken and ended not after `now`.
fn is_run_past(now: u64, run: &RunRow) -> bool
    ensures { result ≡ is_run_past now run.now }
{
    run.made <= now && is_past_if_some(now, run.taken) && is_past_if_some(now, run.ended)
}

/// Whether the run was taken not before it was made, if it was taken.
fn is_taken_after(made: u64, taken: Option<u64>) -> bool
    ensures { result ≡ passes_if_some (nat_le made) taken }
{
    match taken {
        None => true,
        Some(taken) => made <= taken,
    }
}

/// Whether the run was made and taken not after it ended, if it ended.
fn is_ended_in_order(run: &RunRow) -> bool
    ensures { result ≡ passes_if_some (is_ended_in_order run.now) run.now.ended }
{
    match run.ended {
        None => true,
        Some(ended) => run.made <= ended && is_past_if_some(ended, run.taken),
    }
}

/// Whether the run was made, then taken, then ended.
fn is_run_in_order(run: &RunRow) -> bool
    ensures { result ≡ is_run_in_order run.now }
{
    is_taken_after(run.made, run.taken) && is_ended_in_order(run)
}

/// Whether the run's values are in their ranges, and its moments in order and not after `now`, in milliseconds since 1970.
pub fn is_run_valid(now: u64, run: &RunRow) -> bool
    ensures { result ≡ is_run_valid now run.now }
{
    is_run_in_range(run) && is_run_past(now, run) && is_run_in_order(run)
}
