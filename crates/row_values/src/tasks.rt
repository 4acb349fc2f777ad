//! Tasks.
ghost use Rattle.std.specs.Prelude.{◌≡◌, ◌&&◌, nat_le, length};
ghost use Rattle.std.specs.Option.{option_copied};
ghost use Rattle.std.specs.List.{list_all};
ghost use Rattle.bt_rows.specs.declared.limits.TheConstants.{DEPENDENCY_RANGE_LIMIT as SPAN_LIMIT};
ghost use Rattle.bt_rows.specs.Ranges.{passes_if_some, is_slot_count, is_retry_limit, is_duration, is_multi_in_range, is_span_in_range};
ghost use Rattle.batch_model.specs.Limits.{needs_limit};
ghost use Rattle.batch_model.specs.Tasks.{is_placed, is_completed, is_undisturbed};
ghost use Rattle.batch_model.specs.WellFormed.{needs_length, is_task_in_range, is_closed_past, is_task_past, has_fitting_failures, is_task_valid, has_fitting_marks, is_closed_if_completed};

use crate::ranges::{is_duration_if_some, is_past_if_some, is_retry_limit_if_some, is_slot_count};
use bt_base::Id;
use bt_rows::limits::{DEPENDENCY_ID_LIMIT, DEPENDENCY_RANGE_LIMIT, INSTANCE_LIMIT};
use bt_rows::task::{Closed, Multi, TaskRow, TaskStage};

/// Whether it is 1 to 32 instances, if the task has several.
fn is_multi_in_range(multi: Option<&Multi>) -> bool
    ensures { result ≡ passes_if_some is_multi_in_range (option_copied multi.entry) }
{
    match multi {
        None => true,
        Some(multi) => 1 <= multi.count && multi.count <= INSTANCE_LIMIT,
    }
}

/// Whether the ids on which a task depends have at most 64,000 characters together.
fn are_needs_short(needs: &[Id]) -> bool
    ensures { result ≡ nat_le (needs_length needs.now) needs_limit }
{
    let mut left = DEPENDENCY_ID_LIMIT;
    for need in needs {
        match left.checked_sub(need.as_str().len()) {
            None => return false,
            Some(rest) => left = rest,
        }
    }
    true
}

/// Whether the range's last number is not below its first.
fn is_span_in_range(span: &(u32, u32)) -> bool
    ensures { result ≡ is_span_in_range span.now }
{
    let (first, last) = *span;
    first <= last
}

/// Whether there are at most 64 ranges of tasks on which a task depends.
fn are_spans_few(spans: &[(u32, u32)]) -> bool
    ensures { result ≡ nat_le (length spans.now) SPAN_LIMIT }
{
    spans.len() <= DEPENDENCY_RANGE_LIMIT
}

/// Whether the last number of each range is not below its first.
fn are_spans_in_range(spans: &[(u32, u32)]) -> bool
    ensures { result ≡ list_all is_span_in_range spans.now }
{
    spans.iter().all(is_span_in_range)
}

/// Whether the task's slots, limits and instances are in their ranges.
fn has_limits_in_range(task: &TaskRow) -> bool
    ensures { result ≡ (is_slot_count task.now.slots && passes_if_some is_retry_limit task.now.retries && passes_if_some is_duration task.now.wall && passes_if_some is_duration task.now.retention && passes_if_some is_multi_in_range task.now.multi) }
{
    is_slot_count(task.slots)
        && is_retry_limit_if_some(task.settings.retries())
        && is_duration_if_some(task.settings.wall())
        && is_duration_if_some(task.settings.retention())
        && is_multi_in_range(task.settings.multi())
}

/// Whether the task's values are in their ranges.
fn is_task_in_range(task: &TaskRow) -> bool
    ensures { result ≡ is_task_in_range task.now }
{
    has_limits_in_range(task)
        && are_needs_short(task.settings.needs())
        && are_spans_few(task.settings.spans())
        && are_spans_in_range(task.settings.spans())
}

/// Whether the task was closed not after `now`, if it was closed.
fn is_closed_past(now: u64, closed: Option<Closed>) -> bool
    ensures { result ≡ passes_if_some (is_closed_past now) closed }
{
    match closed {
        None => true,
        Some(closed) => closed.at <= now,
    }
}

/// Whether the task was started and closed not after `now`.
fn is_task_past(now: u64, task: &TaskRow) -> bool
    ensures { result ≡ is_task_past now task.now }
{
    is_past_if_some(now, task.started) && is_closed_past(now, task.closed)
}

/// Whether the task has an attempt that is not settled.
fn is_placed(stage: TaskStage) -> bool
    ensures { result ≡ is_placed stage }
{
    stage == TaskStage::Placed
}

/// Whether the task failed at most once in each attempt, and in the present one not yet.
fn has_fitting_failures(task: &TaskRow) -> bool
    ensures { result ≡ has_fitting_failures task.now }
{
    task.failures <= task.attempt && !(is_placed(task.stage) && task.attempt <= task.failures)
}

/// Whether the task's values are in their ranges, its moments not after `now`, in milliseconds since 1970, and its failures fewer
/// than its attempts, or as many if it is not placed.
pub fn is_task_valid(now: u64, task: &TaskRow) -> bool
    ensures { result ≡ is_task_valid now task.now }
{
    is_task_in_range(task) && is_task_past(now, task) && has_fitting_failures(task)
}

/// Whether no end of the task is wanted, and no coordination has failed.
fn is_undisturbed(task: &TaskRow) -> bool
    ensures { result ≡ is_undisturbed task.now }
{
    task.wanted.is_none() && task.fail.is_none()
}

/// Whether the task is placed, if it has a wanted end, an ending in place of its main command's, or a moment at which it started.
pub fn has_fitting_marks(task: &TaskRow) -> bool
    ensures { result ≡ has_fitting_marks task.now }
{
    is_placed(task.stage) || (is_undisturbed(task) && task.started.is_none())
}

/// Whether the task is completed.
fn is_completed(stage: TaskStage) -> bool
    ensures { result ≡ is_completed stage }
{
    stage == TaskStage::Completed
}

/// Whether the task is closed exactly if it is completed.
pub fn is_closed_if_completed(task: &TaskRow) -> bool
    ensures { result ≡ is_closed_if_completed task.now }
{
    let completed = is_completed(task.stage);
    (completed && task.closed.is_some()) || (!completed && task.closed.is_none())
}
