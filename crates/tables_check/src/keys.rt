//! Keys that some rows have.
ghost use Rattle.std.specs.Prelude.{◌≡◌, ◌&&◌, IfOk};
ghost use Rattle.bt_rows.specs.Metrics.{place_of_metric};
ghost use Rattle.batch_model.specs.Runs.{is_unended, is_start, is_preparation};
ghost use Rattle.tables_check.specs.RowKeys.{start_key, preparation_key, attempt_text, text_of_attempt, attempt_key, placed_key, metric_text, metric_key};

use bt_base::{Id, List, NoMemory};
use bt_rows::run::{RunKind, RunRow, RunState};
use bt_rows::sample::{Metric, SampleRow};
use bt_rows::task::{TaskRow, TaskStage};
use kept_table::KeyText;
use row_keys::{RowKey, key_of_text};
use std::alloc::Global;

/// The node of an unended start run.
pub struct StartOnNode;

/// The node and the job of an unended preparation run.
pub struct PreparationOnNode;

/// The attempt of which a run is the main one.
pub struct MainOfAttempt;

/// The job of a placed task.
pub struct PlacedInJob;

/// The pool and the metric of a sample.
pub struct MetricOfPool;

/// Whether the run is waiting, queued or taken.
fn is_unended(state: RunState) -> bool
    ensures { result ≡ is_unended state }
{
    !matches!(state, RunState::Ended(_) | RunState::Withdrawn)
}

/// Whether the run is an unended one of a start task.
fn is_starting(run: &RunRow) -> bool
    ensures { result ≡ (is_start run.now.kind && is_unended run.now.state) }
{
    run.kind == RunKind::Start && is_unended(run.state)
}

impl RowKey for StartOnNode {
    type Row = RunRow;

    ghost key = { start_key };

    fn key(alloc: Global, run: &RunRow) -> Result<Option<List<u8>>, NoMemory> {
        if is_starting(run) {
            let text = KeyText::of_number(run.node);
            Ok(Some(key_of_text(alloc, &text)?))
        } else {
            Ok(None)
        }
    }
}

/// Whether the run is an unended one of a job's preparation.
fn is_preparing(run: &RunRow) -> bool
    ensures { result ≡ (is_preparation run.now.kind && is_unended run.now.state) }
{
    run.kind == RunKind::Prep && is_unended(run.state)
}

impl RowKey for PreparationOnNode {
    type Row = RunRow;

    ghost key = { preparation_key };

    fn key(alloc: Global, run: &RunRow) -> Result<Option<List<u8>>, NoMemory> {
        if !is_preparing(run) {
            return Ok(None);
        }
        match &run.job {
            None => Ok(None),
            Some(job) => {
                let text = KeyText::of_number_and_id(run.node, job);
                Ok(Some(key_of_text(alloc, &text)?))
            }
        }
    }
}

/// The text of an attempt of the job's task with this id.
fn attempt_text(alloc: Global, job: &Id, id: &Id, attempt: u64) -> Result<List<u8>, NoMemory>
    ensures { IfOk result (λ text. text ≡ attempt_text job.now id.now attempt) }
{
    let mut text = Vec::from_slice(alloc, KeyText::of_number(attempt).as_slice())?;
    text.extend_from_slice(KeyText::of_ids(job, id).as_slice())?;
    Ok(List::of_vec(text))
}

/// The text of the attempt that the run is of. None if it names no job or no task.
fn text_of_run(alloc: Global, run: &RunRow) -> Result<Option<List<u8>>, NoMemory>
    ensures { IfOk result (λ text. text ≡ text_of_attempt run.now.job run.now.task run.now.attempt) }
{
    let Some(job) = &run.job else {
        return Ok(None);
    };
    let Some(id) = &run.task else {
        return Ok(None);
    };
    Ok(Some(attempt_text(alloc, job, id, run.attempt)?))
}

impl RowKey for MainOfAttempt {
    type Row = RunRow;

    ghost key = { attempt_key };

    fn key(alloc: Global, run: &RunRow) -> Result<Option<List<u8>>, NoMemory> {
        if run.kind == RunKind::Task {
            text_of_run(alloc, run)
        } else {
            Ok(None)
        }
    }
}

impl RowKey for PlacedInJob {
    type Row = TaskRow;

    ghost key = { placed_key };

    fn key(alloc: Global, task: &TaskRow) -> Result<Option<List<u8>>, NoMemory> {
        if task.stage == TaskStage::Placed {
            let text = KeyText::of_id(&task.job);
            Ok(Some(key_of_text(alloc, &text)?))
        } else {
            Ok(None)
        }
    }
}

/// The number by which a metric stands in texts of keys.
fn metric_number(metric: Metric) -> u8
    ensures { result ≡ place_of_metric metric }
{
    match metric {
        Metric::CpuPercent => 0,
        Metric::ActiveTasks => 1,
        Metric::RunningTasks => 2,
        Metric::PendingTasks => 3,
        Metric::SucceededTasks => 4,
        Metric::FailedTasks => 5,
        Metric::TaskSlotsPerNode => 6,
        Metric::CurrentDedicatedNodes => 7,
        Metric::CurrentLowPriorityNodes => 8,
        Metric::PreemptedNodeCount => 9,
    }
}

/// The text of a pool's metric.
pub fn metric_text(pool: &Id, metric: Metric) -> KeyText
    ensures { result ≡ metric_text pool.now metric }
{
    let mut text = KeyText::new();
    text.push(metric_number(metric));
    text.push_id(pool);
    text
}

impl RowKey for MetricOfPool {
    type Row = SampleRow;

    ghost key = { metric_key };

    fn key(alloc: Global, sample: &SampleRow) -> Result<Option<List<u8>>, NoMemory> {
        let text = metric_text(&sample.pool, sample.metric);
        Ok(Some(key_of_text(alloc, &text)?))
    }
}
