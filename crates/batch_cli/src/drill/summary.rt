//! The line that sums up a drill.
ghost use Rattle.std.specs.Prelude.{◌≡◌, ◌≤◌, IfOk, OnOk, OnErr, IsErrOf, count_by, string_bytes};
ghost use Rattle.bt_base.specs.Causes.{Rose};
ghost use Rattle.byte_streams.specs.Content.{Gains, GainsFront};
ghost use Rattle.batch_model.specs.Tasks.{is_in_job};
ghost use Rattle.batch_cli.specs.Drill.{is_success, has_success, has_failure, is_waiting, is_run_of, counts_of, counts_line, summary_text};

use crate::drill::request::drill_id;
use crate::stopped::Stopped;
use bt_base::{Id, NoMemory};
use bt_rows::tables::Tables;
use bt_rows::task::{Closed, TaskRow, TaskStage};
use byte_streams::{Sink, write_all};
use std::alloc::Global;
use table_scans::{is_active, names};

/// The rows of a job, counted.
#[derive(Clone, Copy, Debug, PartialEq, Eq)]
pub struct DrillCounts {
    /// The tasks of the job.
    pub tasks: usize,
    /// Those that were completed with success.
    pub success: usize,
    /// Those that were completed without success.
    pub failure: usize,
    /// Those that are active.
    pub active: usize,
    /// The runs that name the job.
    pub runs: usize,
}

/// Whether the task is one of the job.
fn is_in_job(job: &Id, task: &TaskRow) -> bool
    ensures { result ≡ is_in_job job.now task.now }
{
    task.job.same(job)
}

/// Whether the end is a success.
fn is_success(closed: Option<Closed>) -> bool
    ensures { result ≡ is_success closed }
{
    match closed {
        None => false,
        Some(closed) => closed.success,
    }
}

/// Whether the task is one of the job that was completed with success.
fn has_success(job: &Id, task: &TaskRow) -> bool
    ensures { result ≡ has_success job.now task.now }
{
    is_in_job(job, task) && (task.stage == TaskStage::Completed && is_success(task.closed))
}

/// Whether the task is one of the job that was completed without success.
fn has_failure(job: &Id, task: &TaskRow) -> bool
    ensures { result ≡ has_failure job.now task.now }
{
    is_in_job(job, task) && (task.stage == TaskStage::Completed && !is_success(task.closed))
}

/// Whether the task is one of the job that is active.
fn is_waiting(job: &Id, task: &TaskRow) -> bool
    ensures { result ≡ is_waiting job.now task.now }
{
    is_in_job(job, task) && is_active(task.stage)
}

/// How many tasks the job has.
fn task_count(tables: &Tables, job: &Id) -> usize
    ensures { result ≡ count_by (is_in_job job.now) tables.now.state.tasks }
{
    let _few = tables.task_count();
    tables.tasks().filter(|task| is_in_job(job, task)).count()
}

/// How many tasks of the job were completed with success.
fn success_count(tables: &Tables, job: &Id) -> usize
    ensures { result ≡ count_by (has_success job.now) tables.now.state.tasks }
{
    let _few = tables.task_count();
    tables.tasks().filter(|task| has_success(job, task)).count()
}

/// How many tasks of the job were completed without success.
fn failure_count(tables: &Tables, job: &Id) -> usize
    ensures { result ≡ count_by (has_failure job.now) tables.now.state.tasks }
{
    let _few = tables.task_count();
    tables.tasks().filter(|task| has_failure(job, task)).count()
}

/// How many tasks of the job are active.
fn active_count(tables: &Tables, job: &Id) -> usize
    ensures { result ≡ count_by (is_waiting job.now) tables.now.state.tasks }
{
    let _few = tables.task_count();
    tables.tasks().filter(|task| is_waiting(job, task)).count()
}

/// How many runs name the job.
fn run_count(tables: &Tables, job: &Id) -> usize
    ensures { result ≡ count_by (is_run_of job.now) tables.now.state.runs }
{
    let _few = tables.run_place_count();
    tables.places_known();
    tables.runs().filter(|run| names(&run.job, job)).count()
}

/// The rows of the job, counted.
fn counts_of(tables: &Tables, job: &Id) -> DrillCounts
    ensures { result ≡ counts_of job.now tables.now.state }
{
    DrillCounts {
        tasks: task_count(tables, job),
        success: success_count(tables, job),
        failure: failure_count(tables, job),
        active: active_count(tables, job),
        runs: run_count(tables, job),
    }
}

/// The line of these counts after a drill of this number of tasks. It fails only when out of memory.
#[tactic(auto, unfolding(crate::specs::Drill::counts_line))]
fn counts_line(alloc: Global, count: u32, counts: DrillCounts) -> Result<String, NoMemory>
    ensures { IfOk result (λ text. string_bytes text ≡ counts_line count counts) }
{
    let DrillCounts {
        tasks,
        success,
        failure,
        active,
        runs,
    } = counts;
    let mut out = String::new(alloc);
    write!(out, "drill {count} tasks {tasks} success {success} ")?;
    writeln!(out, "failure {failure} active {active} runs {runs}")?;
    Ok(out)
}

/// The line that sums up the tables after a drill of this number of tasks. It fails only when out of memory.
fn summary(alloc: Global, count: u32, tables: &Tables) -> Result<String, NoMemory>
    ensures { IfOk result (λ text. string_bytes text ≡ summary_text count tables.now.state) }
{
    let job = drill_id(alloc)?;
    counts_line(alloc, count, counts_of(tables, &job))
}

/// Writes the line that sums up the tables after a drill of this number of tasks.
pub fn write_summary<W: Sink>(
    alloc: Global,
    count: u32,
    tables: &Tables,
    sink: &mut W,
) -> Result<(), Stopped>
    ensures ok { OnOk result (Gains (W.taken sink.old) (W.taken sink.new) (summary_text count tables.now.state)) }
    ensures err { OnErr result (GainsFront (W.taken sink.old) (W.taken sink.new) (summary_text count tables.now.state)) }
    ensures later { W.faults sink.old ≤ W.faults sink.new }
    ensures fault { IsErrOf result Stopped.SinkFault → Rose (W.faults sink.old) (W.faults sink.new) }
{
    let text = summary(alloc, count, tables)?;
    write_all(sink, text.as_str().as_bytes())?;
    Ok(())
}
