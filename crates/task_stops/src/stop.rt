//! The changes that stop tasks.
ghost use Rattle.std.specs.Prelude.{◌≡◌, ◌&&◌, ◌++◌, Some, IfOk, OnOk};
ghost use Rattle.std.specs.List.{list_any};
ghost use Rattle.bt_rows.specs.declared.tables.Change.TheVariants.{PutRun, PutTask};
ghost use Rattle.batch_model.specs.Preparing.{is_waiting_on, waits_on};
ghost use Rattle.batch_model.specs.Rows.{is_task};
ghost use Rattle.batch_model.specs.Runs.{is_present};
ghost use Rattle.batch_model.specs.Stops.{is_stopped, is_run_of_stopped};
ghost use Rattle.batch_model.specs.WellFormed.{KeysAreDistinct};
ghost use Rattle.row_changes.specs.Puts.{puts_of};
ghost use Rattle.task_stops.specs.StopChanges.{is_among, stopped_test, is_to_halt, halted_run, stopped_task, stop_changes};

use crate::leaving::{LeavingNodes, has_run_on};
use crate::rows::{halted, wanting};
use bt_base::{Id, NoMemory};
use bt_rows::prep::PrepRow;
use bt_rows::run::{RunRow, RunState};
use bt_rows::tables::{Change, Tables};
use bt_rows::task::{TaskKey, TaskRow, Want};
use table_scans::{is_at_prep, is_placed, is_present, is_unended};

/// Which tasks are stopped, if they are placed.
#[derive(Drop)]
pub enum Stopped {
    /// All tasks of a job.
    OfJob(Id),
    /// One task.
    One(TaskKey),
    /// The tasks of which a run of the present attempt waits for the preparation.
    WaitingFor(PrepRow),
    /// All tasks of a job but for one.
    OthersOfJob(Id, TaskKey),
    /// The tasks of which a run of the present attempt is on a node that leaves.
    OnNodes(LeavingNodes),
}

/// Whether the run waits for the preparation.
pub fn waits_on(prep: &PrepRow, run: &RunRow) -> bool
    ensures { result ≡ waits_on prep.now run.now }
{
    run.state == RunState::Waiting && is_at_prep(prep, run)
}

/// Whether the run is of the task's present attempt, and waits for the preparation.
fn is_present_waiting(task: &TaskRow, prep: &PrepRow, run: &RunRow) -> bool
    ensures { result ≡ (is_present task.now run.now && waits_on prep.now run.now) }
{
    is_present(task, run) && waits_on(prep, run)
}

/// Whether a run of the task's present attempt waits for the preparation.
fn has_waiting_run(tables: &Tables, prep: &PrepRow, task: &TaskRow) -> bool
    ensures { result ≡ list_any (λ run. is_present task.now run && waits_on prep.now run) tables.now.state.runs }
{
    tables.runs().any(|run| is_present_waiting(task, prep, run))
}

/// Whether the task is of the preparation's job, and a run of its present attempt waits for the preparation.
fn is_waiting_on(tables: &Tables, prep: &PrepRow, task: &TaskRow) -> bool
    ensures { result ≡ is_waiting_on tables.now.state prep.now task.now }
{
    task.job.same(&prep.job) && has_waiting_run(tables, prep, task)
}

/// Whether the task is the one with this key.
fn has_key(key: &TaskKey, task: &TaskRow) -> bool
    ensures { result ≡ is_task key.now.job key.now.id task.now }
{
    task.job.same(&key.job) && task.id.same(&key.id)
}

/// Whether the task is among these.
fn is_among(tables: &Tables, which: &Stopped, task: &TaskRow) -> bool
    ensures { result ≡ is_among tables.now.state which.now task.now }
{
    match which {
        Stopped::OfJob(job) => task.job.same(job),
        Stopped::One(key) => has_key(key, task),
        Stopped::WaitingFor(prep) => is_waiting_on(tables, prep, task),
        Stopped::OthersOfJob(job, key) => task.job.same(job) && !has_key(key, task),
        Stopped::OnNodes(nodes) => has_run_on(tables, nodes, task),
    }
}

/// Whether the task is a placed one among these.
fn is_stopped(tables: &Tables, which: &Stopped, task: &TaskRow) -> bool
    ensures { result ≡ is_stopped (is_among tables.now.state which.now) task.now }
{
    is_placed(task.stage) && is_among(tables, which, task)
}

/// Whether the task is a placed one among these, and the run is of its present attempt.
fn is_stopped_with(tables: &Tables, which: &Stopped, task: &TaskRow, run: &RunRow) -> bool
    ensures { result ≡ stopped_test (is_among tables.now.state which.now) run.now task.now }
{
    is_stopped(tables, which, task) && is_present(task, run)
}

/// Whether the run, which names this task, is of the present attempt of a placed task among these.
fn is_named_stopped(tables: &Tables, which: &Stopped, of_job: &Id, id: &Id, run: &RunRow) -> bool
    requires keys { KeysAreDistinct tables.now.state }
    requires job { run.now.job ≡ Some of_job.now }
    requires task { run.now.task ≡ Some id.now }
    ensures { result ≡ is_run_of_stopped (is_among tables.now.state which.now) tables.now.state run.now }
{
    match tables.find_task(of_job, id) {
        None => false,
        Some(task) => is_stopped_with(tables, which, task, run),
    }
}

/// Whether the run is of the present attempt of a placed task among these.
fn is_run_of_stopped(tables: &Tables, which: &Stopped, run: &RunRow) -> bool
    requires { KeysAreDistinct tables.now.state }
    ensures { result ≡ is_run_of_stopped (is_among tables.now.state which.now) tables.now.state run.now }
{
    match &run.job {
        None => false,
        Some(of_job) => match &run.task {
            None => false,
            Some(id) => is_named_stopped(tables, which, of_job, id, run),
        },
    }
}

/// Whether the run is to be halted with these tasks.
fn is_to_halt(tables: &Tables, which: &Stopped, run: &RunRow) -> bool
    requires { KeysAreDistinct tables.now.state }
    ensures { result ≡ is_to_halt (is_among tables.now.state which.now) tables.now.state run.now }
{
    is_unended(run.state) && is_run_of_stopped(tables, which, run)
}

/// The run after it is halted at `now`, if it is to be halted with these tasks.
fn halted_run(
    tables: &Tables,
    now: u64,
    which: &Stopped,
    run: &RunRow,
) -> Result<Option<RunRow>, NoMemory>
    requires { KeysAreDistinct tables.now.state }
    ensures { IfOk result (λ row. row ≡ halted_run (is_among tables.now.state which.now) now tables.now.state run.now) }
{
    if is_to_halt(tables, which, run) {
        Ok(Some(halted(now, run)?))
    } else {
        Ok(None)
    }
}

/// The task, of which the end is wanted, if it is a placed one among these.
fn stopped_task(
    tables: &Tables,
    which: &Stopped,
    want: Want,
    task: &TaskRow,
) -> Result<Option<TaskRow>, NoMemory>
    ensures { IfOk result (λ row. row ≡ stopped_task (is_among tables.now.state which.now) want task.now) }
{
    if is_stopped(tables, which, task) {
        Ok(Some(wanting(want, task)?))
    } else {
        Ok(None)
    }
}

/// Adds the puts of the runs that are halted.
fn push_halted(
    changes: &mut Vec<Change>,
    tables: &Tables,
    now: u64,
    which: &Stopped,
) -> Result<(), NoMemory>
    requires { KeysAreDistinct tables.now.state }
    ensures { OnOk result (changes.new.items ≡ changes.old.items ++ puts_of PutRun (halted_run (is_among tables.now.state which.now) now tables.now.state) tables.now.state.runs) }
{
    let alloc = *changes.allocator();
    for run in tables.runs() {
        if let Some(row) = halted_run(tables, now, which, run)? {
            changes.push(Change::put_run(alloc, row)?)?;
        }
    }
    Ok(())
}

/// Adds the puts of the tasks of which the end is wanted.
fn push_wanted(
    changes: &mut Vec<Change>,
    tables: &Tables,
    which: &Stopped,
    want: Want,
) -> Result<(), NoMemory>
    ensures { OnOk result (changes.new.items ≡ changes.old.items ++ puts_of PutTask (stopped_task (is_among tables.now.state which.now) want) tables.now.state.tasks) }
{
    let alloc = *changes.allocator();
    for task in tables.tasks() {
        if let Some(row) = stopped_task(tables, which, want, task)? {
            changes.push(Change::put_task(alloc, row)?)?;
        }
    }
    Ok(())
}

/// Adds the changes that stop these tasks, as far as they are placed, at `now`, in milliseconds since 1970: the end is wanted of each, and the runs of
/// their present attempts are halted. The only error is out of memory.
pub fn push_stop(
    changes: &mut Vec<Change>,
    tables: &Tables,
    now: u64,
    which: &Stopped,
    want: Want,
) -> Result<(), NoMemory>
    requires { KeysAreDistinct tables.now.state }
    ensures { OnOk result (changes.new.items ≡ changes.old.items ++ stop_changes (is_among tables.now.state which.now) want now tables.now.state) }
{
    push_halted(changes, tables, now, which)?;
    push_wanted(changes, tables, which, want)
}
