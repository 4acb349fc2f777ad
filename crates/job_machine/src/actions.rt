//! The completion of a task, and what it does to the task's job if the job asks for it (Azure: onTaskFailure).
ghost use Rattle.std.specs.Prelude.{◌≡◌, Some, IfOk, false};
ghost use Rattle.bt_rows.specs.Changes.{apply_changes};
ghost use Rattle.batch_model.specs.Finding.{Each};
ghost use Rattle.batch_model.specs.Rows.{job_of, put_task};
ghost use Rattle.batch_model.specs.Settling.{act, act_if_asked, task_failed};
ghost use Rattle.batch_model.specs.Sound.{names_no_task};
ghost use Rattle.batch_model.specs.Tasks.{completed, is_placed};
ghost use Rattle.batch_model.specs.Variants.{ToDisable, ToTerminate};
ghost use Rattle.batch_model.specs.WellFormed.{KeysAreDistinct};
ghost use Rattle.job_machine.specs.Settled.{IsFirstOver};

use crate::change::can_disable;
use bt_base::{NoMemory, Shared, Text};
use bt_rows::job::JobRow;
use bt_rows::tables::{Change, Tables};
use bt_rows::task::{Closed, JobAction, TaskRow};
use std::alloc::Global;
use table_scans::is_past;
use task_requests::completed;
use task_stops::{disable_after_put, terminate_after_put};

/// The reason of a job that a failed task terminated.
fn task_failed(alloc: Global) -> Result<Text, NoMemory>
    ensures { IfOk result (λ reason. reason ≡ task_failed) }
{
    Text::of_string(String::from_str(alloc, "TaskFailed")?)
}

/// The changes that disable the job after this row of a task was put, if it can be disabled: its placed tasks are requeued.
fn disable(
    alloc: Global,
    tables: &Tables,
    row: &TaskRow,
    job: &JobRow,
) -> Result<Vec<Change>, NoMemory>
    requires keys { KeysAreDistinct tables.now.state }
    requires out { is_placed row.now.stage ≡ false }
    requires there { job_of tables.now.state job.now.id ≡ Some job.now }
    ensures { IfOk result (λ changes. apply_changes changes.items (put_task row.now tables.now.state) ≡ act ToDisable job.now (put_task row.now tables.now.state)) }
{
    if can_disable(job.state) {
        disable_after_put(alloc, tables, row, job)
    } else {
        Ok(Vec::new(alloc))
    }
}

/// The changes that terminate the job after this row of a task was put, if it is not terminating, completed or deleting.
fn terminate(
    alloc: Global,
    tables: &Tables,
    row: &TaskRow,
    job: &JobRow,
) -> Result<Vec<Change>, NoMemory>
    requires keys { KeysAreDistinct tables.now.state }
    requires out { is_placed row.now.stage ≡ false }
    requires there { job_of tables.now.state job.now.id ≡ Some job.now }
    requires apart { Each names_no_task tables.now.state.runs }
    ensures { IfOk result (λ changes. apply_changes changes.items (put_task row.now tables.now.state) ≡ act ToTerminate job.now (put_task row.now tables.now.state)) }
{
    if is_past(job.state) {
        return Ok(Vec::new(alloc));
    }
    let why = task_failed(alloc)?;
    terminate_after_put(alloc, tables, why, row, job)
}

/// The changes of the action on the job after this row of a task was put.
fn act(
    alloc: Global,
    tables: &Tables,
    action: JobAction,
    row: &TaskRow,
    job: &JobRow,
) -> Result<Vec<Change>, NoMemory>
    requires keys { KeysAreDistinct tables.now.state }
    requires out { is_placed row.now.stage ≡ false }
    requires there { job_of tables.now.state job.now.id ≡ Some job.now }
    requires apart { Each names_no_task tables.now.state.runs }
    ensures { IfOk result (λ changes. apply_changes changes.items (put_task row.now tables.now.state) ≡ act action job.now (put_task row.now tables.now.state)) }
{
    match action {
        JobAction::Nothing => Ok(Vec::new(alloc)),
        JobAction::Disable => disable(alloc, tables, row, job),
        JobAction::Terminate => terminate(alloc, tables, row, job),
    }
}

/// The changes of the action on the job after this row of a task was put, if the job asks for such actions.
fn act_if_asked(
    alloc: Global,
    tables: &Tables,
    action: JobAction,
    row: &TaskRow,
    job: &JobRow,
) -> Result<Vec<Change>, NoMemory>
    requires keys { KeysAreDistinct tables.now.state }
    requires out { is_placed row.now.stage ≡ false }
    requires there { job_of tables.now.state job.now.id ≡ Some job.now }
    requires apart { Each names_no_task tables.now.state.runs }
    ensures { IfOk result (λ changes. apply_changes changes.items (put_task row.now tables.now.state) ≡ act_if_asked action job.now (put_task row.now tables.now.state)) }
{
    if job.on_fail {
        act(alloc, tables, action, row, job)
    } else {
        Ok(Vec::new(alloc))
    }
}

/// The changes that complete the task, closed in this way, and do the action to its job if the job asks for such actions. The only
/// error is out of memory.
pub fn complete(
    alloc: Global,
    tables: &Tables,
    job: &JobRow,
    task: &TaskRow,
    closed: Closed,
    action: JobAction,
) -> Result<Vec<Change>, NoMemory>
    requires over { IsFirstOver tables.now.state task.now }
    requires there { job_of tables.now.state job.now.id ≡ Some job.now }
    ensures { IfOk result (λ changes. apply_changes changes.items tables.now.state ≡ act_if_asked action job.now (put_task (completed closed task.now) tables.now.state)) }
{
    let done = completed(closed, task)?;
    let mut later = act_if_asked(alloc, tables, action, &done, job)?;
    let row = Shared::new(alloc, done)?;
    let mut changes = vec![in alloc; Change::PutTask(row)]?;
    changes.append(&mut later)?;
    Ok(changes)
}
