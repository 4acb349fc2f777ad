//! The changes that disable a job, and those that terminate it, after a row of one of its tasks was put that is not placed. They are
//! read off the tables before the put, in which the task may be placed: so it is left out of the tasks that are stopped.
ghost use Rattle.std.specs.Prelude.{◌≡◌, ◌++◌, Some, IfOk, OnOk, false};
ghost use Rattle.bt_rows.specs.Changes.{apply_changes};
ghost use Rattle.bt_rows.specs.declared.event.DisableTasks.TheVariants.{Requeue};
ghost use Rattle.batch_model.specs.Finding.{Each};
ghost use Rattle.batch_model.specs.Rows.{job_of, put_task};
ghost use Rattle.batch_model.specs.Sound.{names_no_task};
ghost use Rattle.batch_model.specs.Stops.{disable, terminate};
ghost use Rattle.batch_model.specs.Tasks.{is_in_job, is_placed};
ghost use Rattle.batch_model.specs.WellFormed.{KeysAreDistinct};
ghost use Rattle.task_stops.specs.StopChanges.{stop_changes};
ghost use Rattle.task_stops.specs.declared.stop.Stopped.TheVariants.{OthersOfJob};

use crate::jobs::{job_for, job_in, push_halt_of_job};
use crate::stop::{Stopped, push_stop};
use bt_base::{Duplicate, Id, NoMemory, Shared, Text};
use bt_rows::job::{JobRow, JobState};
use bt_rows::tables::{Change, Tables};
use bt_rows::task::{TaskKey, TaskRow, Want};
use std::alloc::Global;

/// All tasks of the job but for the one of this row.
fn others(job: &Id, row: &TaskRow) -> Result<Stopped, NoMemory>
    ensures { IfOk result (λ which. which ≡ OthersOfJob job.now (record { job = row.now.job; id = row.now.id })) }
{
    let of_job = job.copy()?;
    let job = row.job.copy()?;
    let id = row.id.copy()?;
    Ok(Stopped::OthersOfJob(of_job, TaskKey { job, id }))
}

/// Adds the changes that stop the job's placed tasks at the tables' moment after the row was put.
fn push_stop_after_put(
    changes: &mut Vec<Change>,
    tables: &Tables,
    row: &TaskRow,
    job: &Id,
    want: Want,
) -> Result<(), NoMemory>
    requires keys { KeysAreDistinct tables.now.state }
    requires out { is_placed row.now.stage ≡ false }
    ensures { OnOk result (changes.new.items ≡ changes.old.items ++ stop_changes (is_in_job job.now) want tables.now.state.moment (put_task row.now tables.now.state)) }
{
    let which = others(job, row)?;
    push_stop(changes, tables, tables.moment(), &which, want)
}

/// The changes that disable the job at the tables' moment, after this row of a task was put: it is disabling, and its placed tasks are
/// requeued. The only error is out of memory.
pub fn disable_after_put(
    alloc: Global,
    tables: &Tables,
    row: &TaskRow,
    job: &JobRow,
) -> Result<Vec<Change>, NoMemory>
    requires keys { KeysAreDistinct tables.now.state }
    requires out { is_placed row.now.stage ≡ false }
    requires there { job_of tables.now.state job.now.id ≡ Some job.now }
    ensures { IfOk result (λ changes. apply_changes changes.items (put_task row.now tables.now.state) ≡ disable job.now Requeue (put_task row.now tables.now.state)) }
{
    let disabling = Shared::new(alloc, job_in(JobState::Disabling, job)?)?;
    let mut changes = vec![in alloc; Change::PutJob(disabling)]?;
    push_stop_after_put(&mut changes, tables, row, &job.id, Want::Requeue)?;
    Ok(changes)
}

/// The changes that terminate the job for the reason at the tables' moment, after this row of a task was put: it is terminating, its
/// placed tasks are to be terminated, and its preparations are halted. The only error is out of memory.
pub fn terminate_after_put(
    alloc: Global,
    tables: &Tables,
    reason: Text,
    row: &TaskRow,
    job: &JobRow,
) -> Result<Vec<Change>, NoMemory>
    requires keys { KeysAreDistinct tables.now.state }
    requires out { is_placed row.now.stage ≡ false }
    requires there { job_of tables.now.state job.now.id ≡ Some job.now }
    requires apart { Each names_no_task tables.now.state.runs }
    ensures { IfOk result (λ changes. apply_changes changes.items (put_task row.now tables.now.state) ≡ terminate reason job.now (put_task row.now tables.now.state)) }
{
    let terminating = Shared::new(alloc, job_for(JobState::Terminating, reason, job)?)?;
    let mut changes = vec![in alloc; Change::PutJob(terminating)]?;
    push_stop_after_put(&mut changes, tables, row, &job.id, Want::Terminate)?;
    push_halt_of_job(&mut changes, tables, tables.moment(), &job.id)?;
    Ok(changes)
}
