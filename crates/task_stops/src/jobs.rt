//! The changes that disable a job, and those that close it.
ghost use Rattle.std.specs.Prelude.{◌≡◌, ◌++◌, Some, IfOk, OnOk};
ghost use Rattle.bt_rows.specs.Changes.{apply_changes};
ghost use Rattle.batch_model.specs.Finding.{Each};
ghost use Rattle.batch_model.specs.Jobs.{job_in};
ghost use Rattle.batch_model.specs.Rows.{job_of};
ghost use Rattle.batch_model.specs.Runs.{prepares};
ghost use Rattle.batch_model.specs.Sound.{names_no_task};
ghost use Rattle.batch_model.specs.Stops.{close, disable, job_for};
ghost use Rattle.batch_model.specs.Tasks.{is_in_job};
ghost use Rattle.batch_model.specs.WellFormed.{KeysAreDistinct};
ghost use Rattle.machine_plans.specs.Plans.{with_moment};
ghost use Rattle.task_stops.specs.HaltChanges.{halt_changes};
ghost use Rattle.task_stops.specs.StopChanges.{stop_changes, stop_changes_for};

use crate::halt::{Halted, push_halt};
use crate::stop::{Stopped, push_stop};
use bt_base::{Duplicate, Id, NoMemory, Shared, Text};
use bt_rows::event::DisableTasks;
use bt_rows::job::{JobRow, JobState};
use bt_rows::tables::{Change, Tables};
use bt_rows::task::Want;
use std::alloc::Global;

/// The job in this state.
pub fn job_in(state: JobState, job: &JobRow) -> Result<JobRow, NoMemory>
    ensures { IfOk result (λ row. row ≡ job_in state job.now) }
{
    let mut row = job.copy()?;
    row.state = state;
    Ok(row)
}

/// The job in this state for a reason.
pub fn job_for(state: JobState, reason: Text, job: &JobRow) -> Result<JobRow, NoMemory>
    ensures { IfOk result (λ row. row ≡ job_for state reason job.now) }
{
    let mut row = job_in(state, job)?;
    row.reason = Some(reason);
    Ok(row)
}

/// Adds the changes that stop the job's placed tasks.
fn push_stop_of_job(
    changes: &mut Vec<Change>,
    tables: &Tables,
    now: u64,
    job: &Id,
    want: Want,
) -> Result<(), NoMemory>
    requires { KeysAreDistinct tables.now.state }
    ensures { OnOk result (changes.new.items ≡ changes.old.items ++ stop_changes (is_in_job job.now) want now tables.now.state) }
{
    let which = Stopped::OfJob(job.copy()?);
    push_stop(changes, tables, now, &which, want)
}

/// Adds the changes that stop the job's placed tasks as the option says; waiting stops none.
fn push_stop_for(
    changes: &mut Vec<Change>,
    tables: &Tables,
    now: u64,
    option: DisableTasks,
    job: &Id,
) -> Result<(), NoMemory>
    requires { KeysAreDistinct tables.now.state }
    ensures { OnOk result (changes.new.items ≡ changes.old.items ++ stop_changes_for option job.now now tables.now.state) }
{
    match option {
        DisableTasks::Requeue => push_stop_of_job(changes, tables, now, job, Want::Requeue),
        DisableTasks::Terminate => push_stop_of_job(changes, tables, now, job, Want::Terminate),
        DisableTasks::Wait => Ok(()),
    }
}

/// Adds the changes that halt the job's preparations.
pub fn push_halt_of_job(
    changes: &mut Vec<Change>,
    tables: &Tables,
    now: u64,
    job: &Id,
) -> Result<(), NoMemory>
    ensures { OnOk result (changes.new.items ≡ changes.old.items ++ halt_changes (prepares job.now) now tables.now.state) }
{
    let which = Halted::OfJob(job.copy()?);
    push_halt(changes, tables, now, &which)
}

/// The changes that disable the job at `now`, in milliseconds since 1970: it is disabling, and its placed tasks are stopped as the
/// option says. The only error is out of memory.
pub fn disable(
    alloc: Global,
    tables: &Tables,
    now: u64,
    option: DisableTasks,
    job: &JobRow,
) -> Result<Vec<Change>, NoMemory>
    requires keys { KeysAreDistinct tables.now.state }
    requires there { job_of tables.now.state job.now.id ≡ Some job.now }
    ensures { IfOk result (λ changes. apply_changes changes.items (with_moment now tables.now.state) ≡ disable job.now option (with_moment now tables.now.state)) }
{
    let row = Shared::new(alloc, job_in(JobState::Disabling, job)?)?;
    let mut changes = vec![in alloc; Change::PutJob(row)]?;
    push_stop_for(&mut changes, tables, now, option, &job.id)?;
    Ok(changes)
}

/// The changes that close the job at `now`, in milliseconds since 1970: it goes into the state for the reason, its placed tasks are
/// to be terminated, and its preparations are halted. The only error is out of memory.
pub fn close(
    alloc: Global,
    tables: &Tables,
    now: u64,
    state: JobState,
    reason: Text,
    job: &JobRow,
) -> Result<Vec<Change>, NoMemory>
    requires keys { KeysAreDistinct tables.now.state }
    requires there { job_of tables.now.state job.now.id ≡ Some job.now }
    requires apart { Each names_no_task tables.now.state.runs }
    ensures { IfOk result (λ changes. apply_changes changes.items (with_moment now tables.now.state) ≡ close state reason job.now (with_moment now tables.now.state)) }
{
    let row = Shared::new(alloc, job_for(state, reason, job)?)?;
    let mut changes = vec![in alloc; Change::PutJob(row)]?;
    push_stop_of_job(&mut changes, tables, now, &job.id, Want::Terminate)?;
    push_halt_of_job(&mut changes, tables, now, &job.id)?;
    Ok(changes)
}
