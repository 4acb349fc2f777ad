//! Events that change or drop one task: `delete-task`, `terminate-task` and `reactivate-task`.
ghost use Rattle.std.specs.Prelude.{◌≡◌, IfOk, Some, false};
ghost use Rattle.std.specs.Option.{option_map_or};
ghost use Rattle.bt_rows.specs.declared.refusal.Refusal.TheVariants.{JobNotFound};
ghost use Rattle.batch_model.specs.Events.{accept, can_reactivate, delete_found, delete_task, for_row, reactivate_found, reactivate_task, reactivated, task_terminated, terminate_found, terminate_task};
ghost use Rattle.batch_model.specs.Rows.{is_task, job_of, put_task, task_of};
ghost use Rattle.batch_model.specs.Settling.{drop_task};
ghost use Rattle.batch_model.specs.Stops.{stop};
ghost use Rattle.batch_model.specs.Tasks.{terminated};
ghost use Rattle.batch_model.specs.Variants.{Closed};
ghost use Rattle.batch_model.specs.WellFormed.{KeysAreDistinct};
ghost use Rattle.machine_plans.specs.Plans.{IsAnswer, IsPlanOf, with_moment};

use crate::removal::drop_changes;
use crate::task_rows::terminated;
use bt_base::{Duplicate, Fail, Id, NoMemory, Shared};
use bt_rows::job::{JobRow, JobState};
use bt_rows::plan::Plan;
use bt_rows::refusal::Refusal;
use bt_rows::tables::{Change, Tables};
use bt_rows::task::{Closed, TaskRow, TaskStage, Want};
use machine_plans::{accept_listed, accept_one};
use std::alloc::Global;
use table_scans::{is_past, is_placed};
use task_stops::stop_task_at;

/// The plan that stops the task, if it is placed, with this end wanted of it.
fn stop(
    alloc: Global,
    tables: &Tables,
    now: u64,
    status: u16,
    task: &TaskRow,
    want: Want,
) -> Result<Plan, NoMemory>
    requires keys { KeysAreDistinct tables.now.state }
    ensures { IfOk result (IsPlanOf (accept status (stop (is_task task.now.job task.now.id) want (with_moment now tables.now.state))) tables.now.state) }
{
    let changes = stop_task_at(alloc, tables, now, task, want)?;
    accept_listed(alloc, tables, now, status, changes)
}

/// The plan that drops the task with its runs.
fn drop_at_once(alloc: Global, tables: &Tables, now: u64, task: &TaskRow) -> Result<Plan, NoMemory>
    requires keys { KeysAreDistinct tables.now.state }
    ensures { IfOk result (IsPlanOf (accept 200 (drop_task task.now (with_moment now tables.now.state))) tables.now.state) }
{
    let changes = drop_changes(alloc, tables, task)?;
    accept_listed(alloc, tables, now, 200, changes)
}

/// The plan that puts a task in the place of the one that is there.
fn put_task(
    alloc: Global,
    tables: &Tables,
    now: u64,
    task: &TaskRow,
    row: Shared<TaskRow>,
) -> Result<Plan, NoMemory>
    requires keys { KeysAreDistinct tables.now.state }
    requires there { task_of tables.now.state task.now.job task.now.id ≡ Some task.now }
    requires job { row.job ≡ task.now.job }
    requires id { row.id ≡ task.now.id }
    ensures { IfOk result (IsPlanOf (accept 204 (put_task row (with_moment now tables.now.state))) tables.now.state) }
{
    accept_one(alloc, tables, now, 204, Change::PutTask(row))
}

/// The plan that deletes the task that was found: a placed one is stopped, to be dropped once its runs have ended, and another is
/// dropped at once.
fn delete_found(alloc: Global, tables: &Tables, now: u64, task: &TaskRow) -> Result<Plan, NoMemory>
    requires keys { KeysAreDistinct tables.now.state }
    ensures { IfOk result (IsPlanOf (delete_found (with_moment now tables.now.state) task.now) tables.now.state) }
{
    if is_placed(task.stage) {
        stop(alloc, tables, now, 200, task, Want::Delete)
    } else {
        drop_at_once(alloc, tables, now, task)
    }
}

/// The answer to `delete-task` in the job that was found.
fn delete_in_job(
    alloc: Global,
    tables: &Tables,
    now: u64,
    id: &Id,
    job: &JobRow,
) -> Result<Plan, Fail<Refusal>>
    requires keys { KeysAreDistinct tables.now.state }
    ensures { IsAnswer now (delete_task (with_moment now tables.now.state) id.now job.now) tables.now.state result }
{
    if job.state == JobState::Deleting {
        return Err(Fail::Why(Refusal::JobStateRefuses(job.state)));
    }
    match tables.find_task(&job.id, id) {
        Some(task) => Ok(delete_found(alloc, tables, now, task)?),
        None => Err(Fail::Why(Refusal::TaskNotFound)),
    }
}

/// The answer to `delete-task`.
pub fn delete_task(
    alloc: Global,
    tables: &Tables,
    now: u64,
    job: &Id,
    id: &Id,
) -> Result<Plan, Fail<Refusal>>
    requires keys { KeysAreDistinct tables.now.state }
    ensures { IsAnswer now (for_row (with_moment now tables.now.state) JobNotFound (delete_task (with_moment now tables.now.state) id.now) (job_of (with_moment now tables.now.state) job.now)) tables.now.state result }
{
    match tables.find_job(job) {
        Some(job) => delete_in_job(alloc, tables, now, id, job),
        None => Err(Fail::Why(Refusal::JobNotFound)),
    }
}

/// The plan that terminates the task at once.
fn put_terminated(
    alloc: Global,
    tables: &Tables,
    now: u64,
    task: &TaskRow,
) -> Result<Plan, NoMemory>
    requires keys { KeysAreDistinct tables.now.state }
    requires there { task_of tables.now.state task.now.job task.now.id ≡ Some task.now }
    ensures { IfOk result (IsPlanOf (accept 204 (put_task (terminated now task.now) (with_moment now tables.now.state))) tables.now.state) }
{
    let row = Shared::new(alloc, terminated(now, task)?)?;
    put_task(alloc, tables, now, task, row)
}

/// The plan that terminates the task, which is not completed: a placed one is stopped, to be completed once its runs have ended, and
/// an active one is completed at once.
fn terminate_uncompleted(
    alloc: Global,
    tables: &Tables,
    now: u64,
    task: &TaskRow,
) -> Result<Plan, NoMemory>
    requires keys { KeysAreDistinct tables.now.state }
    requires there { task_of tables.now.state task.now.job task.now.id ≡ Some task.now }
    ensures { IfOk result (IsPlanOf (accept 204 (task_terminated (with_moment now tables.now.state) task.now)) tables.now.state) }
{
    if is_placed(task.stage) {
        stop(alloc, tables, now, 204, task, Want::Terminate)
    } else {
        put_terminated(alloc, tables, now, task)
    }
}

/// The answer to `terminate-task` of the task that was found.
fn terminate_found(
    alloc: Global,
    tables: &Tables,
    now: u64,
    task: &TaskRow,
) -> Result<Plan, Fail<Refusal>>
    requires keys { KeysAreDistinct tables.now.state }
    requires there { task_of tables.now.state task.now.job task.now.id ≡ Some task.now }
    ensures { IsAnswer now (terminate_found (with_moment now tables.now.state) task.now) tables.now.state result }
{
    if task.stage == TaskStage::Completed {
        return Err(Fail::Why(Refusal::TaskCompleted));
    }
    Ok(terminate_uncompleted(alloc, tables, now, task)?)
}

/// The answer to `terminate-task` in the job that was found.
fn terminate_in_job(
    alloc: Global,
    tables: &Tables,
    now: u64,
    id: &Id,
    job: &JobRow,
) -> Result<Plan, Fail<Refusal>>
    requires keys { KeysAreDistinct tables.now.state }
    ensures { IsAnswer now (terminate_task (with_moment now tables.now.state) id.now job.now) tables.now.state result }
{
    match tables.find_task(&job.id, id) {
        Some(task) => terminate_found(alloc, tables, now, task),
        None => Err(Fail::Why(Refusal::TaskNotFound)),
    }
}

/// The answer to `terminate-task`.
pub fn terminate_task(
    alloc: Global,
    tables: &Tables,
    now: u64,
    job: &Id,
    id: &Id,
) -> Result<Plan, Fail<Refusal>>
    requires keys { KeysAreDistinct tables.now.state }
    ensures { IsAnswer now (for_row (with_moment now tables.now.state) JobNotFound (terminate_task (with_moment now tables.now.state) id.now) (job_of (with_moment now tables.now.state) job.now)) tables.now.state result }
{
    match tables.find_job(job) {
        Some(job) => terminate_in_job(alloc, tables, now, id, job),
        None => Err(Fail::Why(Refusal::JobNotFound)),
    }
}

/// Whether the task was closed, and with success.
fn has_success(closed: Option<Closed>) -> bool
    ensures { result ≡ option_map_or (λ (closed : Closed). closed.success) closed false }
{
    match closed {
        None => false,
        Some(closed) => closed.success,
    }
}

/// Whether the task is completed without success.
fn can_reactivate(task: &TaskRow) -> bool
    ensures { result ≡ can_reactivate task.now }
{
    task.stage == TaskStage::Completed && !has_success(task.closed)
}

/// The task, active again without failures.
fn reactivated(task: &TaskRow) -> Result<TaskRow, NoMemory>
    ensures { IfOk result (λ row. row ≡ reactivated task.now) }
{
    let mut row = task.copy()?;
    row.stage = TaskStage::Active;
    row.failures = 0;
    row.closed = None;
    Ok(row)
}

/// The answer to `reactivate-task` of the task that was found.
fn reactivate_found(
    alloc: Global,
    tables: &Tables,
    now: u64,
    task: &TaskRow,
) -> Result<Plan, Fail<Refusal>>
    requires keys { KeysAreDistinct tables.now.state }
    requires there { task_of tables.now.state task.now.job task.now.id ≡ Some task.now }
    ensures { IsAnswer now (reactivate_found (with_moment now tables.now.state) task.now) tables.now.state result }
{
    if !can_reactivate(task) {
        return Err(Fail::Why(Refusal::TaskNotReactivable));
    }
    let row = Shared::new(alloc, reactivated(task)?)?;
    Ok(put_task(alloc, tables, now, task, row)?)
}

/// The answer to `reactivate-task` in the job that was found.
fn reactivate_in_job(
    alloc: Global,
    tables: &Tables,
    now: u64,
    id: &Id,
    job: &JobRow,
) -> Result<Plan, Fail<Refusal>>
    requires keys { KeysAreDistinct tables.now.state }
    ensures { IsAnswer now (reactivate_task (with_moment now tables.now.state) id.now job.now) tables.now.state result }
{
    if is_past(job.state) {
        return Err(Fail::Why(Refusal::JobStateRefuses(job.state)));
    }
    match tables.find_task(&job.id, id) {
        Some(task) => reactivate_found(alloc, tables, now, task),
        None => Err(Fail::Why(Refusal::TaskNotFound)),
    }
}

/// The answer to `reactivate-task`.
pub fn reactivate_task(
    alloc: Global,
    tables: &Tables,
    now: u64,
    job: &Id,
    id: &Id,
) -> Result<Plan, Fail<Refusal>>
    requires keys { KeysAreDistinct tables.now.state }
    ensures { IsAnswer now (for_row (with_moment now tables.now.state) JobNotFound (reactivate_task (with_moment now tables.now.state) id.now) (job_of (with_moment now tables.now.state) job.now)) tables.now.state result }
{
    match tables.find_job(job) {
        Some(job) => reactivate_in_job(alloc, tables, now, id, job),
        None => Err(Fail::Why(Refusal::JobNotFound)),
    }
}
