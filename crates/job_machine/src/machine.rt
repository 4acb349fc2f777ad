//! The calls of the machine.
ghost use Rattle.std.specs.Prelude.{◌≡◌, true, IfOk};
ghost use Rattle.batch_model.specs.Dues.{job_step};
ghost use Rattle.batch_model.specs.Events.{event_now};
ghost use Rattle.batch_model.specs.Finding.{Each};
ghost use Rattle.batch_model.specs.Sound.{IsSound, NumbersAreNew, names_no_task};
ghost use Rattle.batch_model.specs.WellFormed.{CountsAreInRange, KeysAreDistinct, RowsAreValid, TasksAreFitting};
ghost use Rattle.machine_plans.specs.Plans.{IsAnswer, IsRule, with_moment};
ghost use Rattle.job_machine.specs.Owners.{is_of_jobs};

use crate::change::{delete_job, disable_job, enable_job, patch_job, terminate_job};
use crate::ending::end_run;
use crate::job::add_job;
use crate::settle::settle_first;
use bt_base::{Fail, NoMemory};
use bt_rows::event::{Event, EventKind};
use bt_rows::plan::{Plan, View};
use bt_rows::refusal::Refusal;
use job_rules::{
    disable_first, enable_first, end_first, release_first, terminate_first, time_out_job_first,
    time_out_release_first, time_out_task_first,
};
use machine_index::IndexedTables;
use std::alloc::Global;
use task_requests::{add_task, add_tasks, delete_task, reactivate_task, terminate_task};

/// The answer to an event of jobs and tasks, or to the ending of a run that is not a start run, at the view's moment. Refusals
/// come in the order in which they are listed here:
///
/// - `add-job`: `JobExists`, `PoolNotFound`, `PoolBeingDeleted`, and `TableFull` if there are as many jobs as the limit;
/// - `patch-job`: `JobNotFound`, `JobStateRefuses` if the job is terminating, completed or deleting, and `TerminationEngaged` if it
///   would take back that the job is terminated with its tasks;
/// - `disable-job`: `JobNotFound`, `JobStateRefuses` if the job is not active, disabling or disabled;
/// - `enable-job`: `JobNotFound`, `JobStateRefuses` if the job is not disabled;
/// - `terminate-job`: `JobNotFound`, `JobStateRefuses` if the job is terminating, completed or deleting;
/// - `delete-job`: `JobNotFound`, `JobStateRefuses` if the job is deleting;
/// - `add-task`: `JobNotFound`, `JobStateRefuses` if the job is terminating, completed or deleting, `TaskExists`, `DependenciesOff` if
///   the task depends on others, or states whether those that depend on it may go on, and the job's tasks may not depend on others,
///   `DependencyListTooLong`, `JobActionOff` if the task states what becomes of its job, and the job does not ask for such actions, and
///   `TableFull` if there are as many tasks as the limit;
/// - `add-tasks`: `JobNotFound`, `JobStateRefuses`, `CollectionTooLong`; then each element is answered as `add-task` answers it,
///   and a refused element keeps no other from being added;
/// - `delete-task`: `JobNotFound`, `JobStateRefuses` if the job is deleting, `TaskNotFound`;
/// - `terminate-task`: `JobNotFound`, `TaskNotFound`, `TaskCompleted`;
/// - `reactivate-task`: `JobNotFound`, `JobStateRefuses` if the job is terminating, completed or deleting, `TaskNotFound`, and
///   `TaskNotReactivable` if the task is not completed, or had success;
/// - `end`: `RunNotFound`, `RunAlreadyEnded`, `RunWithdrawn`, `RunNotTaken`.
///
/// The only other error is out of memory.
pub fn plan_event(alloc: Global, view: &View, event: &Event) -> Result<Plan, Fail<Refusal>>
    requires own { is_of_jobs view.now.tables.now.state event.now ≡ true }
    requires sound { IsSound view.now.seats view.now.tables.now.state }
    ensures { IsAnswer view.entry.now.now (event_now event.now (with_moment view.entry.now.now view.entry.now.tables.now.state)) view.entry.now.tables.now.state result }
{
    match event.kind() {
        EventKind::AddJob(id, spec) => add_job(alloc, view.tables, view.now, id, spec.get()),
        EventKind::PatchJob(id, patch) => patch_job(alloc, view.tables, view.now, id, patch.get()),
        EventKind::DisableJob(id, option) => {
            disable_job(alloc, view.tables, view.now, id, *option)
        }
        EventKind::EnableJob(id) => enable_job(alloc, view.tables, view.now, id),
        EventKind::TerminateJob(id, reason) => {
            terminate_job(alloc, view.tables, view.now, id, reason.get().as_ref())
        }
        EventKind::DeleteJob(id) => delete_job(alloc, view.tables, view.now, id),
        EventKind::AddTask(job, spec) => add_task(alloc, view.tables, view.now, job, spec.get()),
        EventKind::AddTasks(job, specs) => {
            add_tasks(alloc, view.tables, view.now, job, specs.get().as_slice())
        }
        EventKind::DeleteTask(job, task) => delete_task(alloc, view.tables, view.now, job, task),
        EventKind::TerminateTask(job, task) => {
            terminate_task(alloc, view.tables, view.now, job, task)
        }
        EventKind::ReactivateTask(job, task) => {
            reactivate_task(alloc, view.tables, view.now, job, task)
        }
        EventKind::End(number, ending) => { end_run(alloc, view, *number, *ending) }
        _ => unreachable!(),
    }
}

/// The plan of the first due step of jobs and tasks; None exactly if no rule of theirs applies. In this order: a task whose wall time is
/// over is stopped (U2), a release run whose wall time is over is asked to stop (U3), and a job whose wall time is over is terminated
/// (U4); a placed task without an unended run in its present
/// attempt is settled (U5); an enabling job is active (U6); an active job that is to be terminated with its
/// tasks is terminated once these are completed (U7); a disabling job without placed tasks is disabled (U8); a terminating or deleting
/// job without placed tasks and unended preparation runs runs its release task where it was prepared and a task of it was started (U9),
/// and one without placed tasks and unended runs is completed, or removed (U10). The only error is out of memory.
pub fn next_due(alloc: Global, indexed: &IndexedTables) -> Result<Option<Plan>, NoMemory>
    requires keys { KeysAreDistinct indexed.now.state }
    requires numbers { NumbersAreNew indexed.now.state }
    requires apart { Each names_no_task indexed.now.state.runs }
    requires fitting { TasksAreFitting indexed.now.state }
    requires rows { RowsAreValid indexed.now.state }
    requires counts { CountsAreInRange indexed.now.state }
    ensures { IfOk result (IsRule (job_step indexed.now.state) indexed.now.state) }
{
    let tables = indexed.tables();
    if let Some(plan) = time_out_task_first(alloc, indexed)? {
        return Ok(Some(plan));
    }
    if let Some(plan) = time_out_release_first(alloc, tables)? {
        return Ok(Some(plan));
    }
    if let Some(plan) = time_out_job_first(alloc, tables)? {
        return Ok(Some(plan));
    }
    if let Some(plan) = settle_first(alloc, indexed)? {
        return Ok(Some(plan));
    }
    if let Some(plan) = enable_first(alloc, tables)? {
        return Ok(Some(plan));
    }
    if let Some(plan) = terminate_first(alloc, tables)? {
        return Ok(Some(plan));
    }
    if let Some(plan) = disable_first(alloc, tables)? {
        return Ok(Some(plan));
    }
    if let Some(plan) = release_first(alloc, tables)? {
        return Ok(Some(plan));
    }
    end_first(alloc, tables)
}
