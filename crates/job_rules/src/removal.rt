//! U10, the due step by which a terminating or deleting job has ended: it is completed, or removed with its tasks and runs.
ghost use Rattle.std.specs.Prelude.{◌≡◌, ◌++◌, Some, IfOk, OnOk, find};
ghost use Rattle.std.specs.Option.{option_copied};
ghost use Rattle.batch_model.specs.JobRules.{end_first, has_job_ended, has_unended_run, is_unended_of, job_completed, job_ended, job_removed};
ghost use Rattle.batch_model.specs.Jobs.{is_closing};
ghost use Rattle.batch_model.specs.Rows.{is_job, job_of};
ghost use Rattle.batch_model.specs.Tasks.{is_in_job};
ghost use Rattle.batch_model.specs.WellFormed.{KeysAreDistinct};
ghost use Rattle.machine_plans.specs.Plans.{IsPlanOf, IsRule, answer_of_step};
ghost use Rattle.row_changes.specs.Puts.{changes_where, job_drop, task_drop, run_drop, prep_drop, key_of_task, key_of_prep};
ghost use Rattle.job_rules.specs.Removals.{is_run_of_job, is_prep_of_job, removal};

use crate::rule::{has_placed_task, step_job};
use bt_base::{Duplicate, Id, List, NoMemory, Shared};
use bt_rows::due::{Due, JobEnd};
use bt_rows::job::{JobRow, JobState};
use bt_rows::plan::Plan;
use bt_rows::prep::{PrepKey, PrepRow};
use bt_rows::reply::Reply;
use bt_rows::run::RunRow;
use bt_rows::tables::{Change, Tables};
use bt_rows::task::{TaskKey, TaskRow};
use std::alloc::Global;
use table_scans::{is_unended, names};
use task_stops::job_in;

/// Whether the job is terminating or deleting.
pub fn is_closing(state: JobState) -> bool
    ensures { result ≡ is_closing state }
{
    matches!(state, JobState::Terminating | JobState::Deleting)
}

/// Whether the run names the job, and has not ended.
fn is_unended_of(job: &Id, run: &RunRow) -> bool
    ensures { result ≡ is_unended_of job.now run.now }
{
    names(&run.job, job) && is_unended(run.state)
}

/// Whether a run that names the job has not ended.
fn has_unended_run(tables: &Tables, job: &Id) -> bool
    ensures { result ≡ has_unended_run tables.now.state job.now }
{
    tables.runs().any(|run| is_unended_of(job, run))
}

/// Whether the job is terminating or deleting, without placed tasks and unended runs.
fn has_job_ended(tables: &Tables, job: &JobRow) -> bool
    ensures { result ≡ has_job_ended tables.now.state job.now }
{
    is_closing(job.state) && !has_placed_task(tables, &job.id) && !has_unended_run(tables, &job.id)
}

/// The first job that has ended.
fn first_ended(tables: &Tables) -> Option<&JobRow>
    ensures { option_copied result ≡ find (has_job_ended tables.now.state) tables.now.state.jobs }
{
    tables.jobs().find(|job| has_job_ended(tables, job))
}

/// The plan that completes the job.
fn complete(alloc: Global, tables: &Tables, job: &JobRow) -> Result<Plan, NoMemory>
    requires keys { KeysAreDistinct tables.now.state }
    requires there { job_of tables.now.state job.now.id ≡ Some job.now }
    ensures { IfOk result (IsPlanOf (answer_of_step (job_completed tables.now.state job.now)) tables.now.state) }
{
    let due = Due::JobEnded(job.id.copy()?, JobEnd::Kept);
    let row = Shared::new(alloc, job_in(JobState::Completed, job)?)?;
    step_job(alloc, tables, due, job, row)
}

/// Adds the drop of the job's row.
fn drop_row(changes: &mut Vec<Change>, tables: &Tables, job: &Id) -> Result<(), NoMemory>
    ensures { OnOk result (changes.new.items ≡ changes.old.items ++ changes_where job_drop (is_job job.now) tables.now.state.jobs) }
{
    for row in tables.jobs() {
        if row.id.same(job) {
            changes.push(Change::DropJob(row.id.copy()?))?;
        }
    }
    Ok(())
}

/// The key of a task.
fn key_of_task(task: &TaskRow) -> Result<TaskKey, NoMemory>
    ensures { IfOk result (λ key. key ≡ key_of_task task.now) }
{
    Ok(TaskKey {
        job: task.job.copy()?,
        id: task.id.copy()?,
    })
}

/// Adds the drops of the job's tasks.
fn drop_tasks(changes: &mut Vec<Change>, tables: &Tables, job: &Id) -> Result<(), NoMemory>
    ensures { OnOk result (changes.new.items ≡ changes.old.items ++ changes_where task_drop (is_in_job job.now) tables.now.state.tasks) }
{
    for task in tables.tasks() {
        if task.job.same(job) {
            changes.push(Change::DropTask(key_of_task(task)?))?;
        }
    }
    Ok(())
}

/// Adds the drops of the runs that name the job.
fn drop_runs(changes: &mut Vec<Change>, tables: &Tables, job: &Id) -> Result<(), NoMemory>
    ensures { OnOk result (changes.new.items ≡ changes.old.items ++ changes_where run_drop (is_run_of_job job.now) tables.now.state.runs) }
{
    for run in tables.runs() {
        if names(&run.job, job) {
            changes.push(Change::DropRun(run.number))?;
        }
    }
    Ok(())
}

/// The key of a preparation.
fn key_of_prep(prep: &PrepRow) -> Result<PrepKey, NoMemory>
    ensures { IfOk result (λ key. key ≡ key_of_prep prep.now) }
{
    Ok(PrepKey {
        job: prep.job.copy()?,
        node: prep.node,
    })
}

/// Adds the drops of the job's preparations.
fn drop_preps(changes: &mut Vec<Change>, tables: &Tables, job: &Id) -> Result<(), NoMemory>
    ensures { OnOk result (changes.new.items ≡ changes.old.items ++ changes_where prep_drop (is_prep_of_job job.now) tables.now.state.preps) }
{
    for prep in tables.preps() {
        if prep.job.same(job) {
            changes.push(Change::DropPrep(key_of_prep(prep)?))?;
        }
    }
    Ok(())
}

/// The changes that remove the job.
fn removal(alloc: Global, tables: &Tables, job: &Id) -> Result<Vec<Change>, NoMemory>
    ensures { IfOk result (λ changes. changes.items ≡ removal job.now tables.now.state) }
{
    let mut changes = Vec::new(alloc);
    drop_row(&mut changes, tables, job)?;
    drop_tasks(&mut changes, tables, job)?;
    drop_runs(&mut changes, tables, job)?;
    drop_preps(&mut changes, tables, job)?;
    Ok(changes)
}

/// The plan that removes the job.
fn remove(alloc: Global, tables: &Tables, job: &JobRow) -> Result<Plan, NoMemory>
    requires keys { KeysAreDistinct tables.now.state }
    ensures { IfOk result (IsPlanOf (answer_of_step (job_removed tables.now.state job.now)) tables.now.state) }
{
    let due = Due::JobEnded(job.id.copy()?, JobEnd::Removed);
    let changes = removal(alloc, tables, &job.id)?;
    Ok(Plan {
        reply: Reply::Step(due),
        changes: List::of_vec(changes),
    })
}

/// The plan that completes the job, or removes it if it is being deleted.
fn end(alloc: Global, tables: &Tables, job: &JobRow) -> Result<Plan, NoMemory>
    requires keys { KeysAreDistinct tables.now.state }
    requires there { job_of tables.now.state job.now.id ≡ Some job.now }
    ensures { IfOk result (IsPlanOf (answer_of_step (job_ended tables.now.state job.now)) tables.now.state) }
{
    if job.state == JobState::Deleting {
        remove(alloc, tables, job)
    } else {
        complete(alloc, tables, job)
    }
}

/// The plan that ends the first job that has ended.
pub fn end_first(alloc: Global, tables: &Tables) -> Result<Option<Plan>, NoMemory>
    requires { KeysAreDistinct tables.now.state }
    ensures { IfOk result (IsRule (end_first tables.now.state) tables.now.state) }
{
    match first_ended(tables) {
        None => Ok(None),
        Some(job) => Ok(Some(end(alloc, tables, job)?)),
    }
}
