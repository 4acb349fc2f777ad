//! Rows that other rows name, and the main runs of attempts.
ghost use Rattle.std.specs.Prelude.{◌≡◌, ◌&&◌, nat_le, IfOk};
ghost use Rattle.std.specs.List.{list_any, list_all};
ghost use Rattle.bt_base.specs.Ids.{same};
ghost use Rattle.bt_rows.specs.declared.task.TaskRow.{TaskRow as Task};
ghost use Rattle.batch_model.specs.WellFormed.{has_job_row, has_named_job, has_named_task, are_one_attempt};
ghost use Rattle.row_keys.specs.Passes.{are_distinct};
ghost use Rattle.tables_check.specs.Rules.{named_rows_are_there};

use crate::distinct::known_keys;
use crate::keys::MainOfAttempt;
use bt_base::{Id, NoMemory};
use bt_rows::run::RunRow;
use bt_rows::tables::Tables;
use row_keys::are_distinct;
use std::alloc::Global;

/// Whether the job has a row.
pub fn has_job_row(tables: &Tables, job: &Id) -> bool
    ensures { result ≡ has_job_row tables.now.state job.now }
{
    match tables.find_job(job) {
        None => false,
        Some(_row) => true,
    }
}

/// Whether the job that the run names has a row, if it names one.
pub fn has_named_job(tables: &Tables, run: &RunRow) -> bool
    ensures { result ≡ has_named_job tables.now.state run.now }
{
    match &run.job {
        None => true,
        Some(job) => has_job_row(tables, job),
    }
}

/// Whether the job's task with this id has a row, and has had this attempt.
fn has_attempt(tables: &Tables, job: &Id, id: &Id, attempt: u64) -> bool
    ensures { result ≡ list_any (λ (task : Task). same job.now task.job && same id.now task.id && nat_le attempt task.attempt) tables.now.state.tasks }
{
    known_keys(tables);
    match tables.find_task(job, id) {
        None => false,
        Some(task) => attempt <= task.attempt,
    }
}

/// Whether the task that the run names has a row, among whose attempts the run's is, if it names one.
pub fn has_named_task(tables: &Tables, run: &RunRow) -> bool
    ensures { result ≡ has_named_task tables.now.state run.now }
{
    let Some(id) = &run.task else {
        return true;
    };
    match &run.job {
        None => false,
        Some(job) => has_attempt(tables, job, id, run.attempt),
    }
}

/// Whether the jobs of tasks have rows.
fn have_tasks_jobs(tables: &Tables) -> bool
    ensures { result ≡ list_all (λ (task : Task). has_job_row tables.now.state task.job) tables.now.state.tasks }
{
    tables.tasks().all(|task| has_job_row(tables, &task.job))
}

/// Whether the jobs that runs name have rows.
fn have_runs_jobs(tables: &Tables) -> bool
    ensures { result ≡ list_all (has_named_job tables.now.state) tables.now.state.runs }
{
    tables.runs().all(|run| has_named_job(tables, run))
}

/// Whether the tasks that runs name have rows, among whose attempts the runs' are.
fn have_runs_tasks(tables: &Tables) -> bool
    ensures { result ≡ list_all (has_named_task tables.now.state) tables.now.state.runs }
{
    tables.runs().all(|run| has_named_task(tables, run))
}

/// Whether no attempt has two main runs.
fn are_main_runs_distinct(alloc: Global, tables: &Tables) -> Result<bool, NoMemory>
    ensures { IfOk result (λ yes. yes ≡ are_distinct are_one_attempt tables.now.state.runs) }
{
    let distinct = are_distinct::<MainOfAttempt>(alloc, tables.runs())?;
    Ok(distinct)
}

/// Whether rows that others name have rows, and each attempt has one main run at most.
pub fn are_named_rows_there(alloc: Global, tables: &Tables) -> Result<bool, NoMemory>
    ensures { IfOk result (λ yes. yes ≡ named_rows_are_there tables.now.state) }
{
    let jobs_of_tasks = have_tasks_jobs(tables);
    let jobs_of_runs = have_runs_jobs(tables);
    let tasks_of_runs = have_runs_tasks(tables);
    let main_runs = are_main_runs_distinct(alloc, tables)?;
    Ok((jobs_of_tasks & jobs_of_runs) & (tasks_of_runs & main_runs))
}
