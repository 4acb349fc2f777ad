//! U5, the due step that settles a placed task whose present attempt has no unended run. A wanted end decides: the task is dropped with
//! its runs, completed as terminated, completed since its wall time is over, or active again. If none is wanted, it is completed as its
//! attempt ended, or active again with one failure more while its failures are below the limit of its retries. A completion by an ending
//! or by the wall time may disable or terminate the task's job.
ghost use Rattle.std.specs.Prelude.{◌≡◌, Some, IfOk};
ghost use Rattle.std.specs.Option.{option_copied, option_map};
ghost use Rattle.bt_rows.specs.declared.due.Due.TheVariants.{TaskSettled};
ghost use Rattle.batch_model.specs.Dues.{settle_first};
ghost use Rattle.batch_model.specs.Finding.{Each, is_below};
ghost use Rattle.batch_model.specs.Rows.{job_of, put_task};
ghost use Rattle.batch_model.specs.Settling.{outcome_of, settle, settle_again, settle_by, settle_completed, settle_deleted, settle_ending, settle_failed, settle_terminated, settle_timed_out, settled};
ghost use Rattle.batch_model.specs.Sound.{names_no_task};
ghost use Rattle.batch_model.specs.Tasks.{attempt_ending, main_ending, retry_limit};
ghost use Rattle.batch_model.specs.WellFormed.{CountsAreInRange, KeysAreDistinct, RowsAreValid, TasksAreFitting};
ghost use Rattle.machine_plans.specs.Plans.{IsPlanOf, IsRule, answer_of_step};
ghost use Rattle.job_machine.specs.Settled.{IsFirstOver};

use crate::actions::complete;
use bt_base::{Duplicate, List, NoMemory, Shared};
use bt_rows::due::{Due, Outcome};
use bt_rows::job::JobRow;
use bt_rows::plan::Plan;
use bt_rows::reply::Reply;
use bt_rows::run::Ending;
use bt_rows::tables::{Change, Tables};
use bt_rows::task::{Closed, How, TaskRow, Want};
use dependency_counts::condition;
use machine_index::IndexedTables;
use machine_plans::step_one;
use std::alloc::Global;
use table_scans::{ending_of, is_success};
use task_requests::{again, drop_changes, terminated};

/// How the main run of the task's present attempt ended, if it did.
fn main_ending(indexed: &IndexedTables, task: &TaskRow) -> Option<Ending>
    ensures { result ≡ main_ending indexed.now.state task.now }
{
    match indexed.main_run(task) {
        None => None,
        Some(run) => ending_of(run.state),
    }
}

/// How the task's present attempt ended, if it did: by a failed coordination, or else as its main run did.
fn attempt_ending(indexed: &IndexedTables, task: &TaskRow) -> Option<Ending>
    ensures { result ≡ attempt_ending indexed.now.state task.now }
{
    match task.fail {
        Some(ending) => Some(ending),
        None => main_ending(indexed, task),
    }
}

/// The limit of the task's retries: its own, or else its job's; -1 is no limit.
fn retry_limit(job: &JobRow, task: &TaskRow) -> i32
    ensures { result ≡ retry_limit job.now task.now }
{
    task.settings.retries().unwrap_or(job.retries)
}

/// Whether the number of failures is below the limit; -1 is no limit.
fn is_below(failures: u64, limit: i32) -> bool
    ensures { result ≡ is_below failures limit }
{
    if limit < 0 {
        limit == -1
    } else {
        failures < limit as u64
    }
}

/// The outcome in the line of a task that is completed, with success or without.
fn outcome_of(success: bool) -> Outcome
    ensures { result ≡ outcome_of success }
{
    if success {
        Outcome::Success
    } else {
        Outcome::Failure
    }
}

/// The line that tells what became of the task.
fn settled(task: &TaskRow, outcome: Outcome) -> Result<Due, NoMemory>
    ensures { IfOk result (λ due. due ≡ TaskSettled task.now.job task.now.id outcome) }
{
    let job = task.job.copy()?;
    Ok(Due::TaskSettled(job, task.id.copy()?, outcome))
}

/// The plan that puts this row in the place of the task's.
fn put_settled(
    alloc: Global,
    tables: &Tables,
    task: &TaskRow,
    outcome: Outcome,
    row: Shared<TaskRow>,
) -> Result<Plan, NoMemory>
    requires over { IsFirstOver tables.now.state task.now }
    requires job { row.job ≡ task.now.job }
    requires id { row.id ≡ task.now.id }
    ensures { IfOk result (IsPlanOf (answer_of_step (settled task.now outcome (put_task row tables.now.state))) tables.now.state) }
{
    let due = settled(task, outcome)?;
    step_one(alloc, due, Change::PutTask(row))
}

/// The plan that drops the task with its runs.
fn settle_deleted(alloc: Global, tables: &Tables, task: &TaskRow) -> Result<Plan, NoMemory>
    requires { IsFirstOver tables.now.state task.now }
    ensures { IfOk result (IsPlanOf (answer_of_step (settle_deleted tables.now.state task.now)) tables.now.state) }
{
    let due = settled(task, Outcome::Deleted)?;
    let changes = drop_changes(alloc, tables, task)?;
    Ok(Plan {
        reply: Reply::Step(due),
        changes: List::of_vec(changes),
    })
}

/// The plan that completes the task as terminated, whatever its exit options.
fn settle_terminated(alloc: Global, tables: &Tables, task: &TaskRow) -> Result<Plan, NoMemory>
    requires { IsFirstOver tables.now.state task.now }
    ensures { IfOk result (IsPlanOf (answer_of_step (settle_terminated tables.now.state task.now)) tables.now.state) }
{
    let row = Shared::new(alloc, terminated(tables.moment(), task)?)?;
    put_settled(alloc, tables, task, Outcome::Failure, row)
}

/// The plan that makes the task active again after this number of failures.
fn settle_again(
    alloc: Global,
    tables: &Tables,
    task: &TaskRow,
    failures: u64,
) -> Result<Plan, NoMemory>
    requires { IsFirstOver tables.now.state task.now }
    ensures { IfOk result (IsPlanOf (answer_of_step (settle_again tables.now.state task.now failures)) tables.now.state) }
{
    let row = Shared::new(alloc, again(failures, task)?)?;
    put_settled(alloc, tables, task, Outcome::Again(failures), row)
}

/// The plan that completes the task since its wall time is over, by its exit options for an ending without code.
fn settle_timed_out(
    alloc: Global,
    tables: &Tables,
    job: &JobRow,
    task: &TaskRow,
) -> Result<Plan, NoMemory>
    requires over { IsFirstOver tables.now.state task.now }
    requires there { job_of tables.now.state job.now.id ≡ Some job.now }
    ensures { IfOk result (IsPlanOf (answer_of_step (settle_timed_out tables.now.state job.now task.now)) tables.now.state) }
{
    let options = condition(task, Ending::NoCode);
    let closed = Closed {
        how: How::Wall,
        success: false,
        satisfies: options.satisfies,
        at: tables.moment(),
    };
    let due = settled(task, Outcome::Failure)?;
    let changes = complete(alloc, tables, job, task, closed, options.job)?;
    Ok(Plan {
        reply: Reply::Step(due),
        changes: List::of_vec(changes),
    })
}

/// The plan that completes the task as its attempt ended, with success or without, by its exit options for the ending.
fn settle_completed(
    alloc: Global,
    tables: &Tables,
    job: &JobRow,
    task: &TaskRow,
    ending: Ending,
    success: bool,
) -> Result<Plan, NoMemory>
    requires over { IsFirstOver tables.now.state task.now }
    requires there { job_of tables.now.state job.now.id ≡ Some job.now }
    ensures { IfOk result (IsPlanOf (answer_of_step (settle_completed tables.now.state job.now task.now ending success)) tables.now.state) }
{
    let options = condition(task, ending);
    let closed = Closed {
        how: How::Ended(ending),
        success,
        satisfies: options.satisfies,
        at: tables.moment(),
    };
    let due = settled(task, outcome_of(success))?;
    let changes = complete(alloc, tables, job, task, closed, options.job)?;
    Ok(Plan {
        reply: Reply::Step(due),
        changes: List::of_vec(changes),
    })
}

/// The plan that settles the task after its attempt failed: while its failures are below the limit of its retries, it is active again
/// with one failure more, and else it is completed.
fn settle_failed(
    alloc: Global,
    tables: &Tables,
    job: &JobRow,
    task: &TaskRow,
    ending: Ending,
) -> Result<Plan, NoMemory>
    requires over { IsFirstOver tables.now.state task.now }
    requires there { job_of tables.now.state job.now.id ≡ Some job.now }
    ensures { IfOk result (IsPlanOf (answer_of_step (settle_failed tables.now.state job.now task.now ending)) tables.now.state) }
{
    if is_below(task.failures, retry_limit(job, task)) {
        settle_again(alloc, tables, task, task.failures + 1)
    } else {
        settle_completed(alloc, tables, job, task, ending, false)
    }
}

/// The plan that settles the task after its attempt ended. A launch error is not tried again.
fn settle_ending(
    alloc: Global,
    tables: &Tables,
    job: &JobRow,
    task: &TaskRow,
    ending: Ending,
) -> Result<Plan, NoMemory>
    requires over { IsFirstOver tables.now.state task.now }
    requires there { job_of tables.now.state job.now.id ≡ Some job.now }
    ensures { IfOk result (IsPlanOf (answer_of_step (settle_ending tables.now.state job.now task.now ending)) tables.now.state) }
{
    if is_success(ending) {
        settle_completed(alloc, tables, job, task, ending, true)
    } else if ending == Ending::NotStarted {
        settle_completed(alloc, tables, job, task, ending, false)
    } else {
        settle_failed(alloc, tables, job, task, ending)
    }
}

/// The plan that settles the task as its attempt ended, if it did.
fn settle_attempt(
    alloc: Global,
    indexed: &IndexedTables,
    job: &JobRow,
    task: &TaskRow,
) -> Result<Option<Plan>, NoMemory>
    requires over { IsFirstOver indexed.now.state task.now }
    requires there { job_of indexed.now.state job.now.id ≡ Some job.now }
    ensures { IfOk result (IsRule (option_map (settle_ending indexed.now.state job.now task.now) (attempt_ending indexed.now.state task.now)) indexed.now.state) }
{
    match attempt_ending(indexed, task) {
        None => Ok(None),
        Some(ending) => {
            let tables = indexed.tables();
            Ok(Some(settle_ending(alloc, tables, job, task, ending)?))
        }
    }
}

/// The plan of this wanted end of the task.
fn settle_wanted(
    alloc: Global,
    tables: &Tables,
    job: &JobRow,
    task: &TaskRow,
    want: Want,
) -> Result<Plan, NoMemory>
    requires over { IsFirstOver tables.now.state task.now }
    requires there { job_of tables.now.state job.now.id ≡ Some job.now }
    ensures { IfOk result (λ plan. IsRule (settle_by (Some want) tables.now.state job.now task.now) tables.now.state (Some plan)) }
{
    match want {
        Want::Delete => settle_deleted(alloc, tables, task),
        Want::Terminate => settle_terminated(alloc, tables, task),
        Want::Wall => settle_timed_out(alloc, tables, job, task),
        Want::Requeue => settle_again(alloc, tables, task, task.failures),
    }
}

/// The plan that settles the task, which is one of the job: a wanted end goes before the ending of the attempt.
fn settle_by(
    alloc: Global,
    indexed: &IndexedTables,
    job: &JobRow,
    task: &TaskRow,
) -> Result<Option<Plan>, NoMemory>
    requires over { IsFirstOver indexed.now.state task.now }
    requires there { job_of indexed.now.state job.now.id ≡ Some job.now }
    ensures { IfOk result (IsRule (settle_by task.now.wanted indexed.now.state job.now task.now) indexed.now.state) }
{
    match task.wanted {
        None => settle_attempt(alloc, indexed, job, task),
        Some(want) => {
            let tables = indexed.tables();
            Ok(Some(settle_wanted(alloc, tables, job, task, want)?))
        }
    }
}

/// The job of the task. None if there is none.
fn job_of_task<'a>(tables: &'a Tables, task: &TaskRow) -> Option<&'a JobRow>
    ensures { option_copied result ≡ job_of tables.now.state task.now.job }
{
    tables.find_job(&task.job)
}

/// The plan that settles the task.
fn settle(alloc: Global, indexed: &IndexedTables, task: &TaskRow) -> Result<Option<Plan>, NoMemory>
    requires { IsFirstOver indexed.now.state task.now }
    ensures { IfOk result (IsRule (settle indexed.now.state task.now) indexed.now.state) }
{
    match job_of_task(indexed.tables(), task) {
        None => Ok(None),
        Some(job) => settle_by(alloc, indexed, job, task),
    }
}

/// The plan that settles the first task that is over. The only error is out of memory.
pub fn settle_first(alloc: Global, indexed: &IndexedTables) -> Result<Option<Plan>, NoMemory>
    requires keys { KeysAreDistinct indexed.now.state }
    requires apart { Each names_no_task indexed.now.state.runs }
    requires fitting { TasksAreFitting indexed.now.state }
    requires rows { RowsAreValid indexed.now.state }
    requires counts { CountsAreInRange indexed.now.state }
    ensures { IfOk result (IsRule (settle_first indexed.now.state) indexed.now.state) }
{
    match indexed.first_over() {
        None => Ok(None),
        Some(task) => settle(alloc, indexed, task),
    }
}
