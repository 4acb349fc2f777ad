//! The due steps of jobs: an enabling job is active (U6), a job is terminated with its tasks (U7), and a disabling job is disabled (U8).
ghost use Rattle.std.specs.Prelude.{◌≡◌, Some, IfOk, find};
ghost use Rattle.std.specs.Option.{option_copied};
ghost use Rattle.bt_rows.specs.declared.reply.Reply.TheVariants.{Step};
ghost use Rattle.batch_model.specs.Finding.{Each};
ghost use Rattle.batch_model.specs.JobRules.{all_complete, enable_first, disable_first, terminate_first, ends_with_tasks, has_all_completed, is_to_disable, is_to_enable, job_disabled, job_enabled, tasks_done};
ghost use Rattle.batch_model.specs.Rows.{job_of, put_job};
ghost use Rattle.batch_model.specs.Sound.{names_no_task};
ghost use Rattle.batch_model.specs.Tasks.{has_placed_task};
ghost use Rattle.batch_model.specs.WellFormed.{KeysAreDistinct};
ghost use Rattle.machine_plans.specs.Plans.{IsPlanOf, IsRule, answer_of_step};

use bt_base::{Duplicate, Id, List, NoMemory, Shared, Text};
use bt_rows::due::Due;
use bt_rows::job::{JobRow, JobState};
use bt_rows::plan::Plan;
use bt_rows::reply::Reply;
use bt_rows::tables::{Change, Tables};
use bt_rows::task::TaskStage;
use machine_plans::step_one;
use std::alloc::Global;
use table_scans::is_placed;
use task_stops::{close, job_in};

/// The first enabling job.
fn first_to_enable(tables: &Tables) -> Option<&JobRow>
    ensures { option_copied result ≡ find is_to_enable tables.now.state.jobs }
{
    tables.jobs().find(|job| job.state == JobState::Enabling)
}

/// The plan of a due step that puts a job in the place of the one that is there.
pub fn step_job(
    alloc: Global,
    tables: &Tables,
    due: Due,
    job: &JobRow,
    row: Shared<JobRow>,
) -> Result<Plan, NoMemory>
    requires keys { KeysAreDistinct tables.now.state }
    requires there { job_of tables.now.state job.now.id ≡ Some job.now }
    requires same { row.id ≡ job.now.id }
    ensures { IfOk result (IsPlanOf (record { reply = Step due; state = put_job row tables.now.state }) tables.now.state) }
{
    step_one(alloc, due, Change::PutJob(row))
}

/// The plan that makes the job active.
fn enable(alloc: Global, tables: &Tables, job: &JobRow) -> Result<Plan, NoMemory>
    requires keys { KeysAreDistinct tables.now.state }
    requires there { job_of tables.now.state job.now.id ≡ Some job.now }
    ensures { IfOk result (IsPlanOf (answer_of_step (job_enabled tables.now.state job.now)) tables.now.state) }
{
    let due = Due::JobEnabled(job.id.copy()?);
    let row = Shared::new(alloc, job_in(JobState::Active, job)?)?;
    step_job(alloc, tables, due, job, row)
}

/// The plan that makes the first enabling job active.
pub fn enable_first(alloc: Global, tables: &Tables) -> Result<Option<Plan>, NoMemory>
    requires { KeysAreDistinct tables.now.state }
    ensures { IfOk result (IsRule (enable_first tables.now.state) tables.now.state) }
{
    match first_to_enable(tables) {
        None => Ok(None),
        Some(job) => Ok(Some(enable(alloc, tables, job)?)),
    }
}

/// Whether a task of the job is placed.
pub fn has_placed_task(tables: &Tables, job: &Id) -> bool
    ensures { result ≡ has_placed_task tables.now.state job.now }
{
    tables
        .tasks()
        .any(|task| is_placed(task.stage) && task.job.same(job))
}

/// Whether the job is disabling, and none of its tasks is placed.
fn is_to_disable(tables: &Tables, job: &JobRow) -> bool
    ensures { result ≡ is_to_disable tables.now.state job.now }
{
    job.state == JobState::Disabling && !has_placed_task(tables, &job.id)
}

/// The first disabling job without placed tasks.
fn first_to_disable(tables: &Tables) -> Option<&JobRow>
    ensures { option_copied result ≡ find (is_to_disable tables.now.state) tables.now.state.jobs }
{
    tables.jobs().find(|job| is_to_disable(tables, job))
}

/// The plan that makes the job disabled.
fn disable(alloc: Global, tables: &Tables, job: &JobRow) -> Result<Plan, NoMemory>
    requires keys { KeysAreDistinct tables.now.state }
    requires there { job_of tables.now.state job.now.id ≡ Some job.now }
    ensures { IfOk result (IsPlanOf (answer_of_step (job_disabled tables.now.state job.now)) tables.now.state) }
{
    let due = Due::JobDisabled(job.id.copy()?);
    let row = Shared::new(alloc, job_in(JobState::Disabled, job)?)?;
    step_job(alloc, tables, due, job, row)
}

/// The plan that disables the first disabling job without placed tasks.
pub fn disable_first(alloc: Global, tables: &Tables) -> Result<Option<Plan>, NoMemory>
    requires { KeysAreDistinct tables.now.state }
    ensures { IfOk result (IsRule (disable_first tables.now.state) tables.now.state) }
{
    match first_to_disable(tables) {
        None => Ok(None),
        Some(job) => Ok(Some(disable(alloc, tables, job)?)),
    }
}

/// Whether all tasks of the job are completed.
fn has_all_completed(tables: &Tables, job: &Id) -> bool
    ensures { result ≡ has_all_completed tables.now.state job.now }
{
    tables.tasks().all(|task| !task.job.same(job) || task.stage == TaskStage::Completed)
}

/// Whether the job is active, to be terminated with its tasks, and these are completed.
fn ends_with_tasks(tables: &Tables, job: &JobRow) -> bool
    ensures { result ≡ ends_with_tasks tables.now.state job.now }
{
    job.state == JobState::Active && job.on_all && has_all_completed(tables, &job.id)
}

/// The first job that ends with its tasks.
fn first_that_ends_with_tasks(tables: &Tables) -> Option<&JobRow>
    ensures { option_copied result ≡ find (ends_with_tasks tables.now.state) tables.now.state.jobs }
{
    tables.jobs().find(|job| ends_with_tasks(tables, job))
}

/// The reason of a job that ends with its tasks.
fn all_complete(alloc: Global) -> Result<Text, NoMemory>
    ensures { IfOk result (λ reason. reason ≡ all_complete) }
{
    Text::of_string(String::from_str(alloc, "AllTasksComplete")?)
}

/// The plan that terminates the job, since its tasks are completed.
fn end_with_tasks(alloc: Global, tables: &Tables, job: &JobRow) -> Result<Plan, NoMemory>
    requires keys { KeysAreDistinct tables.now.state }
    requires there { job_of tables.now.state job.now.id ≡ Some job.now }
    requires apart { Each names_no_task tables.now.state.runs }
    ensures { IfOk result (IsPlanOf (answer_of_step (tasks_done tables.now.state job.now)) tables.now.state) }
{
    let due = Due::TasksDone(job.id.copy()?);
    let why = all_complete(alloc)?;
    let changes = close(
        alloc,
        tables,
        tables.moment(),
        JobState::Terminating,
        why,
        job,
    )?;
    Ok(Plan {
        reply: Reply::Step(due),
        changes: List::of_vec(changes),
    })
}

/// The plan that terminates the first job that ends with its tasks.
pub fn terminate_first(alloc: Global, tables: &Tables) -> Result<Option<Plan>, NoMemory>
    requires keys { KeysAreDistinct tables.now.state }
    requires apart { Each names_no_task tables.now.state.runs }
    ensures { IfOk result (IsRule (terminate_first tables.now.state) tables.now.state) }
{
    match first_that_ends_with_tasks(tables) {
        None => Ok(None),
        Some(job) => Ok(Some(end_with_tasks(alloc, tables, job)?)),
    }
}
