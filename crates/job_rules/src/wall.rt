//! The due steps of wall times, the longest times that tasks, release tasks and jobs may run (Azure: maxWallClockTime): a task whose wall
//! time is over is stopped (U2), a release run whose wall time is over is asked to stop (U3), and a job whose wall time is over is
//! terminated (U4).
ghost use Rattle.std.specs.Prelude.{◌≡◌, Some, IfOk, find};
ghost use Rattle.std.specs.Option.{option_copied};
ghost use Rattle.bt_rows.specs.declared.due.Due.TheVariants.{TaskTimedOut};
ghost use Rattle.batch_model.specs.Finding.{Each};
ghost use Rattle.batch_model.specs.Rows.{job_of, run_of};
ghost use Rattle.batch_model.specs.Runs.{asked_to_stop};
ghost use Rattle.batch_model.specs.Sound.{names_no_task};
ghost use Rattle.batch_model.specs.Tasks.{is_undisturbed};
ghost use Rattle.batch_model.specs.WallTimes.{is_out_of_time, is_task_timed_out, task_timed_out, time_out_task_first, can_be_asked, release_of, release_limit, is_release_over, is_release_timed_out, release_timed_out, time_out_release_first, wall_time_over, is_job_timed_out, job_timed_out, time_out_job_first};
ghost use Rattle.batch_model.specs.WellFormed.{KeysAreDistinct};
ghost use Rattle.job_rules.specs.Releases.{has_release_task};
ghost use Rattle.machine_plans.specs.Plans.{IsPlanOf, IsRule, answer_of_step};

use bt_base::{Duplicate, List, Moment, NoMemory, Shared, Text};
use bt_rows::due::Due;
use bt_rows::job::{JobRow, JobState, ReleaseTask};
use bt_rows::plan::Plan;
use bt_rows::reply::Reply;
use bt_rows::run::{RunKind, RunRow, RunState};
use bt_rows::tables::{Change, Tables};
use bt_rows::task::{TaskRow, Want};
use machine_index::IndexedTables;
use machine_plans::step_one;
use std::alloc::Global;
use table_scans::{has_passed, is_past, is_placed};
use task_stops::{close, stop_task};

/// Whether no end of the task is wanted, and no ending counts in place of its main command's.
pub fn is_undisturbed(task: &TaskRow) -> bool
    ensures { result ≡ is_undisturbed task.now }
{
    task.wanted.is_none() && task.fail.is_none()
}

/// Whether the task has started, and its wall time is over since then.
fn is_out_of_time(now: u64, task: &TaskRow) -> bool
    ensures { result ≡ is_out_of_time now task.now }
{
    match task.started {
        None => false,
        Some(from) => has_passed(from, task.settings.wall(), now),
    }
}

/// Whether the task is placed, with no end wanted and no ending in place of its main command's, has an unended run, and is out of
/// time.
fn is_task_timed_out(indexed: &IndexedTables, task: &TaskRow) -> bool
    ensures { result ≡ is_task_timed_out indexed.now.state task.now }
{
    is_placed(task.stage)
        && is_undisturbed(task)
        && indexed.is_busy(task)
        && is_out_of_time(indexed.tables().moment(), task)
}

/// The first such task, by a look at all tasks.
fn search_timed_out<'a>(indexed: &'a IndexedTables) -> Option<&'a TaskRow>
    ensures { option_copied result ≡ find (is_task_timed_out indexed.now.state) indexed.now.state.tasks }
{
    indexed
        .tables()
        .tasks()
        .find(|task| is_task_timed_out(indexed, task))
}

/// The first such task. If the first task that is out of time has no unended run, it is to be settled: then all tasks are looked at.
fn first_timed_out_at<'a>(indexed: &'a IndexedTables, now: Moment) -> Option<&'a TaskRow>
    requires { now ≡ indexed.now.state.moment }
    ensures { option_copied result ≡ find (is_task_timed_out indexed.now.state) indexed.now.state.tasks }
{
    match indexed.first_out_of_time(now) {
        None => None,
        Some(task) if indexed.is_busy(task) => Some(task),
        Some(_) => search_timed_out(indexed),
    }
}

/// The first such task.
fn first_timed_out<'a>(indexed: &'a IndexedTables) -> Option<&'a TaskRow>
    ensures { option_copied result ≡ find (is_task_timed_out indexed.now.state) indexed.now.state.tasks }
{
    match Moment::of_ms(indexed.tables().moment()) {
        None => search_timed_out(indexed),
        Some(now) => first_timed_out_at(indexed, now),
    }
}

/// The line that tells that the task's wall time is over.
fn task_line(task: &TaskRow) -> Result<Due, NoMemory>
    ensures { IfOk result (λ due. due ≡ TaskTimedOut task.now.job task.now.id) }
{
    let job = task.job.copy()?;
    Ok(Due::TaskTimedOut(job, task.id.copy()?))
}

/// The plan that stops the task.
fn stop_timed_out(alloc: Global, tables: &Tables, task: &TaskRow) -> Result<Plan, NoMemory>
    requires { KeysAreDistinct tables.now.state }
    ensures { IfOk result (IsPlanOf (answer_of_step (task_timed_out tables.now.state task.now)) tables.now.state) }
{
    let due = task_line(task)?;
    let changes = stop_task(alloc, tables, task, Want::Wall)?;
    Ok(Plan {
        reply: Reply::Step(due),
        changes: List::of_vec(changes),
    })
}

/// The plan that stops the first task whose wall time is over.
pub fn time_out_task_first(alloc: Global, indexed: &IndexedTables) -> Result<Option<Plan>, NoMemory>
    requires { KeysAreDistinct indexed.now.state }
    ensures { IfOk result (IsRule (time_out_task_first indexed.now.state) indexed.now.state) }
{
    match first_timed_out(indexed) {
        None => Ok(None),
        Some(task) => Ok(Some(stop_timed_out(alloc, indexed.tables(), task)?)),
    }
}

/// Whether the run is a release run that was taken and not asked to stop.
fn can_be_asked(run: &RunRow) -> bool
    ensures { result ≡ can_be_asked run.now }
{
    run.kind == RunKind::Release && run.state == RunState::Taken && !run.asked
}

/// The release task of the run's job.
fn release_of<'a>(tables: &'a Tables, run: &RunRow) -> Option<&'a ReleaseTask>
    ensures { option_copied result ≡ release_of tables.now.state run.now }
{
    match &run.job {
        None => None,
        Some(id) => match tables.find_job(id) {
            None => None,
            Some(job) => job.release.as_ref(),
        },
    }
}

/// How long the run of a release task may take, in milliseconds.
fn release_limit(tables: &Tables, run: &RunRow) -> Option<u64>
    ensures { result ≡ release_limit tables.now.state run.now }
{
    match release_of(tables, run) {
        None => None,
        Some(release) => Some(release.wall),
    }
}

/// Whether the run was taken, and the wall time of its release task is over since then.
fn is_release_over(tables: &Tables, run: &RunRow) -> bool
    ensures { result ≡ is_release_over tables.now.state run.now }
{
    match run.taken {
        None => false,
        Some(from) => has_passed(from, release_limit(tables, run), tables.moment()),
    }
}

/// Whether the run is a release run that can be asked to stop, and its wall time is over.
fn is_release_timed_out(tables: &Tables, run: &RunRow) -> bool
    ensures { result ≡ is_release_timed_out tables.now.state run.now }
{
    can_be_asked(run) && is_release_over(tables, run)
}

/// The first job with a release task.
fn first_with_release(tables: &Tables) -> Option<&JobRow>
    ensures { option_copied result ≡ find has_release_task tables.now.state.jobs }
{
    tables.jobs().find(|job| job.release.is_some())
}

/// The first release run whose wall time is over. It goes over the runs only if some job has a release task.
#[tactic(auto, using(crate::proofs::ReleaseTasks::none_timed_out))]
fn first_timed_out_release(tables: &Tables) -> Option<&RunRow>
    ensures { option_copied result ≡ find (is_release_timed_out tables.now.state) tables.now.state.runs }
{
    match first_with_release(tables) {
        None => None,
        Some(_) => tables.runs().find(|run| is_release_timed_out(tables, run)),
    }
}

/// The run, asked to stop.
fn asked_to_stop(run: &RunRow) -> Result<RunRow, NoMemory>
    ensures { IfOk result (λ row. row ≡ asked_to_stop run.now) }
{
    let mut row = run.copy()?;
    row.asked = true;
    Ok(row)
}

/// The plan that asks the release run to stop.
fn time_out_release(alloc: Global, tables: &Tables, run: &RunRow) -> Result<Plan, NoMemory>
    requires keys { KeysAreDistinct tables.now.state }
    requires there { run_of tables.now.state run.now.number ≡ Some run.now }
    ensures { IfOk result (IsPlanOf (answer_of_step (release_timed_out tables.now.state run.now)) tables.now.state) }
{
    let due = Due::ReleaseTimedOut(run.number);
    let row = Shared::new(alloc, asked_to_stop(run)?)?;
    step_one(alloc, due, Change::PutRun(row))
}

/// The plan that asks the first release run whose wall time is over to stop.
pub fn time_out_release_first(alloc: Global, tables: &Tables) -> Result<Option<Plan>, NoMemory>
    requires { KeysAreDistinct tables.now.state }
    ensures { IfOk result (IsRule (time_out_release_first tables.now.state) tables.now.state) }
{
    match first_timed_out_release(tables) {
        None => Ok(None),
        Some(run) => Ok(Some(time_out_release(alloc, tables, run)?)),
    }
}

/// Whether the job is not terminating, completed or deleting, and its wall time is over since it was added.
fn is_job_timed_out(tables: &Tables, job: &JobRow) -> bool
    ensures { result ≡ is_job_timed_out tables.now.state job.now }
{
    !is_past(job.state) && has_passed(job.created, job.wall, tables.moment())
}

/// The first such job.
fn first_timed_out_job(tables: &Tables) -> Option<&JobRow>
    ensures { option_copied result ≡ find (is_job_timed_out tables.now.state) tables.now.state.jobs }
{
    tables.jobs().find(|job| is_job_timed_out(tables, job))
}

/// The reason of a job whose wall time is over.
fn wall_time_over(alloc: Global) -> Result<Text, NoMemory>
    ensures { IfOk result (λ reason. reason ≡ wall_time_over) }
{
    Text::of_string(String::from_str(alloc, "MaxWallClockTimeExpiry")?)
}

/// The plan that terminates the job, since its wall time is over.
fn time_out_job(alloc: Global, tables: &Tables, job: &JobRow) -> Result<Plan, NoMemory>
    requires keys { KeysAreDistinct tables.now.state }
    requires there { job_of tables.now.state job.now.id ≡ Some job.now }
    requires apart { Each names_no_task tables.now.state.runs }
    ensures { IfOk result (IsPlanOf (answer_of_step (job_timed_out tables.now.state job.now)) tables.now.state) }
{
    let due = Due::JobTimedOut(job.id.copy()?);
    let why = wall_time_over(alloc)?;
    let changes = close(
        alloc,
        tables,
        tables.moment(),
        JobState::Terminating,
        why,
        job,
    )?;
    Ok(Plan {
        reply: Reply::Step(due),
        changes: List::of_vec(changes),
    })
}

/// The plan that terminates the first job whose wall time is over.
pub fn time_out_job_first(alloc: Global, tables: &Tables) -> Result<Option<Plan>, NoMemory>
    requires keys { KeysAreDistinct tables.now.state }
    requires apart { Each names_no_task tables.now.state.runs }
    ensures { IfOk result (IsRule (time_out_job_first tables.now.state) tables.now.state) }
{
    match first_timed_out_job(tables) {
        None => Ok(None),
        Some(job) => Ok(Some(time_out_job(alloc, tables, job)?)),
    }
}
