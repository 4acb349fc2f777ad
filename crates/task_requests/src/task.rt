//! Events of tasks.
ghost use Rattle.std.specs.Prelude.{◌≡◌, not, nat_le, length, IfOk, is_some, false};
ghost use Rattle.std.specs.List.{list_any};
ghost use Rattle.std.specs.Option.{option_map_or};
ghost use Rattle.bt_rows.specs.declared.refusal.Refusal.TheVariants.{JobNotFound};
ghost use Rattle.batch_model.specs.Events.{accept, add_task, for_row, has_given, has_long_needs, task_refusals, uses_dependencies};
ghost use Rattle.batch_model.specs.Finding.{first_of};
ghost use Rattle.batch_model.specs.Limits.{needs_limit, task_limit};
ghost use Rattle.batch_model.specs.Rows.{is_task, job_of, task_of, add_task_row};
ghost use Rattle.batch_model.specs.Tasks.{new_task};
ghost use Rattle.batch_model.specs.WellFormed.{needs_length};
ghost use Rattle.machine_plans.specs.Plans.{IsAnswer, IsPlanOf, with_moment};
ghost use Rattle.task_requests.specs.Collections.{with_tasks};
ghost use Rattle.task_requests.specs.Stated.{is_stated};

use bt_base::{Duplicate, Fail, Id, NoMemory, Shared};
use bt_rows::event::TaskSpec;
use bt_rows::job::JobRow;
use bt_rows::limits::{DEPENDENCY_ID_LIMIT, TASK_LIMIT};
use bt_rows::plan::Plan;
use bt_rows::refusal::{Refusal, Table};
use bt_rows::tables::{Change, Tables};
use bt_rows::task::{Given, TaskRow, TaskStage};
use machine_plans::accept_one;
use std::alloc::Global;
use table_scans::is_past;

/// Whether the job has a task with this id in the tables, whatever its case.
fn has_row(tables: &Tables, job: &Id, id: &Id) -> bool
    ensures { result ≡ list_any (is_task job.now id.now) tables.now.state.tasks }
{
    tables.find_task(job, id).is_some()
}

/// Whether the task is the job's with this id, whatever its case.
fn is_task(task: &TaskRow, job: &Id, id: &Id) -> bool
    ensures { result ≡ is_task job.now id.now task.now }
{
    task.job.same(job) && task.id.same(id)
}

/// Whether one of the tasks is the job's with this id, whatever its case.
fn has_task(tasks: &[Shared<TaskRow>], job: &Id, id: &Id) -> bool
    ensures { result ≡ list_any (is_task job.now id.now) tasks.now }
{
    tasks.iter().any(|task| is_task(task.get(), job, id))
}

/// Whether the job has a task with this id, whatever its case, in the tables or among the added ones.
#[tactic(auto, using(crate::proofs::AnsweredTasks::found_first, crate::proofs::AnsweredTasks::found_second))]
fn is_known(tables: &Tables, added: &[Shared<TaskRow>], job: &Id, id: &Id) -> bool
    ensures { result ≡ is_some (task_of (with_tasks added.now tables.now.state) job.now id.now) }
{
    has_row(tables, job, id) || has_task(added, job, id)
}

/// Whether the tables and the added tasks together have as many tasks as the limit.
fn is_full(tables: &Tables, added: &[Shared<TaskRow>]) -> bool
    ensures { result ≡ nat_le task_limit (length (with_tasks added.now tables.now.state).tasks) }
{
    let room = TASK_LIMIT.saturating_sub(tables.task_count() as u64);
    added.len() as u64 >= room
}

/// What exit options may state.
#[derive(Clone, Copy)]
pub enum Stated {
    /// Whether dependent tasks may go on (Azure: dependencyAction).
    DependencyAction,
    /// What becomes of the job (Azure: jobAction).
    JobAction,
}

/// Whether the exit options state it.
fn is_stated(stated: Stated, options: &Given) -> bool
    ensures { result ≡ is_stated stated options.now }
{
    match stated {
        Stated::DependencyAction => options.satisfies.is_some(),
        Stated::JobAction => options.job.is_some(),
    }
}

/// Whether there are exit options that state it.
fn is_stated_if_given(stated: Stated, options: Option<Given>) -> bool
    ensures { result ≡ option_map_or (is_stated stated) options false }
{
    match options {
        None => false,
        Some(options) => is_stated(stated, &options),
    }
}

/// Whether exit options for a single exit code state it.
fn is_stated_for_code(stated: Stated, codes: &[(i32, Given)]) -> bool
    ensures { result ≡ list_any (λ entry. is_stated stated entry.1) codes.now }
{
    codes.iter().any(|entry| is_stated(stated, &entry.1))
}

/// Whether exit options for a range of exit codes state it.
fn is_stated_for_range(stated: Stated, ranges: &[(i32, i32, Given)]) -> bool
    ensures { result ≡ list_any (λ entry. is_stated stated entry.2) ranges.now }
{
    ranges.iter().any(|entry| is_stated(stated, &entry.2))
}

/// Whether exit options of the task state it.
fn has_given(stated: Stated, spec: &TaskSpec) -> bool
    ensures { result ≡ has_given (is_stated stated) spec.now }
{
    is_stated_for_code(stated, spec.settings.codes())
        || is_stated_for_range(stated, spec.settings.ranges())
        || is_stated_if_given(stated, spec.settings.launch())
        || is_stated_if_given(stated, spec.settings.other())
}

/// Whether the task depends on others, or states whether those that depend on it may go on.
fn uses_dependencies(spec: &TaskSpec) -> bool
    ensures { result ≡ uses_dependencies spec.now }
{
    !spec.settings.needs().is_empty()
        || !spec.settings.spans().is_empty()
        || has_given(Stated::DependencyAction, spec)
}

/// Why the job does not take the task after those that are added before it, if it does not: `UnreadableBody` for a task of several
/// instances, which is not built, `TaskExists`, `DependenciesOff`, `DependencyListTooLong`, `JobActionOff` or `TableFull`, in this
/// order.
pub fn task_refusal(
    tables: &Tables,
    added: &[Shared<TaskRow>],
    job: &JobRow,
    spec: &TaskSpec,
) -> Option<Refusal>
    ensures { result ≡ first_of (task_refusals (with_tasks added.now tables.now.state) job.now spec.now) }
{
    if spec.settings.has_instances() {
        return Some(Refusal::UnreadableBody);
    }
    if is_known(tables, added, &job.id, &spec.id) {
        return Some(Refusal::TaskExists);
    }
    if uses_dependencies(spec) && !job.deps {
        return Some(Refusal::DependenciesOff);
    }
    if has_long_needs(spec) {
        return Some(Refusal::DependencyListTooLong);
    }
    if has_given(Stated::JobAction, spec) && !job.on_fail {
        return Some(Refusal::JobActionOff);
    }
    if is_full(tables, added) {
        return Some(Refusal::TableFull(Table::Tasks, TASK_LIMIT));
    }
    None
}

/// Whether the ids have more characters together than the limit.
fn are_long(needs: &[Id]) -> bool
    ensures { result ≡ not (nat_le (needs_length needs.now) needs_limit) }
{
    let mut left = DEPENDENCY_ID_LIMIT;
    for need in needs {
        let length = need.as_str().len();
        if length > left {
            return true;
        }
        left -= length;
    }
    false
}

/// Whether the ids that the task depends on have more characters together than the limit.
fn has_long_needs(spec: &TaskSpec) -> bool
    ensures { result ≡ has_long_needs spec.now }
{
    are_long(spec.settings.needs())
}

/// A task that is added to the job with this id.
pub fn new_task(job: &Id, spec: &TaskSpec) -> Result<TaskRow, NoMemory>
    ensures { IfOk result (λ task. task ≡ new_task job.now spec.now) }
{
    let job = job.copy()?;
    let id = spec.id.copy()?;
    let line = spec.line.copy()?;
    let settings = spec.settings.copy()?;
    Ok(TaskRow {
        job,
        id,
        line,
        slots: spec.slots,
        settings,
        stage: TaskStage::Active,
        attempt: 0,
        failures: 0,
        wanted: None,
        fail: None,
        started: None,
        closed: None,
    })
}

/// The plan that adds a task whose job has none with its id.
fn put_new_task(
    alloc: Global,
    tables: &Tables,
    now: u64,
    task: Shared<TaskRow>,
) -> Result<Plan, NoMemory>
    requires { is_some (task_of tables.now.state task.job task.id) ≡ false }
    ensures { IfOk result (IsPlanOf (accept 201 (add_task_row task (with_moment now tables.now.state))) tables.now.state) }
{
    accept_one(alloc, tables, now, 201, Change::PutTask(task))
}

/// The answer to `add-task` to the job that was found.
fn add_task_to(
    alloc: Global,
    tables: &Tables,
    now: u64,
    spec: &TaskSpec,
    job: &JobRow,
) -> Result<Plan, Fail<Refusal>>
    ensures { IsAnswer now (add_task (with_moment now tables.now.state) spec.now job.now) tables.now.state result }
{
    if is_past(job.state) {
        return Err(Fail::Why(Refusal::JobStateRefuses(job.state)));
    }
    match task_refusal(tables, &[], job, spec) {
        Some(refusal) => Err(Fail::Why(refusal)),
        None => {
            let task = Shared::new(alloc, new_task(&job.id, spec)?)?;
            Ok(put_new_task(alloc, tables, now, task)?)
        }
    }
}

/// The answer to `add-task`.
pub fn add_task(
    alloc: Global,
    tables: &Tables,
    now: u64,
    job: &Id,
    spec: &TaskSpec,
) -> Result<Plan, Fail<Refusal>>
    ensures { IsAnswer now (for_row (with_moment now tables.now.state) JobNotFound (add_task (with_moment now tables.now.state) spec.now) (job_of (with_moment now tables.now.state) job.now)) tables.now.state result }
{
    match tables.find_job(job) {
        Some(job) => add_task_to(alloc, tables, now, spec, job),
        None => Err(Fail::Why(Refusal::JobNotFound)),
    }
}
