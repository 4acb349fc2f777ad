//! Events that change a job, and its placed tasks with it: `patch-job`, `disable-job`, `enable-job`, `terminate-job` and `delete-job`.
ghost use Rattle.std.specs.Prelude.{◌≡◌, Some, IfOk, unwrap_or};
ghost use Rattle.std.specs.Option.{option_copied};
ghost use Rattle.bt_rows.specs.declared.refusal.Refusal.TheVariants.{JobNotFound};
ghost use Rattle.batch_model.specs.Events.{accept, delete_job, disable_job, enable_job, for_row, patch_job, patched, takes_end_back, terminate_job, user_terminate};
ghost use Rattle.batch_model.specs.Finding.{Each};
ghost use Rattle.batch_model.specs.Jobs.{can_disable};
ghost use Rattle.batch_model.specs.Rows.{job_of, put_job};
ghost use Rattle.batch_model.specs.Sound.{names_no_task};
ghost use Rattle.batch_model.specs.WellFormed.{KeysAreDistinct};
ghost use Rattle.machine_plans.specs.Plans.{IsAnswer, IsPlanOf, with_moment};

use bt_base::{Duplicate, Fail, Id, NoMemory, Shared, Text};
use bt_rows::event::{DisableTasks, JobPatch};
use bt_rows::job::{JobRow, JobState};
use bt_rows::plan::Plan;
use bt_rows::refusal::Refusal;
use bt_rows::tables::{Change, Tables};
use machine_plans::{accept_listed, accept_one};
use std::alloc::Global;
use table_scans::is_past;
use task_stops::{close, disable, job_in};

/// The job with the values that the change gives in place of the old ones.
fn patched(patch: &JobPatch, job: &JobRow) -> Result<JobRow, NoMemory>
    ensures { IfOk result (λ row. row ≡ patched patch.now job.now) }
{
    let mut row = job.copy()?;
    if let Some(limits) = &patch.limits {
        row.retries = limits.retries;
        row.wall = limits.wall;
    }
    row.priority = patch.priority.unwrap_or(job.priority);
    row.parallel = patch.parallel.unwrap_or(job.parallel);
    row.on_all = patch.on_all.unwrap_or(job.on_all);
    Ok(row)
}

/// The plan that puts a job in the place of the one that is there.
fn put_job(
    alloc: Global,
    tables: &Tables,
    now: u64,
    status: u16,
    job: &JobRow,
    row: Shared<JobRow>,
) -> Result<Plan, NoMemory>
    requires keys { KeysAreDistinct tables.now.state }
    requires there { job_of tables.now.state job.now.id ≡ Some job.now }
    requires same { row.id ≡ job.now.id }
    ensures { IfOk result (IsPlanOf (accept status (put_job row (with_moment now tables.now.state))) tables.now.state) }
{
    accept_one(alloc, tables, now, status, Change::PutJob(row))
}

/// Whether the change takes back that the job is terminated with its tasks.
fn takes_end_back(patch: &JobPatch, job: &JobRow) -> bool
    ensures { result ≡ takes_end_back patch.now job.now }
{
    job.on_all && !patch.on_all.unwrap_or(true)
}

/// The answer to `patch-job` of the job that was found.
fn patch_found(
    alloc: Global,
    tables: &Tables,
    now: u64,
    patch: &JobPatch,
    job: &JobRow,
) -> Result<Plan, Fail<Refusal>>
    requires keys { KeysAreDistinct tables.now.state }
    requires there { job_of tables.now.state job.now.id ≡ Some job.now }
    ensures { IsAnswer now (patch_job (with_moment now tables.now.state) patch.now job.now) tables.now.state result }
{
    if is_past(job.state) {
        return Err(Fail::Why(Refusal::JobStateRefuses(job.state)));
    }
    if takes_end_back(patch, job) {
        return Err(Fail::Why(Refusal::TerminationEngaged));
    }
    let row = Shared::new(alloc, patched(patch, job)?)?;
    Ok(put_job(alloc, tables, now, 200, job, row)?)
}

/// The answer to `patch-job`.
pub fn patch_job(
    alloc: Global,
    tables: &Tables,
    now: u64,
    id: &Id,
    patch: &JobPatch,
) -> Result<Plan, Fail<Refusal>>
    requires keys { KeysAreDistinct tables.now.state }
    ensures { IsAnswer now (for_row (with_moment now tables.now.state) JobNotFound (patch_job (with_moment now tables.now.state) patch.now) (job_of (with_moment now tables.now.state) id.now)) tables.now.state result }
{
    match tables.find_job(id) {
        Some(job) => patch_found(alloc, tables, now, patch, job),
        None => Err(Fail::Why(Refusal::JobNotFound)),
    }
}

/// The answer to `enable-job` of the job that was found. Only a disabled job is enabled.
fn enable_found(
    alloc: Global,
    tables: &Tables,
    now: u64,
    job: &JobRow,
) -> Result<Plan, Fail<Refusal>>
    requires keys { KeysAreDistinct tables.now.state }
    requires there { job_of tables.now.state job.now.id ≡ Some job.now }
    ensures { IsAnswer now (enable_job (with_moment now tables.now.state) job.now) tables.now.state result }
{
    if job.state != JobState::Disabled {
        return Err(Fail::Why(Refusal::JobStateRefuses(job.state)));
    }
    let row = Shared::new(alloc, job_in(JobState::Enabling, job)?)?;
    Ok(put_job(alloc, tables, now, 202, job, row)?)
}

/// The answer to `enable-job`.
pub fn enable_job(alloc: Global, tables: &Tables, now: u64, id: &Id) -> Result<Plan, Fail<Refusal>>
    requires keys { KeysAreDistinct tables.now.state }
    ensures { IsAnswer now (for_row (with_moment now tables.now.state) JobNotFound (enable_job (with_moment now tables.now.state)) (job_of (with_moment now tables.now.state) id.now)) tables.now.state result }
{
    match tables.find_job(id) {
        Some(job) => enable_found(alloc, tables, now, job),
        None => Err(Fail::Why(Refusal::JobNotFound)),
    }
}

/// Whether the job is active, disabling or disabled.
pub fn can_disable(state: JobState) -> bool
    ensures { result ≡ can_disable state }
{
    matches!(
        state,
        JobState::Active | JobState::Disabling | JobState::Disabled
    )
}

/// The answer to `disable-job` of the job that was found.
fn disable_found(
    alloc: Global,
    tables: &Tables,
    now: u64,
    option: DisableTasks,
    job: &JobRow,
) -> Result<Plan, Fail<Refusal>>
    requires keys { KeysAreDistinct tables.now.state }
    requires there { job_of tables.now.state job.now.id ≡ Some job.now }
    ensures { IsAnswer now (disable_job (with_moment now tables.now.state) option job.now) tables.now.state result }
{
    if !can_disable(job.state) {
        return Err(Fail::Why(Refusal::JobStateRefuses(job.state)));
    }
    let changes = disable(alloc, tables, now, option, job)?;
    Ok(accept_listed(alloc, tables, now, 202, changes)?)
}

/// The answer to `disable-job`.
pub fn disable_job(
    alloc: Global,
    tables: &Tables,
    now: u64,
    id: &Id,
    option: DisableTasks,
) -> Result<Plan, Fail<Refusal>>
    requires keys { KeysAreDistinct tables.now.state }
    ensures { IsAnswer now (for_row (with_moment now tables.now.state) JobNotFound (disable_job (with_moment now tables.now.state) option) (job_of (with_moment now tables.now.state) id.now)) tables.now.state result }
{
    match tables.find_job(id) {
        Some(job) => disable_found(alloc, tables, now, option, job),
        None => Err(Fail::Why(Refusal::JobNotFound)),
    }
}

/// The reason of a termination that names none.
fn user_terminate(alloc: Global) -> Result<Text, NoMemory>
    ensures { IfOk result (λ reason. reason ≡ user_terminate) }
{
    Text::of_string(String::from_str(alloc, "UserTerminate")?)
}

/// The reason that is named, or else that of a termination that names none.
fn reason_or_usual(alloc: Global, reason: Option<&Text>) -> Result<Text, NoMemory>
    ensures { IfOk result (λ why. why ≡ unwrap_or (option_copied reason.entry) user_terminate) }
{
    match reason {
        Some(reason) => Ok(reason.clone()?),
        None => user_terminate(alloc),
    }
}

/// The answer to `terminate-job` of the job that was found.
fn terminate_found(
    alloc: Global,
    tables: &Tables,
    now: u64,
    reason: Option<&Text>,
    job: &JobRow,
) -> Result<Plan, Fail<Refusal>>
    requires keys { KeysAreDistinct tables.now.state }
    requires there { job_of tables.now.state job.now.id ≡ Some job.now }
    requires apart { Each names_no_task tables.now.state.runs }
    ensures { IsAnswer now (terminate_job (with_moment now tables.now.state) (option_copied reason.entry) job.now) tables.now.state result }
{
    let state = job.state;
    if is_past(state) {
        return Err(Fail::Why(Refusal::JobStateRefuses(state)));
    }
    let why = reason_or_usual(alloc, reason)?;
    let changes = close(alloc, tables, now, JobState::Terminating, why, job)?;
    Ok(accept_listed(alloc, tables, now, 202, changes)?)
}

/// The answer to `terminate-job`.
pub fn terminate_job(
    alloc: Global,
    tables: &Tables,
    now: u64,
    id: &Id,
    reason: Option<&Text>,
) -> Result<Plan, Fail<Refusal>>
    requires keys { KeysAreDistinct tables.now.state }
    requires apart { Each names_no_task tables.now.state.runs }
    ensures { IsAnswer now (for_row (with_moment now tables.now.state) JobNotFound (terminate_job (with_moment now tables.now.state) (option_copied reason.entry)) (job_of (with_moment now tables.now.state) id.now)) tables.now.state result }
{
    match tables.find_job(id) {
        Some(job) => terminate_found(alloc, tables, now, reason, job),
        None => Err(Fail::Why(Refusal::JobNotFound)),
    }
}

/// The answer to `delete-job` of the job that was found.
fn delete_found(
    alloc: Global,
    tables: &Tables,
    now: u64,
    job: &JobRow,
) -> Result<Plan, Fail<Refusal>>
    requires keys { KeysAreDistinct tables.now.state }
    requires there { job_of tables.now.state job.now.id ≡ Some job.now }
    requires apart { Each names_no_task tables.now.state.runs }
    ensures { IsAnswer now (delete_job (with_moment now tables.now.state) job.now) tables.now.state result }
{
    if job.state == JobState::Deleting {
        return Err(Fail::Why(Refusal::JobStateRefuses(job.state)));
    }
    let why = user_terminate(alloc)?;
    let changes = close(alloc, tables, now, JobState::Deleting, why, job)?;
    Ok(accept_listed(alloc, tables, now, 202, changes)?)
}

/// The answer to `delete-job`.
pub fn delete_job(alloc: Global, tables: &Tables, now: u64, id: &Id) -> Result<Plan, Fail<Refusal>>
    requires keys { KeysAreDistinct tables.now.state }
    requires apart { Each names_no_task tables.now.state.runs }
    ensures { IsAnswer now (for_row (with_moment now tables.now.state) JobNotFound (delete_job (with_moment now tables.now.state)) (job_of (with_moment now tables.now.state) id.now)) tables.now.state result }
{
    match tables.find_job(id) {
        Some(job) => delete_found(alloc, tables, now, job),
        None => Err(Fail::Why(Refusal::JobNotFound)),
    }
}
