//! Events of jobs.
ghost use Rattle.std.specs.Prelude.{◌≡◌, IfOk, is_some, false};
ghost use Rattle.bt_rows.specs.declared.refusal.Refusal.TheVariants.{PoolNotFound};
ghost use Rattle.batch_model.specs.Events.{accept, add_job, add_job_in, for_row};
ghost use Rattle.batch_model.specs.Jobs.{new_job};
ghost use Rattle.batch_model.specs.Rows.{job_of, pool_of, add_job_row};
ghost use Rattle.machine_plans.specs.Plans.{IsAnswer, IsPlanOf, with_moment};

use bt_base::{Duplicate, Fail, Id, NoMemory, Shared};
use bt_rows::event::JobSpec;
use bt_rows::job::{JobRow, JobState};
use bt_rows::limits::JOB_LIMIT;
use bt_rows::plan::Plan;
use bt_rows::pool::PoolRow;
use bt_rows::refusal::{Refusal, Table};
use bt_rows::tables::{Change, Tables};
use machine_plans::accept_one;
use std::alloc::Global;

/// A job that is added at `now`, with the id of its pool as the pool spells it.
fn new_job(now: u64, id: &Id, pool: &Id, spec: &JobSpec) -> Result<JobRow, NoMemory>
    ensures { IfOk result (λ job. job ≡ new_job now id.now pool.now spec.now) }
{
    Ok(JobRow {
        id: id.copy()?,
        pool: pool.copy()?,
        state: JobState::Active,
        priority: spec.priority,
        parallel: spec.parallel,
        retries: spec.retries,
        wall: spec.wall,
        deps: spec.deps,
        on_all: spec.on_all,
        on_fail: spec.on_fail,
        prep: spec.prep.clone()?,
        release: spec.release.clone()?,
        created: now,
        reason: None,
    })
}

/// The plan that adds a job whose id no job has.
fn put_new_job(
    alloc: Global,
    tables: &Tables,
    now: u64,
    job: Shared<JobRow>,
) -> Result<Plan, NoMemory>
    requires { is_some (job_of tables.now.state job.id) ≡ false }
    ensures { IfOk result (IsPlanOf (accept 201 (add_job_row job (with_moment now tables.now.state))) tables.now.state) }
{
    accept_one(alloc, tables, now, 201, Change::PutJob(job))
}

/// The answer to `add-job` in the pool that was found.
fn add_job_in(
    alloc: Global,
    tables: &Tables,
    now: u64,
    id: &Id,
    spec: &JobSpec,
    pool: &PoolRow,
) -> Result<Plan, Fail<Refusal>>
    requires { is_some (job_of tables.now.state id.now) ≡ false }
    ensures { IsAnswer now (add_job_in (with_moment now tables.now.state) id.now spec.now pool.now) tables.now.state result }
{
    if pool.deleting {
        return Err(Fail::Why(Refusal::PoolBeingDeleted));
    }
    if tables.job_count() as u64 >= JOB_LIMIT {
        return Err(Fail::Why(Refusal::TableFull(Table::Jobs, JOB_LIMIT)));
    }
    let job = Shared::new(alloc, new_job(now, id, &pool.id, spec)?)?;
    Ok(put_new_job(alloc, tables, now, job)?)
}

/// The answer to `add-job` with an id that no job has.
fn add_new_job(
    alloc: Global,
    tables: &Tables,
    now: u64,
    id: &Id,
    spec: &JobSpec,
) -> Result<Plan, Fail<Refusal>>
    requires { is_some (job_of tables.now.state id.now) ≡ false }
    ensures { IsAnswer now (for_row (with_moment now tables.now.state) PoolNotFound (add_job_in (with_moment now tables.now.state) id.now spec.now) (pool_of (with_moment now tables.now.state) spec.now.pool)) tables.now.state result }
{
    match tables.find_pool(&spec.pool) {
        Some(pool) => add_job_in(alloc, tables, now, id, spec, pool),
        None => Err(Fail::Why(Refusal::PoolNotFound)),
    }
}

/// The answer to `add-job`.
pub fn add_job(
    alloc: Global,
    tables: &Tables,
    now: u64,
    id: &Id,
    spec: &JobSpec,
) -> Result<Plan, Fail<Refusal>>
    ensures { IsAnswer now (add_job (with_moment now tables.now.state) id.now spec.now) tables.now.state result }
{
    if tables.find_job(id).is_some() {
        return Err(Fail::Why(Refusal::JobExists));
    }
    add_new_job(alloc, tables, now, id, spec)
}
