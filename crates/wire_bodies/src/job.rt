//! The body of `add-job`.
ghost use Rattle.std.specs.Prelude.{◌≡◌, true, pos, negsuc, unwrap_or, IfOk};
ghost use Rattle.serde_json.specs.View.{view};
ghost use Rattle.bt_base.specs.Fails.{Gives};
ghost use Rattle.bt_rows.specs.Ranges.{is_job_spec_in_range, are_limits_in_range, is_parallel, is_priority, is_retry_limit, is_duration, passes_if_some};
ghost use Rattle.wire_bodies.specs.Jobs.{limits_or_none, job_spec_in, job_in, job_of};

use crate::job_member::{limits_if, on_all_if, on_fail_if, parallel_if, priority_if};
use crate::job_task::{preparation_if, release_if};
use bt_base::{Fail, Id};
use bt_rows::event::{JobSpec, Limits};
use bt_rows::member::Member;
use bt_rows::refusal::Refusal;
use serde_json::Value;
use std::alloc::Global;
use wire_members::{flag_member, id_member, object_member, read_object};

/// The limits; no wall time and no retries if there are none.
fn limits_or_none(limits: Option<Limits>) -> Limits
    requires { passes_if_some are_limits_in_range limits ≡ true }
    ensures value { result ≡ limits_or_none limits }
    ensures retries { is_retry_limit result.retries ≡ true }
    ensures wall { passes_if_some is_duration result.wall ≡ true }
{
    limits.unwrap_or(Limits {
        retries: 0,
        wall: None,
    })
}

/// The priority; 0 if there is none.
fn priority_or_zero(priority: Option<i32>) -> i32
    requires { passes_if_some is_priority priority ≡ true }
    ensures value { result ≡ unwrap_or priority (pos 0) }
    ensures kept { is_priority result ≡ true }
{
    priority.unwrap_or(0)
}

/// The greatest number of placed tasks; no limit if there is none.
fn parallel_or_none(parallel: Option<i32>) -> i32
    requires { passes_if_some is_parallel parallel ≡ true }
    ensures value { result ≡ unwrap_or parallel (negsuc 0) }
    ensures kept { is_parallel result ≡ true }
{
    parallel.unwrap_or(-1)
}

/// The job that the members of the body are, as those of `add-job` but for the id.
#[tactic(auto, unfolding(crate::specs::Jobs::job_spec_in))]
pub fn read_job_spec(alloc: Global, body: &Value) -> Result<JobSpec, Fail<Refusal>>
    ensures value { Gives result (job_spec_in (view body.now)) }
    ensures kept { IfOk result (λ spec. is_job_spec_in_range spec ≡ true) }
{
    let priority = priority_if(body)?;
    let parallel = parallel_if(body)?;
    let limits = limits_if(body)?;
    let deps = flag_member(Some(body), Member::UsesTaskDependencies, false)?;
    let on_all = on_all_if(body)?;
    let on_fail = on_fail_if(body)?;
    let prep = preparation_if(alloc, body)?;
    let release = release_if(alloc, prep.is_some(), body)?;
    let place = object_member(Some(body), Member::PoolInfo)?;
    let pool = id_member(alloc, place, Member::PoolId)?;
    let limits = limits_or_none(limits);
    Ok(JobSpec {
        pool,
        priority: priority_or_zero(priority),
        parallel: parallel_or_none(parallel),
        retries: limits.retries,
        wall: limits.wall,
        deps,
        on_all: on_all.unwrap_or(false),
        on_fail: on_fail.unwrap_or(false),
        prep,
        release,
    })
}

/// The job that the members of the body are, and its id.
#[tactic(auto, unfolding(crate::specs::Jobs::job_in))]
fn job(alloc: Global, body: &Value) -> Result<(Id, JobSpec), Fail<Refusal>>
    ensures value { Gives result (job_in (view body.now)) }
    ensures kept { IfOk result (λ job. is_job_spec_in_range job.1 ≡ true) }
{
    let id = id_member(alloc, Some(body), Member::Id)?;
    let spec = read_job_spec(alloc, body)?;
    Ok((id, spec))
}

/// The body of `add-job` (Azure: Create Job): `id`, the members below, with their defaults, and `poolInfo` with `poolId`.
///
/// - `priority` from -1,000 to 1,000 (0);
/// - `maxParallelTasks` from 1 to 2,147,483,647, or -1 for no limit (-1);
/// - `constraints` with `maxWallClockTime`, a duration of at most 36,500 days (no limit), and `maxTaskRetryCount` from -1, for no
///   limit, to 1,000,000 (0);
/// - `usesTaskDependencies` (false);
/// - `onAllTasksComplete`, which is `noaction` or `terminatejob` in upper or lower case (`noaction`);
/// - `onTaskFailure`, which is `noaction` or `performexitoptionsjobaction` in upper or lower case (`noaction`);
/// - `jobPreparationTask`, as `preparation_if` reads it (none);
/// - `jobReleaseTask`, as `release_if` reads it (none).
///
/// Bytes that are not a JSON object are `UnreadableBody`. A member that is of a wrong kind or out of range, and an absent one that
/// is required, are `InvalidPropertyValue` with its name; an absent `poolInfo` is refused as `poolId`. It fails with `Memory` when
/// out of memory.
#[tactic(auto, unfolding(crate::specs::Jobs::job_of))]
pub fn read_job(alloc: Global, bytes: &[u8]) -> Result<(Id, JobSpec), Fail<Refusal>>
    ensures value { Gives result (job_of bytes.now) }
    ensures kept { IfOk result (λ job. is_job_spec_in_range job.1 ≡ true) }
{
    let body = read_object(alloc, bytes)?;
    job(alloc, &body)
}
