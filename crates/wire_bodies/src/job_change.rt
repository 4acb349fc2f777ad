//! The bodies of `patch-job`, `disable-job` and `terminate-job`.
ghost use Rattle.std.specs.Prelude.{◌≡◌, true, IfOk};
ghost use Rattle.serde_json.specs.View.{view};
ghost use Rattle.bt_base.specs.Fails.{Gives};
ghost use Rattle.bt_rows.specs.Ranges.{is_patch_in_range, is_reason, passes_if_some};
ghost use Rattle.wire_bodies.specs.JobChanges.{patch_in, patch_of, disable_of, reason_in, reason_of};

use crate::job_member::{limits_if, on_all_if, parallel_if, priority_if};
use crate::reason::is_reason_if_some;
use bt_base::{Fail, Text};
use bt_rows::event::{DisableTasks, JobPatch};
use bt_rows::member::Member;
use bt_rows::refusal::Refusal;
use serde_json::Value;
use std::alloc::Global;
use wire_members::{invalid_property, read_object, required_word, text_member};

/// The change of a job that the members of the body are.
#[tactic(auto, unfolding(crate::specs::JobChanges::patch_in))]
fn patch(body: &Value) -> Result<JobPatch, Fail<Refusal>>
    ensures value { Gives result (patch_in (view body.now)) }
    ensures kept { IfOk result (λ patch. is_patch_in_range patch ≡ true) }
{
    let priority = priority_if(body)?;
    let parallel = parallel_if(body)?;
    let limits = limits_if(body)?;
    let on_all = on_all_if(body)?;
    Ok(JobPatch {
        priority,
        parallel,
        limits,
        on_all,
    })
}

/// The body of `patch-job` (Azure: Update Job): `priority` from -1,000 to 1,000, `maxParallelTasks` from 1 to 2,147,483,647 or
/// -1 for no limit, `constraints` as for a job, and `onAllTasksComplete`, which is `noaction` or `terminatejob` in upper or lower
/// case. None of them is required, and an absent one has no default: it leaves the job as it is. Given `constraints` are given
/// whole: without `maxWallClockTime` the job has no limit of time any more, and without `maxTaskRetryCount` no retries.
///
/// Bytes that are not a JSON object are `UnreadableBody`. A member that is of a wrong kind or out of range is
/// `InvalidPropertyValue` with its name. It fails with `Memory` when out of memory.
#[tactic(auto, unfolding(crate::specs::JobChanges::patch_of))]
pub fn read_job_patch(alloc: Global, bytes: &[u8]) -> Result<JobPatch, Fail<Refusal>>
    ensures value { Gives result (patch_of bytes.now) }
    ensures kept { IfOk result (λ patch. is_patch_in_range patch ≡ true) }
{
    let body = read_object(alloc, bytes)?;
    patch(&body)
}

/// The body of `disable-job` (Azure: Disable Job): `disableTasks`, which is `requeue`, `terminate` or `wait` in upper or lower
/// case.
///
/// Bytes that are not a JSON object are `UnreadableBody`; an absent member and another value are
/// `InvalidPropertyValue(DisableTasks)`. It fails with `Memory` when out of memory.
#[tactic(auto, unfolding(crate::specs::JobChanges::disable_of))]
pub fn read_disable_tasks(alloc: Global, bytes: &[u8]) -> Result<DisableTasks, Fail<Refusal>>
    ensures { Gives result (disable_of bytes.now) }
{
    let body = read_object(alloc, bytes)?;
    required_word(Some(&body), Member::DisableTasks)
}

/// The reason that the members of the body state.
#[tactic(auto, unfolding(crate::specs::JobChanges::reason_in))]
fn reason(alloc: Global, body: &Value) -> Result<Option<Text>, Fail<Refusal>>
    ensures value { Gives result (reason_in (view body.now)) }
    ensures kept { IfOk result (λ reason. passes_if_some is_reason reason ≡ true) }
{
    let reason = text_member(alloc, Some(body), Member::TerminateReason)?;
    if is_reason_if_some(&reason) {
        Ok(reason)
    } else {
        Err(invalid_property(Member::TerminateReason))
    }
}

/// The body of `terminate-job` (Azure: Terminate Job): `terminateReason`, 1 to 256 bytes without control characters, which are
/// those below U+0020 and those from U+007F to U+009F; None if it is absent.
///
/// Bytes that are not a JSON object are `UnreadableBody`; another value is `InvalidPropertyValue(TerminateReason)`. It fails
/// with `Memory` when out of memory.
#[tactic(auto, unfolding(crate::specs::JobChanges::reason_of))]
pub fn read_terminate_reason(alloc: Global, bytes: &[u8]) -> Result<Option<Text>, Fail<Refusal>>
    ensures value { Gives result (reason_of bytes.now) }
    ensures kept { IfOk result (λ reason. passes_if_some is_reason reason ≡ true) }
{
    let body = read_object(alloc, bytes)?;
    reason(alloc, &body)
}
