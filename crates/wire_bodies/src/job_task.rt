//! Preparation and release tasks in the body of `add-job`. A member that is of a wrong kind or out of range and an absent
//! `commandLine` are `InvalidPropertyValue` with its name. The readers fail with `Memory` when out of memory.
ghost use Rattle.std.specs.Prelude.{◌≡◌, ◌||◌, true, is_none, option_map, IfOk};
ghost use Rattle.serde_json.specs.View.{view};
ghost use Rattle.bt_base.specs.Fails.{Gives};
ghost use Rattle.bt_rows.specs.Ranges.{is_start_in_range, is_release_in_range, passes_if_some};
ghost use Rattle.wire_bodies.specs.JobTasks.{preparation_in, preparation_of, preparation_if, release_in, release_of, release_if};

use bt_base::Fail;
use bt_rows::job::ReleaseTask;
use bt_rows::limits::{RELEASE_TIME_LIMIT, RETRY_LIMIT};
use bt_rows::member::Member;
use bt_rows::pool::StartTask;
use bt_rows::refusal::Refusal;
use serde_json::Value;
use std::alloc::Global;
use wire_members::{
    command_member, flag_member, invalid_property, limited_duration_member, object_member,
    signed_member,
};

/// The preparation task that the members of an object are.
#[tactic(auto, unfolding(crate::specs::JobTasks::preparation_in))]
fn preparation(alloc: Global, part: &Value) -> Result<StartTask, Fail<Refusal>>
    ensures value { Gives result (preparation_in (view part.now)) }
    ensures kept { IfOk result (λ task. is_start_in_range task ≡ true) }
{
    let line = command_member(alloc, Some(part), Member::CommandLine)?;
    let limits = object_member(Some(part), Member::Constraints)?;
    let retry_limit = i64::from(RETRY_LIMIT);
    let retries = signed_member(limits, Member::MaxTaskRetryCount, -1, retry_limit, 0)?;
    let wait = flag_member(Some(part), Member::WaitForSuccess, true)?;
    Ok(StartTask {
        line,
        retries: retries as i32,
        wait,
    })
}

/// The preparation task that an object is, None if there is no object.
#[tactic(auto, unfolding(crate::specs::JobTasks::preparation_of))]
fn preparation_of(alloc: Global, part: Option<&Value>) -> Result<Option<StartTask>, Fail<Refusal>>
    ensures value { Gives result (preparation_of (option_map (λ v. view v.now) part.entry)) }
    ensures kept { IfOk result (λ task. passes_if_some is_start_in_range task ≡ true) }
{
    match part {
        None => Ok(None),
        Some(part) => Ok(Some(preparation(alloc, part)?)),
    }
}

/// The preparation task of the job, None if it has none (Azure: jobPreparationTask): `commandLine`, `constraints` with
/// `maxTaskRetryCount` from -1, for no limit, to 1,000,000 (default 0), and `waitForSuccess` (default true).
#[tactic(auto, unfolding(crate::specs::JobTasks::preparation_if))]
pub fn preparation_if(alloc: Global, body: &Value) -> Result<Option<StartTask>, Fail<Refusal>>
    ensures value { Gives result (preparation_if (view body.now)) }
    ensures kept { IfOk result (λ task. passes_if_some is_start_in_range task ≡ true) }
{
    let part = object_member(Some(body), Member::JobPreparationTask)?;
    preparation_of(alloc, part)
}

/// The release task that the members of an object are.
#[tactic(auto, unfolding(crate::specs::JobTasks::release_in))]
fn release(alloc: Global, part: &Value) -> Result<ReleaseTask, Fail<Refusal>>
    ensures value { Gives result (release_in (view part.now)) }
    ensures kept { IfOk result (λ task. is_release_in_range task ≡ true) }
{
    let line = command_member(alloc, Some(part), Member::CommandLine)?;
    let limit = RELEASE_TIME_LIMIT;
    let wall = limited_duration_member(
        Some(part),
        Member::MaxWallClockTime,
        0,
        limit,
        RELEASE_TIME_LIMIT,
    )?;
    Ok(ReleaseTask { line, wall })
}

/// The release task that an object is, None if there is no object; refused if the job has no preparation task.
#[tactic(auto, unfolding(crate::specs::JobTasks::release_of))]
fn release_of(
    alloc: Global,
    prepared: bool,
    part: Option<&Value>,
) -> Result<Option<ReleaseTask>, Fail<Refusal>>
    ensures value { Gives result (release_of prepared (option_map (λ v. view v.now) part.entry)) }
    ensures kept { IfOk result (λ task. passes_if_some is_release_in_range task ≡ true) }
    ensures paired { IfOk result (λ task. (is_none task || prepared) ≡ true) }
{
    match part {
        None => Ok(None),
        Some(part) => {
            if prepared {
                Ok(Some(release(alloc, part)?))
            } else {
                Err(invalid_property(Member::JobReleaseTask))
            }
        }
    }
}

/// The release task of the job, None if it has none (Azure: jobReleaseTask): `commandLine`, and `maxWallClockTime`, a duration of
/// at most 15 minutes, which is the default. It is refused by its own name if the job has no preparation task.
#[tactic(auto, unfolding(crate::specs::JobTasks::release_if))]
pub fn release_if(
    alloc: Global,
    prepared: bool,
    body: &Value,
) -> Result<Option<ReleaseTask>, Fail<Refusal>>
    ensures value { Gives result (release_if prepared (view body.now)) }
    ensures kept { IfOk result (λ task. passes_if_some is_release_in_range task ≡ true) }
    ensures paired { IfOk result (λ task. (is_none task || prepared) ≡ true) }
{
    let part = object_member(Some(body), Member::JobReleaseTask)?;
    release_of(alloc, prepared, part)
}
