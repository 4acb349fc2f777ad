//! Members that the bodies of `add-job` and `patch-job` share. Each is None if it is absent, and `InvalidPropertyValue` with its
//! name if it is of a wrong kind or out of range.
ghost use Rattle.std.specs.Prelude.{◌≡◌, true, option_map, IfOk};
ghost use Rattle.serde_json.specs.View.{view};
ghost use Rattle.bt_base.specs.Fails.{Gives};
ghost use Rattle.bt_rows.specs.Ranges.{is_priority, is_parallel, are_limits_in_range, passes_if_some};
ghost use Rattle.wire_bodies.specs.JobMembers.{priority_if, parallel_if, limits_in, limits_of, limits_if, on_all_if, on_fail_if};

use bt_base::Fail;
use bt_rows::event::Limits;
use bt_rows::limits::{GREATEST_PRIORITY, LEAST_PRIORITY, RETRY_LIMIT};
use bt_rows::member::Member;
use bt_rows::refusal::Refusal;
use serde_json::Value;
use wire_members::{
    AllTasksAction, FailureAction, duration_member, invalid_property, object_member, signed_if,
    signed_member, word_if,
};

/// The priority, -1,000 to 1,000 (Azure: priority). It does not allocate.
pub fn priority_if(body: &Value) -> Result<Option<i32>, Fail<Refusal>>
    ensures value { Gives result (priority_if (view body.now)) }
    ensures kept { IfOk result (λ n. passes_if_some is_priority n ≡ true) }
{
    signed_if(
        Some(body),
        Member::Priority,
        LEAST_PRIORITY,
        GREATEST_PRIORITY,
    )
}

/// The greatest number of placed tasks, 1 to 2,147,483,647, or -1 for no limit (Azure: maxParallelTasks). It does not allocate.
#[tactic(auto, unfolding(crate::specs::JobMembers::parallel_if))]
pub fn parallel_if(body: &Value) -> Result<Option<i32>, Fail<Refusal>>
    ensures value { Gives result (parallel_if (view body.now)) }
    ensures kept { IfOk result (λ n. passes_if_some is_parallel n ≡ true) }
{
    let limit = signed_if(Some(body), Member::MaxParallelTasks, -1, i32::MAX)?;
    match limit {
        Some(0) => Err(invalid_property(Member::MaxParallelTasks)),
        _ => Ok(limit),
    }
}

/// The limits that the members of an object are.
#[tactic(auto, unfolding(crate::specs::JobMembers::limits_in))]
fn limits(part: &Value) -> Result<Limits, Fail<Refusal>>
    ensures value { Gives result (limits_in (view part.now)) }
    ensures kept { IfOk result (λ limits. are_limits_in_range limits ≡ true) }
{
    let wall = duration_member(Some(part), Member::MaxWallClockTime, None)?;
    let retry_limit = i64::from(RETRY_LIMIT);
    let retries = signed_member(Some(part), Member::MaxTaskRetryCount, -1, retry_limit, 0)?;
    Ok(Limits {
        retries: retries as i32,
        wall,
    })
}

/// The limits that an object is, None if there is no object.
#[tactic(auto, unfolding(crate::specs::JobMembers::limits_of))]
fn limits_of(part: Option<&Value>) -> Result<Option<Limits>, Fail<Refusal>>
    ensures value { Gives result (limits_of (option_map (λ v. view v.now) part.entry)) }
    ensures kept { IfOk result (λ limits. passes_if_some are_limits_in_range limits ≡ true) }
{
    match part {
        None => Ok(None),
        Some(part) => Ok(Some(limits(part)?)),
    }
}

/// The limits of the job (Azure: constraints): `maxWallClockTime`, a duration of at most 36,500 days, which is no limit if it is
/// absent or `P10675199DT2H48M5.4775807S`, and `maxTaskRetryCount` from -1, for no limit, to 1,000,000 (0). It does not allocate.
#[tactic(auto, unfolding(crate::specs::JobMembers::limits_if))]
pub fn limits_if(body: &Value) -> Result<Option<Limits>, Fail<Refusal>>
    ensures value { Gives result (limits_if (view body.now)) }
    ensures kept { IfOk result (λ limits. passes_if_some are_limits_in_range limits ≡ true) }
{
    let part = object_member(Some(body), Member::Constraints)?;
    limits_of(part)
}

/// Whether the job is terminated once all its tasks are completed: true for `terminatejob`, false for `noaction`, in upper or
/// lower case (Azure: onAllTasksComplete). It does not allocate.
#[tactic(auto, unfolding(crate::specs::JobMembers::on_all_if))]
pub fn on_all_if(body: &Value) -> Result<Option<bool>, Fail<Refusal>>
    ensures { Gives result (on_all_if (view body.now)) }
{
    let action = word_if::<AllTasksAction>(Some(body), Member::OnAllTasksComplete)?;
    Ok(action.map(|action| action.is_terminating()))
}

/// Whether the job takes the actions of its tasks' exit options: true for `performexitoptionsjobaction`, false for `noaction`, in
/// upper or lower case (Azure: onTaskFailure). It does not allocate.
#[tactic(auto, unfolding(crate::specs::JobMembers::on_fail_if))]
pub fn on_fail_if(body: &Value) -> Result<Option<bool>, Fail<Refusal>>
    ensures { Gives result (on_fail_if (view body.now)) }
{
    let action = word_if::<FailureAction>(Some(body), Member::OnTaskFailure)?;
    Ok(action.map(|action| action.is_performing()))
}
