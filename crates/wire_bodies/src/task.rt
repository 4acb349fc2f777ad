//! The body of `add-task`.
ghost use Rattle.std.specs.Prelude.{◌≡◌, true, IfOk};
ghost use Rattle.serde_json.specs.View.{view};
ghost use Rattle.bt_base.specs.Fails.{Gives};
ghost use Rattle.bt_rows.specs.Ranges.{is_task_spec_in_range};
ghost use Rattle.wire_bodies.specs.Tasks.{spec_of, task_in, task_of};

use crate::dependencies::dependencies_in;
use crate::exit_conditions::conditions_in;
use bt_base::{CommandLine, Fail, Id, NoMemory};
use bt_rows::event::TaskSpec;
use bt_rows::limits::{DEFAULT_RETENTION, RETRY_LIMIT, SLOT_LIMIT};
use bt_rows::member::Member;
use bt_rows::refusal::Refusal;
use bt_rows::settings::{Settings, TaskSettings};
use serde_json::Value;
use std::alloc::Global;
use wire_members::{
    command_member, count_member, duration_member, id_member, object_member, read_object,
    signed_if, unbuilt_member,
};

/// The body with these values, which are in their ranges.
fn spec_of(
    alloc: Global,
    id: Id,
    line: CommandLine,
    slots: u8,
    settings: TaskSettings,
) -> Result<TaskSpec, NoMemory>
    requires { is_task_spec_in_range (spec_of id line slots settings) ≡ true }
    ensures value { IfOk result (λ spec. spec ≡ spec_of id line slots settings) }
    ensures kept { IfOk result (λ spec. is_task_spec_in_range spec ≡ true) }
{
    Ok(TaskSpec {
        id,
        line,
        slots,
        settings: Settings::of(alloc, settings)?,
    })
}

/// The task that the members of an object are.
#[tactic(auto, unfolding(crate::specs::Tasks::task_in))]
pub fn task(alloc: Global, body: &Value) -> Result<TaskSpec, Fail<Refusal>>
    ensures value { Gives result (task_in (view body.now)) }
    ensures kept { IfOk result (λ spec. is_task_spec_in_range spec ≡ true) }
{
    let id = id_member(alloc, Some(body), Member::Id)?;
    let line = command_member(alloc, Some(body), Member::CommandLine)?;
    let slots = count_member(
        Some(body),
        Member::RequiredSlots,
        1,
        u64::from(SLOT_LIMIT),
        1,
    )?;
    let part = object_member(Some(body), Member::Constraints)?;
    let retries = signed_if(part, Member::MaxTaskRetryCount, -1, RETRY_LIMIT)?;
    let wall = duration_member(part, Member::MaxWallClockTime, None)?;
    let usual_retention = Some(DEFAULT_RETENTION);
    let retention = duration_member(part, Member::RetentionTime, usual_retention)?;
    let exits = conditions_in(alloc, object_member(Some(body), Member::ExitConditions)?)?;
    let depends = dependencies_in(alloc, object_member(Some(body), Member::DependsOn)?)?;
    unbuilt_member(Some(body), Member::MultiInstanceSettings)?;
    let settings = TaskSettings {
        retries,
        wall,
        retention,
        codes: exits.codes,
        ranges: exits.ranges,
        launch: exits.launch,
        other: exits.other,
        needs: depends.needs,
        spans: depends.spans,
        multi: None,
    };
    Ok(spec_of(alloc, id, line, slots as u8, settings)?)
}

/// The body of `add-task` (Azure: Create Task): `id`, `commandLine`, and the members below, with their defaults.
///
/// - `requiredSlots` from 1 to 8 (1);
/// - `constraints` with `maxTaskRetryCount` from -1, for no limit, to 1,000,000 (the job's), and `maxWallClockTime` (no limit) and
///   `retentionTime` (7 days), durations of at most 36,500 days, of which `P10675199DT2H48M5.4775807S` is no limit;
/// - `exitConditions`, as `conditions_in` reads them (none);
/// - `dependsOn`, as `dependencies_in` reads it (nothing).
///
/// Bytes that are not a JSON object are `UnreadableBody`. A member that is of a wrong kind or out of range, an absent one that is
/// required and a member that the service does not support yet are `InvalidPropertyValue` with its name. It fails with `Memory`
/// when out of memory.
#[tactic(auto, unfolding(crate::specs::Tasks::task_of))]
pub fn read_task(alloc: Global, bytes: &[u8]) -> Result<TaskSpec, Fail<Refusal>>
    ensures value { Gives result (task_of bytes.now) }
    ensures kept { IfOk result (λ spec. is_task_spec_in_range spec ≡ true) }
{
    let body = read_object(alloc, bytes)?;
    task(alloc, &body)
}
