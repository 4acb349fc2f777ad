//! The body of `add-pool`.
ghost use Rattle.std.specs.Prelude.{◌≡◌, ◌||◌, true, not, nat_eq, IfOk};
ghost use Rattle.serde_json.specs.View.{view};
ghost use Rattle.bt_base.specs.Fails.{Gives};
ghost use Rattle.bt_rows.specs.Ranges.{is_pool_spec_in_range, is_target};
ghost use Rattle.wire_bodies.specs.Pools.{dedicated_target, pool_in, pool_of};

use crate::pool_member::{LOW_PRIORITY_LIMIT, resize_timeout};
use crate::scaling::{scales, scaling_if};
use crate::start::start_if;
use bt_base::Fail;
use bt_rows::event::PoolSpec;
use bt_rows::limits::{SLOT_LIMIT, TARGET_LIMIT};
use bt_rows::member::Member;
use bt_rows::pool::Fill;
use bt_rows::refusal::Refusal;
use serde_json::Value;
use std::alloc::Global;
use wire_members::{
    count_member, id_member, object_member, read_object, unbuilt_member, word_member,
};

/// The wanted number of dedicated nodes, 0 if it is absent. A pool that scales automatically may state 0 alone.
fn dedicated_target(scales: bool, body: &Value) -> Result<u32, Fail<Refusal>>
    ensures value { Gives result (dedicated_target scales (view body.now)) }
    ensures range { IfOk result (λ target. is_target target ≡ true) }
    ensures first { IfOk result (λ target. (not scales || nat_eq target 0) ≡ true) }
{
    let limit = if scales { 0 } else { u64::from(TARGET_LIMIT) };
    let target = count_member(Some(body), Member::TargetDedicatedNodes, 0, limit, 0)?;
    Ok(target as u32)
}

/// The pool that the members of the body are.
#[tactic(auto, unfolding(crate::specs::Pools::pool_in))]
fn pool(alloc: Global, body: &Value) -> Result<PoolSpec, Fail<Refusal>>
    ensures value { Gives result (pool_in (view body.now)) }
    ensures kept { IfOk result (λ spec. is_pool_spec_in_range spec ≡ true) }
{
    let id = id_member(alloc, Some(body), Member::Id)?;
    let dedicated = dedicated_target(scales(body), body)?;
    let low_limit = u64::from(LOW_PRIORITY_LIMIT);
    let low = count_member(Some(body), Member::TargetLowPriorityNodes, 0, low_limit, 0)?;
    let slots = count_member(
        Some(body),
        Member::TaskSlotsPerNode,
        1,
        u64::from(SLOT_LIMIT),
        1,
    )?;
    let policy = object_member(Some(body), Member::TaskSchedulingPolicy)?;
    let fill = word_member(policy, Member::NodeFillType, Fill::Spread)?;
    unbuilt_member(Some(body), Member::EnableInterNodeCommunication)?;
    let timeout = resize_timeout(body)?;
    let part = object_member(Some(body), Member::StartTask)?;
    let start = start_if(alloc, part)?;
    let scale = scaling_if(alloc, body)?;
    Ok(PoolSpec {
        id,
        dedicated,
        low: low as u32,
        slots: slots as u8,
        fill,
        inter: false,
        timeout,
        start,
        scale,
    })
}

/// The body of `add-pool` (Azure: Create Pool): `id`, and the members below, with their defaults.
///
/// - `targetDedicatedNodes` from 0 to 1,000 (0);
/// - `targetLowPriorityNodes`, which is 0 (0);
/// - `taskSlotsPerNode` from 1 to 8 (1);
/// - `taskSchedulingPolicy` with `nodeFillType`, which is `spread` or `pack` in upper or lower case (`spread`);
/// - `resizeTimeout`, a duration from 5 minutes to 10 days (15 minutes);
/// - `startTask` with `commandLine`, `maxTaskRetryCount` from -1, for no limit, to 1,000,000 (0), and `waitForSuccess` (true);
///   without it, the pool has no start task;
/// - `enableAutoScale` (false), `autoScaleFormula` and `autoScaleEvaluationInterval`, as `scaling_if` reads them. With `enableAutoScale`, a
///   target other than 0 is refused under its own name.
///
/// Bytes that are not a JSON object are `UnreadableBody`. A member that is of a wrong kind or out of range, an absent `id`, a
/// start task's absent `commandLine` and a member that the service does not support yet are `InvalidPropertyValue` with its
/// name. It fails with `Memory` when out of memory.
#[tactic(auto, unfolding(crate::specs::Pools::pool_of))]
pub fn read_pool(alloc: Global, bytes: &[u8]) -> Result<PoolSpec, Fail<Refusal>>
    ensures value { Gives result (pool_of bytes.now) }
    ensures kept { IfOk result (λ spec. is_pool_spec_in_range spec ≡ true) }
{
    let body = read_object(alloc, bytes)?;
    pool(alloc, &body)
}
