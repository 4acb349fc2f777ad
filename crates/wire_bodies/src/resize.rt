//! The body of `resize`.
ghost use Rattle.std.specs.Prelude.{◌≡◌, ◌||◌, true, is_some, IfOk};
ghost use Rattle.serde_json.specs.View.{view};
ghost use Rattle.bt_base.specs.Fails.{Gives};
ghost use Rattle.bt_rows.specs.Ranges.{is_resize_spec_in_range};
ghost use Rattle.wire_bodies.specs.Resizes.{require_target, resize_in, resize_of};

use crate::pool_member::{LOW_PRIORITY_LIMIT, resize_timeout};
use bt_base::Fail;
use bt_rows::event::ResizeSpec;
use bt_rows::limits::TARGET_LIMIT;
use bt_rows::member::Member;
use bt_rows::pool::Dealloc;
use bt_rows::refusal::Refusal;
use serde_json::Value;
use std::alloc::Global;
use wire_members::{count_if, invalid_property, read_object, word_member};

/// Refuses a resize without targets.
fn require_target(dedicated: Option<u32>, low: Option<u32>) -> Result<(), Fail<Refusal>>
    ensures value { Gives result (require_target dedicated low) }
    ensures given { IfOk result (λ done. (is_some dedicated || is_some low) ≡ true) }
{
    if dedicated.is_none() && low.is_none() {
        Err(invalid_property(Member::TargetDedicatedNodes))
    } else {
        Ok(())
    }
}

/// The resize that the members of the body are.
#[tactic(auto, unfolding(crate::specs::Resizes::resize_in))]
fn resize(body: &Value) -> Result<ResizeSpec, Fail<Refusal>>
    ensures value { Gives result (resize_in (view body.now)) }
    ensures kept { IfOk result (λ spec. is_resize_spec_in_range spec ≡ true) }
{
    let dedicated = count_if(Some(body), Member::TargetDedicatedNodes, 0, TARGET_LIMIT)?;
    let low = count_if(
        Some(body),
        Member::TargetLowPriorityNodes,
        0,
        LOW_PRIORITY_LIMIT,
    )?;
    require_target(dedicated, low)?;
    let timeout = resize_timeout(body)?;
    let option = word_member(Some(body), Member::NodeDeallocationOption, Dealloc::Requeue)?;
    Ok(ResizeSpec {
        dedicated,
        low,
        timeout,
        option,
    })
}

/// The body of `resize` (Azure: Resize Pool): the members below, with their defaults.
///
/// - `targetDedicatedNodes` from 0 to 1,000 and `targetLowPriorityNodes`, which is 0: an absent one is left as it is, but one of them is
///   required;
/// - `resizeTimeout`, a duration from 5 minutes to 10 days (15 minutes);
/// - `nodeDeallocationOption`, which is `requeue`, `terminate`, `taskcompletion` or `retaineddata` in upper or lower case (`requeue`).
///
/// Bytes that are not a JSON object are `UnreadableBody`. A member that is of a wrong kind or out of range is `InvalidPropertyValue` with
/// its name; if both targets are absent, `targetDedicatedNodes` is refused. It fails with `Memory` when out of memory.
#[tactic(auto, unfolding(crate::specs::Resizes::resize_of))]
pub fn read_resize(alloc: Global, bytes: &[u8]) -> Result<ResizeSpec, Fail<Refusal>>
    ensures value { Gives result (resize_of bytes.now) }
    ensures kept { IfOk result (λ spec. is_resize_spec_in_range spec ≡ true) }
{
    let body = read_object(alloc, bytes)?;
    resize(&body)
}
