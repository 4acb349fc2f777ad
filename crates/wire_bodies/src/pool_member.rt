//! Members that the bodies of `add-pool` and `resize` share.
ghost use Rattle.std.specs.Prelude.{◌≡◌, true, IfOk};
ghost use Rattle.serde_json.specs.View.{view};
ghost use Rattle.bt_base.specs.Fails.{Gives};
ghost use Rattle.bt_rows.specs.Ranges.{is_resize_timeout};
ghost use Rattle.wire_bodies.specs.PoolMembers.{resize_timeout};

use bt_base::Fail;
use bt_rows::limits::{DEFAULT_RESIZE_TIMEOUT, GREATEST_RESIZE_TIMEOUT, LEAST_RESIZE_TIMEOUT};
use bt_rows::member::Member;
use bt_rows::refusal::Refusal;
use serde_json::Value;
use wire_members::limited_duration_member;

/// The greatest number of low-priority nodes that a body may ask for (Azure: targetLowPriorityNodes); there are none in this project's
/// profile.
pub const LOW_PRIORITY_LIMIT: u32 = 0;

/// The timeout of a resize in milliseconds, from 5 minutes to 10 days; 15 minutes if it is absent (Azure: resizeTimeout). A value that is
/// no such duration is `InvalidPropertyValue(ResizeTimeout)`. It does not allocate.
pub fn resize_timeout(body: &Value) -> Result<u64, Fail<Refusal>>
    ensures value { Gives result (resize_timeout (view body.now)) }
    ensures kept { IfOk result (λ timeout. is_resize_timeout timeout ≡ true) }
{
    limited_duration_member(
        Some(body),
        Member::ResizeTimeout,
        LEAST_RESIZE_TIMEOUT,
        GREATEST_RESIZE_TIMEOUT,
        DEFAULT_RESIZE_TIMEOUT,
    )
}
