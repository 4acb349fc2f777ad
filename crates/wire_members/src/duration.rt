//! Members that are durations (ISO 8601). They do not allocate.
ghost use Rattle.std.specs.Prelude.{◌≡◌, ◌≤◌, true, option_map, IfOk, IfSome};
ghost use Rattle.serde_json.specs.View.{view};
ghost use Rattle.bt_base.specs.Fails.{Gives};
ghost use Rattle.bt_rows.specs.Ranges.{is_duration, passes_if_some};
ghost use Rattle.wire_members.specs.Durations.{duration_in, duration_member, limited_duration_in, limited_duration_if, limited_duration_member};

use crate::member::{invalid_property, member};
use bt_base::Fail;
use bt_rows::member::Member;
use bt_rows::refusal::Refusal;
use bt_times::duration_ms;
use serde_json::Value;

/// The value as a duration in milliseconds, if it is one; None in it stands for no limit.
fn duration_of(value: &Value) -> Option<Option<u64>>
    ensures value { result ≡ duration_in (view value.now) }
    ensures kept { IfSome result (λ duration. passes_if_some is_duration duration ≡ true) }
{
    match value.as_str() {
        None => None,
        Some(text) => match duration_ms(text) {
            Ok(duration) => Some(duration),
            Err(_) => None,
        },
    }
}

/// A duration of at most 36,500 days, in milliseconds, or None for no limit, which is `P10675199DT2H48M5.4775807S`; the default if
/// it is absent.
pub fn duration_member(
    part: Option<&Value>,
    name: Member,
    default: Option<u64>,
) -> Result<Option<u64>, Fail<Refusal>>
    ensures value { Gives result (duration_member (option_map (λ v. view v.now) part.entry) name default) }
    ensures kept { passes_if_some is_duration default ≡ true → IfOk result (λ duration. passes_if_some is_duration duration ≡ true) }
{
    match member(part, name) {
        None => Ok(default),
        Some(value) => match duration_of(value) {
            Some(duration) => Ok(duration),
            None => Err(invalid_property(name)),
        },
    }
}

/// The value as a duration from `low` to `high`, in milliseconds, if it is one.
fn limited_duration_of(value: &Value, low: u64, high: u64) -> Option<u64>
    ensures value { result ≡ limited_duration_in low high (view value.now) }
    ensures bound { IfSome result (λ duration. (low ≤ duration) × (duration ≤ high)) }
{
    match duration_of(value) {
        Some(Some(duration)) => if low <= duration && duration <= high {
            Some(duration)
        } else {
            None
        },
        _ => None,
    }
}

/// A duration from `low` to `high`, in milliseconds; None if it is absent.
pub fn limited_duration_if(
    part: Option<&Value>,
    name: Member,
    low: u64,
    high: u64,
) -> Result<Option<u64>, Fail<Refusal>>
    ensures value { Gives result (limited_duration_if (option_map (λ v. view v.now) part.entry) name low high) }
    ensures bound { IfOk result (λ duration. IfSome duration (λ duration. (low ≤ duration) × (duration ≤ high))) }
{
    match member(part, name) {
        None => Ok(None),
        Some(value) => match limited_duration_of(value, low, high) {
            Some(duration) => Ok(Some(duration)),
            None => Err(invalid_property(name)),
        },
    }
}

/// A duration from `low` to `high`, in milliseconds; the default if it is absent.
pub fn limited_duration_member(
    part: Option<&Value>,
    name: Member,
    low: u64,
    high: u64,
    default: u64,
) -> Result<u64, Fail<Refusal>>
    ensures value { Gives result (limited_duration_member (option_map (λ v. view v.now) part.entry) name low high default) }
    ensures bound { low ≤ default → default ≤ high → IfOk result (λ duration. (low ≤ duration) × (duration ≤ high)) }
{
    match member(part, name) {
        None => Ok(default),
        Some(value) => limited_duration_of(value, low, high).ok_or(invalid_property(name)),
    }
}
