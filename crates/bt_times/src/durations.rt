//! Durations of ISO 8601.
ghost use Rattle.std.specs.Prelude.{◌≡◌, ◌≤◌, Some, option_map, IfOk, IfSome};
ghost use Rattle.bt_times.specs.declared.durations.TheConstants.{MAX_DURATION_MS};
ghost use Rattle.jiff_fmt.specs.Units.{signed_magnitudes};
ghost use Rattle.bt_times.specs.Durations.{read_duration, duration_of, begins_with_p, span_shown, is_duration, span_nanos, within_longest};

use crate::TimeFault;
use bt_base::Fail;
use jiff::fmt::temporal;
use jiff_core::Span;

/// The text of the duration that stands for no limit (Azure Batch REST reference).
const NO_LIMIT: &str = "P10675199DT2H48M5.4775807S";

/// The longest duration, in milliseconds: 36,500 days (this project's profile).
pub const MAX_DURATION_MS: u128 = 3_153_600_000_000;

/// The duration of a text of ISO 8601 that begins with `P`, in milliseconds; years and months must be 0 or left out, a day has
/// 24 hours, and parts of a millisecond are cut off. None for `P10675199DT2H48M5.4775807S`, which stands for no limit.
/// Returns `BadText` for any other text, and `OutOfRange` for more than 36,500 days. It does not allocate.
#[tactic(auto, unfolding(crate::specs::Durations::read_duration, crate::specs::Durations::no_limit))]
pub fn duration_ms(text: &str) -> Result<Option<u64>, Fail<TimeFault>>
    ensures value { result ≡ read_duration text.now }
    ensures kept { IfOk result (λ duration. IfSome duration (λ ms. ms ≤ MAX_DURATION_MS)) }
{
    if text == NO_LIMIT {
        return Ok(None);
    }
    match span_shown(text.as_bytes()) {
        Some(span) => duration_of(span),
        None => Err(Fail::Why(TimeFault::BadText)),
    }
}

fn duration_of(span: Span) -> Result<Option<u64>, Fail<TimeFault>>
    ensures value { result ≡ duration_of (Some (signed_magnitudes span)) }
    ensures kept { IfOk result (λ duration. IfSome duration (λ ms. ms ≤ MAX_DURATION_MS)) }
{
    if is_duration(span) {
        within_longest(span_nanos(span) / 1_000_000)
    } else {
        Err(Fail::Why(TimeFault::BadText))
    }
}

fn within_longest(ms: u128) -> Result<Option<u64>, Fail<TimeFault>>
    ensures value { result ≡ within_longest ms }
    ensures kept { IfOk result (λ duration. IfSome duration (λ ms. ms ≤ MAX_DURATION_MS)) }
{
    if MAX_DURATION_MS < ms {
        Err(Fail::Why(TimeFault::OutOfRange))
    } else {
        Ok(Some(ms as u64))
    }
}

fn begins_with_p(text: &[u8]) -> bool
    ensures { result ≡ begins_with_p text.now }
{
    match text.first() {
        Some(b) => *b == b'P',
        None => false,
    }
}

/// The span of a text that begins with `P`.
#[tactic(auto, unfolding(crate::specs::Durations::span_shown))]
fn span_shown(text: &[u8]) -> Option<Span>
    ensures { option_map signed_magnitudes result ≡ span_shown text.now }
{
    if !begins_with_p(text) {
        return None;
    }
    match temporal::parse_span(text) {
        Ok(span) => Some(span),
        Err(_) => None,
    }
}

#[tactic(auto, unfolding(crate::specs::Durations::is_duration))]
fn is_duration(span: Span) -> bool
    ensures { result ≡ is_duration (signed_magnitudes span) }
{
    !span.negative && span.years == 0 && span.months == 0
}

#[tactic(auto, unfolding(crate::specs::Durations::span_nanos))]
fn span_nanos(span: Span) -> u128
    ensures { result ≡ span_nanos (signed_magnitudes span) }
{
    let days = 7 * u128::from(span.weeks) + u128::from(span.days);
    let minutes = 60 * (24 * days + u128::from(span.hours)) + u128::from(span.minutes);
    let milliseconds = 1_000 * (60 * minutes + u128::from(span.seconds))
        + u128::from(span.milliseconds);
    1_000 * (1_000 * milliseconds + u128::from(span.microseconds)) + u128::from(span.nanoseconds)
}
