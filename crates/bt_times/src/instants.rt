//! Instants in texts.
ghost use Rattle.std.specs.Prelude.{◌≡◌};
ghost use Rattle.bt_times.specs.Instants.{read_instant, nanos_shown, timestamp_nanos, date_nanos, mail_nanos};

use crate::TimeFault;
use bt_base::Fail;
use jiff::fmt::rfc2822::DateTimeParser;
use jiff::fmt::temporal;

/// The last nanosecond of the year 9999, in nanoseconds since 1970-01-01T00:00:00Z (this project's profile).
pub const LAST_INSTANT_NS: i128 = 253_402_300_799_999_999_999;

/// The instant of a text, in units of 100 ns since 1970-01-01T00:00:00Z: a timestamp of ISO 8601, or else a date of ten bytes,
/// which is its midnight in UTC, or else a date of RFC 2822. Returns `BadText` for any other text, and `OutOfRange` before
/// 1970 and after the year 9999. It does not allocate.
pub fn instant(text: &str) -> Result<i64, Fail<TimeFault>>
    ensures { result ≡ read_instant text.now }
{
    let Some(nanos) = nanos_shown(text.as_bytes()) else {
        return Err(Fail::Why(TimeFault::BadText));
    };
    if nanos < 0 || nanos > LAST_INSTANT_NS {
        return Err(Fail::Why(TimeFault::OutOfRange));
    }
    Ok((nanos / 100) as i64)
}

/// The nanoseconds since 1970 of the text, by the first reader that accepts it.
#[tactic(auto, unfolding(crate::specs::Instants::nanos_shown))]
fn nanos_shown(text: &[u8]) -> Option<i128>
    ensures { result ≡ nanos_shown text.now }
{
    if let Some(nanos) = timestamp_nanos(text) {
        return Some(nanos);
    }
    if let Some(nanos) = date_nanos(text) {
        return Some(nanos);
    }
    mail_nanos(text)
}

#[tactic(auto, unfolding(crate::specs::Instants::timestamp_nanos))]
fn timestamp_nanos(text: &[u8]) -> Option<i128>
    ensures { result ≡ timestamp_nanos text.now }
{
    match temporal::parse_timestamp(text) {
        Ok(timestamp) => Some(timestamp.nanosecond),
        Err(_) => None,
    }
}

#[tactic(auto, unfolding(crate::specs::Instants::date_nanos))]
fn date_nanos(text: &[u8]) -> Option<i128>
    ensures { result ≡ date_nanos text.now }
{
    if text.len() != 10 {
        return None;
    }
    match temporal::parse_date(text) {
        Ok(date) => Some(i128::from(date.to_unix_epoch_day()) * 86_400_000_000_000),
        Err(_) => None,
    }
}

#[tactic(auto, unfolding(crate::specs::Instants::mail_nanos))]
fn mail_nanos(text: &[u8]) -> Option<i128>
    ensures { result ≡ mail_nanos text.now }
{
    match DateTimeParser::new().parse_timestamp(text) {
        Ok(timestamp) => Some(timestamp.nanosecond),
        Err(_) => None,
    }
}
