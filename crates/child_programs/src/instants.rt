//! Moments of the system's clock.
use bt_base::{LAST_MOMENT_MS, Moment};
use bt_times::civil;
use std::alloc::{AllocError, Global};
use std::time::Clock;

/// The moment at this many milliseconds since 1970, or the last one.
fn moment_at(ms: u64) -> Moment {
    match Moment::of_ms(ms.min(LAST_MOMENT_MS)) {
        Some(moment) => moment,
        None => unreachable!(),
    }
}

/// The moment that the system tells: the first one of 1970 if it tells none, and the last one after the year 9999.
pub(crate) fn now(rt: &impl Clock) -> Moment {
    match rt.since_1970() {
        Ok(time) => moment_at(u64::try_from(time.as_millis()).unwrap_or(LAST_MOMENT_MS)),
        Err(_) => moment_at(0),
    }
}

/// These milliseconds since 1970 as an instant of ISO 8601 in UTC, as `2026-11-30T22:15:03.120Z`. A moment after the year 9999 counts as its
/// last one. The only error is out of memory.
pub fn instant_text(alloc: Global, ms: u64) -> Result<String, AllocError> {
    let ms = ms.min(LAST_MOMENT_MS);
    let date = civil((ms * 10_000) as i64);
    let (year, month, day) = (date.year, date.month, date.day);
    let (hour, minute, second) = (date.hour, date.minute, date.second);
    let rest = ms % 1_000;
    format!(in alloc; "{year:04}-{month:02}-{day:02}T{hour:02}:{minute:02}:{second:02}.{rest:03}Z")
}
