//! The times of arguments, and the ranges of labels between two times.
ghost use Rattle.std.specs.Prelude.{◌≡◌};
ghost use Rattle.formula_metrics.specs.Methods.{present, time_of, labels_between as range_between, labels_from, raised};

use bt_base::Moment;
use formula_values::{Timestamp, Value};

/// Labels of samples in milliseconds since 1970, from the first to the second, both included. None if there can be no label.
pub type Labels = Option<(u64, u64)>;

/// The units of 100 ns in a millisecond.
const MILLISECOND: i64 = 10_000;

/// Now, in units of 100 ns since 1970.
pub fn present(now: Moment) -> i64
    ensures { result ≡ present now }
{
    Timestamp::of_moment(now).units()
}

/// The time of an argument, in units of 100 ns since 1970: a timestamp, or a timeinterval that is counted back from now. It may be
/// before 1970 or after the year 9999.
pub fn time_of(now: Moment, value: &Value) -> i64
    ensures { result ≡ time_of now value.now }
{
    let present = Timestamp::of_moment(now).units();
    match value {
        Value::Timestamp(time) => time.units(),
        Value::TimeInterval(interval) => present - interval.units(),
        _ => present,
    }
}

/// The labels between two times, of which the lesser is the start. Both are cut to milliseconds, toward zero, and a start before 1970
/// is the beginning of 1970.
pub fn labels_between(a: i64, b: i64) -> Labels
    ensures { result ≡ range_between a b }
{
    labels_from(raised(a.min(b) / MILLISECOND), b.max(a) / MILLISECOND)
}

/// The labels from a start to an end. None if the end is before 1970.
fn labels_from(start: u64, end: i64) -> Labels
    ensures { result ≡ labels_from start end }
{
    if end < 0 {
        None
    } else {
        Some((start, end as u64))
    }
}

/// A start before 1970 is the beginning of 1970.
fn raised(start: i64) -> u64
    ensures { result ≡ raised start }
{
    if start < 0 { 0 } else { start as u64 }
}
