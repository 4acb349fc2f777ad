//! Timestamps and timeintervals.
ghost use Rattle.std.specs.Prelude.{◌≡◌, ◌*◌, pos};
ghost use Rattle.bt_times.specs.Civils.{IsInstant};
ghost use Rattle.formula_values.specs.Times.{timestamp_of, interval_of, IsInterval};
ghost use Rattle.formula_values.specs.Values.{timestamp_value, interval_value};

use crate::fault::ValueFault;
use crate::value::Value;
use bt_base::Moment;
use std::marker::Model;

/// A timestamp, in units of 100 ns since 1970-01-01T00:00:00Z, up to `LAST`. Contracts see it as this number.
#[derive(Clone, Copy, Debug, PartialEq, Eq, PartialOrd, Ord)]
pub struct Timestamp {
    units: i64,
}

impl Model for Timestamp {
    ghost use Rattle.std.specs.Prelude.{◌≡◌, ℤ, true};
    ghost use Rattle.formula_values.specs.Times.{is_timestamp};

    ghost Value = { ℤ };

    ghost view = { λ t. t.units };

    ghost invariant = { λ t. is_timestamp t.units ≡ true };

    ghost inverse = { λ z. record { units = z } };
}

/// A timeinterval, in units of 100 ns, from `SHORTEST` to `LONGEST`. Contracts see it as this number.
#[derive(Clone, Copy, Debug, PartialEq, Eq, PartialOrd, Ord)]
pub struct TimeInterval {
    units: i64,
}

impl Model for TimeInterval {
    ghost use Rattle.std.specs.Prelude.{◌≡◌, ℤ, true};
    ghost use Rattle.formula_values.specs.Times.{is_interval};

    ghost Value = { ℤ };

    ghost view = { λ t. t.units };

    ghost invariant = { λ t. is_interval t.units ≡ true };

    ghost inverse = { λ z. record { units = z } };
}

/// The last unit of 100 ns of the year 9999, counted from 1970.
pub const LAST: i64 = 2_534_023_007_999_999_999;

/// The greatest timeinterval: 3,650,000 days, in units of 100 ns.
pub const LONGEST: i64 = 3_153_600_000_000_000_000;

/// The least timeinterval: 3,650,000 days back.
pub const SHORTEST: i64 = -3_153_600_000_000_000_000;

/// The units of 100 ns in a millisecond.
const MILLISECOND: u64 = 10_000;

impl Timestamp {
    /// The timestamp of `units` of 100 ns since 1970. None before 1970 and after the year 9999. It does not allocate.
    pub fn of_units(units: i64) -> Option<Timestamp>
        ensures { result ≡ timestamp_of units }
    {
        if 0 <= units && units <= LAST {
            Some(Timestamp { units })
        } else {
            None
        }
    }

    /// The timestamp of a moment. It does not allocate.
    pub fn of_moment(moment: Moment) -> Timestamp
        ensures { result ≡ pos (10000 * moment) }
    {
        let units = MILLISECOND * moment.ms();
        Timestamp {
            units: units as i64,
        }
    }

    /// The units since 1970.
    pub fn units(self) -> i64
        ensures value { result ≡ self }
        ensures bound { IsInstant result }
    {
        self.units
    }
}

impl TimeInterval {
    /// The timeinterval of `units` of 100 ns. None past 3,650,000 days. It does not allocate.
    pub fn of_units(units: i64) -> Option<TimeInterval>
        ensures { result ≡ interval_of units }
    {
        if SHORTEST <= units && units <= LONGEST {
            Some(TimeInterval { units })
        } else {
            None
        }
    }

    /// The units.
    pub fn units(self) -> i64
        ensures value { result ≡ self }
        ensures bound { IsInterval result }
    {
        self.units
    }
}

/// The timestamp of `units` of 100 ns since 1970. `TimeOutOfRange` before 1970 and after the year 9999. It does not allocate.
pub fn timestamp_value(units: i128) -> Result<Value, ValueFault>
    ensures { result ≡ timestamp_value units }
{
    if 0 <= units && units <= i128::from(LAST) {
        Ok(Value::Timestamp(Timestamp {
            units: units as i64,
        }))
    } else {
        Err(ValueFault::TimeOutOfRange)
    }
}

/// The timeinterval of `units` of 100 ns. `TimeOutOfRange` past 3,650,000 days. It does not allocate.
pub fn interval_value(units: i128) -> Result<Value, ValueFault>
    ensures { result ≡ interval_value units }
{
    if i128::from(SHORTEST) <= units && units <= i128::from(LONGEST) {
        Ok(Value::TimeInterval(TimeInterval {
            units: units as i64,
        }))
    } else {
        Err(ValueFault::TimeOutOfRange)
    }
}
