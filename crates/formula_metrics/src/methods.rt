//! The methods of metrics.
ghost use Rattle.std.specs.Prelude.{◌≡◌};
ghost use Rattle.bt_base.specs.Fails.{Gives};
ghost use Rattle.formula_metrics.specs.Methods.{begin_value, current_value, method_value};
ghost use Rattle.bt_samples.specs.Histories.{oldest};

use crate::metrics::MetricPart;
use crate::samples::{percent_value, sample_value};
use bt_base::{Fail, Moment};
use bt_samples::History;
use formula_trees::Method;
use formula_values::{TimeInterval, Value, ValueFault, timestamp_value, whole};
use std::alloc::Global;

impl MetricPart {
    /// The metric's value now. `EmptyVector` if it has none. It does not allocate.
    pub fn value(&self) -> Result<Value, ValueFault>
        ensures { result ≡ current_value self.now }
    {
        match self.current {
            Some(number) => Ok(Value::Double(number)),
            None => Err(ValueFault::EmptyVector),
        }
    }

    /// The result of a method at this moment with these arguments. `IndexOutOfRange`, `NotEnoughSamples`, `EmptyVector` and
    /// `TimeOutOfRange` come as `ValueFault` says.
    pub fn call(
        &self,
        alloc: Global,
        method: Method,
        arguments: &[Value],
        now: Moment,
    ) -> Result<Value, Fail<ValueFault>>
        ensures { Gives result (method_value self.now method arguments.now now) }
    {
        match method {
            Method::GetSample => sample_value(alloc, &self.history, arguments, now),
            Method::GetSamplePercent => Ok(percent_value(&self.history, arguments, now)),
            Method::GetSamplePeriod => Ok(period()),
            Method::Count => Ok(whole(self.history.count())),
            Method::HistoryBeginTime => begin_value(&self.history).map_err(Fail::Why),
        }
    }
}

/// The units of 100 ns of a millisecond.
const MILLISECOND: i128 = 10_000;

/// The time from one sample to the next, 30 seconds, in units of 100 ns.
pub const PERIOD: i64 = 300_000_000;

/// The result of `GetSamplePeriod`.
fn period() -> Value
    ensures { result ≡ Value.TimeInterval PERIOD }
{
    match TimeInterval::of_units(PERIOD) {
        Some(period) => Value::TimeInterval(period),
        None => unreachable!(),
    }
}

/// The result of `HistoryBeginTime`: the label of the oldest sample. `EmptyVector` if there is none.
fn begin_value(history: &History) -> Result<Value, ValueFault>
    ensures { result ≡ begin_value (oldest history.now) }
{
    match history.begin() {
        Some(label) => timestamp_value(MILLISECOND * i128::from(label)),
        None => Err(ValueFault::EmptyVector),
    }
}
