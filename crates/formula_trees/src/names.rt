//! Names that a formula has before it sets one.
ghost use Rattle.std.specs.Prelude.{◌≡◌};
ghost use Rattle.formula_trees.specs.Names.{metric_named, interval_named, is_option_word, setting_named, setting_type, function_named, method_named, member_named, fixed_type, is_read_only};

use crate::value_types::ValueType;
use bt_base::{Metric, option_named};

/// What a formula sets of its pool.
#[derive(Clone, Copy, PartialEq, Eq, Debug)]
pub enum Setting {
    /// `$TargetDedicatedNodes`
    DedicatedNodes,
    /// `$TargetLowPriorityNodes`
    LowPriorityNodes,
    /// `$NodeDeallocationOption`
    Deallocation,
}

/// A function.
#[derive(Clone, Copy, PartialEq, Eq, Debug)]
pub enum Function {
    /// `avg`
    Avg,
    /// `max`
    Max,
    /// `min`
    Min,
    /// `sum`
    Sum,
    /// `range`
    Range,
    /// `len`
    Len,
    /// `norm`
    Norm,
    /// `percentile`
    Percentile,
    /// `val`
    Val,
    /// `ceil`
    Ceil,
    /// `floor`
    Floor,
    /// `round`
    Round,
    /// `time`
    Time,
    /// `stop`
    Stop,
}

/// A method of a metric.
#[derive(Clone, Copy, PartialEq, Eq, Debug)]
pub enum Method {
    /// `GetSample`
    GetSample,
    /// `GetSamplePercent`
    GetSamplePercent,
    /// `GetSamplePeriod`
    GetSamplePeriod,
    /// `Count`
    Count,
    /// `HistoryBeginTime`
    HistoryBeginTime,
}

/// A member of a timestamp.
#[derive(Clone, Copy, PartialEq, Eq, Debug)]
pub enum Member {
    /// `year`
    Year,
    /// `month`
    Month,
    /// `day`
    Day,
    /// `weekday`
    Weekday,
    /// `hour`
    Hour,
    /// `minute`
    Minute,
    /// `second`
    Second,
}

/// The metric of this name.
#[tactic(auto, unfolding(crate::specs::Names::metric_named))]
pub fn metric_named(name: &[u8]) -> Option<Metric>
    ensures { result ≡ metric_named name.now }
{
    if name == b"$CPUPercent".as_slice() {
        Some(Metric::CpuPercent)
    } else if name == b"$ActiveTasks".as_slice() {
        Some(Metric::ActiveTasks)
    } else if name == b"$RunningTasks".as_slice() {
        Some(Metric::RunningTasks)
    } else if name == b"$PendingTasks".as_slice() {
        Some(Metric::PendingTasks)
    } else if name == b"$SucceededTasks".as_slice() {
        Some(Metric::SucceededTasks)
    } else if name == b"$FailedTasks".as_slice() {
        Some(Metric::FailedTasks)
    } else if name == b"$TaskSlotsPerNode".as_slice() {
        Some(Metric::TaskSlotsPerNode)
    } else if name == b"$CurrentDedicatedNodes".as_slice() {
        Some(Metric::CurrentDedicatedNodes)
    } else if name == b"$CurrentLowPriorityNodes".as_slice() {
        Some(Metric::CurrentLowPriorityNodes)
    } else if name == b"$PreemptedNodeCount".as_slice() {
        Some(Metric::PreemptedNodeCount)
    } else {
        None
    }
}

/// The constant timeinterval of this name, in units of 100 ns.
#[tactic(auto, unfolding(crate::specs::Names::interval_named))]
pub fn interval_named(name: &[u8]) -> Option<u64>
    ensures { result ≡ interval_named name.now }
{
    if name == b"TimeInterval_Zero".as_slice() {
        Some(0)
    } else if name == b"TimeInterval_100ns".as_slice() {
        Some(1)
    } else if name == b"TimeInterval_Microsecond".as_slice() {
        Some(10)
    } else if name == b"TimeInterval_Millisecond".as_slice() {
        Some(10_000)
    } else if name == b"TimeInterval_Second".as_slice() {
        Some(10_000_000)
    } else if name == b"TimeInterval_Minute".as_slice() {
        Some(600_000_000)
    } else if name == b"TimeInterval_Hour".as_slice() {
        Some(36_000_000_000)
    } else if name == b"TimeInterval_Day".as_slice() {
        Some(864_000_000_000)
    } else if name == b"TimeInterval_Week".as_slice() {
        Some(6_048_000_000_000)
    } else if name == b"TimeInterval_Year".as_slice() {
        Some(315_360_000_000_000)
    } else {
        None
    }
}

/// Whether a name is one of the words for what becomes of the tasks of a node that leaves: `requeue`, `terminate`,
/// `taskcompletion` or `retaineddata`. Each is a constant, the string of its own name.
#[tactic(auto, unfolding(crate::specs::Names::is_option_word))]
pub fn is_option_word(name: &[u8]) -> bool
    ensures { result ≡ is_option_word name.now }
{
    option_named(name).is_some()
}

/// The setting of this name.
#[tactic(auto, unfolding(crate::specs::Names::setting_named))]
pub fn setting_named(name: &[u8]) -> Option<Setting>
    ensures { result ≡ setting_named name.now }
{
    if name == b"$TargetDedicatedNodes".as_slice() {
        Some(Setting::DedicatedNodes)
    } else if name == b"$TargetLowPriorityNodes".as_slice() {
        Some(Setting::LowPriorityNodes)
    } else if name == b"$NodeDeallocationOption".as_slice() {
        Some(Setting::Deallocation)
    } else {
        None
    }
}

/// The function of this name.
#[tactic(auto, unfolding(crate::specs::Names::function_named))]
pub fn function_named(name: &[u8]) -> Option<Function>
    ensures { result ≡ function_named name.now }
{
    if name == b"avg".as_slice() {
        Some(Function::Avg)
    } else if name == b"max".as_slice() {
        Some(Function::Max)
    } else if name == b"min".as_slice() {
        Some(Function::Min)
    } else if name == b"sum".as_slice() {
        Some(Function::Sum)
    } else if name == b"range".as_slice() {
        Some(Function::Range)
    } else if name == b"len".as_slice() {
        Some(Function::Len)
    } else if name == b"norm".as_slice() {
        Some(Function::Norm)
    } else if name == b"percentile".as_slice() {
        Some(Function::Percentile)
    } else if name == b"val".as_slice() {
        Some(Function::Val)
    } else if name == b"ceil".as_slice() {
        Some(Function::Ceil)
    } else if name == b"floor".as_slice() {
        Some(Function::Floor)
    } else if name == b"round".as_slice() {
        Some(Function::Round)
    } else if name == b"time".as_slice() {
        Some(Function::Time)
    } else if name == b"stop".as_slice() {
        Some(Function::Stop)
    } else {
        None
    }
}

/// The method of a metric of this name.
#[tactic(auto, unfolding(crate::specs::Names::method_named))]
pub fn method_named(name: &[u8]) -> Option<Method>
    ensures { result ≡ method_named name.now }
{
    if name == b"GetSample".as_slice() {
        Some(Method::GetSample)
    } else if name == b"GetSamplePercent".as_slice() {
        Some(Method::GetSamplePercent)
    } else if name == b"GetSamplePeriod".as_slice() {
        Some(Method::GetSamplePeriod)
    } else if name == b"Count".as_slice() {
        Some(Method::Count)
    } else if name == b"HistoryBeginTime".as_slice() {
        Some(Method::HistoryBeginTime)
    } else {
        None
    }
}

/// The member of a timestamp of this name.
#[tactic(auto, unfolding(crate::specs::Names::member_named))]
pub fn member_named(name: &[u8]) -> Option<Member>
    ensures { result ≡ member_named name.now }
{
    if name == b"year".as_slice() {
        Some(Member::Year)
    } else if name == b"month".as_slice() {
        Some(Member::Month)
    } else if name == b"day".as_slice() {
        Some(Member::Day)
    } else if name == b"weekday".as_slice() {
        Some(Member::Weekday)
    } else if name == b"hour".as_slice() {
        Some(Member::Hour)
    } else if name == b"minute".as_slice() {
        Some(Member::Minute)
    } else if name == b"second".as_slice() {
        Some(Member::Second)
    } else {
        None
    }
}

/// The type of a setting.
pub fn setting_type(setting: Setting) -> ValueType
    ensures { result ≡ setting_type setting }
{
    match setting {
        Setting::DedicatedNodes | Setting::LowPriorityNodes => ValueType::Double,
        Setting::Deallocation => ValueType::Text,
    }
}

/// The type of a name that is not a variable of the formula's own: of a metric, a constant or a setting.
#[tactic(auto, unfolding(crate::specs::Names::fixed_type))]
pub fn fixed_type(name: &[u8]) -> Option<ValueType>
    ensures { result ≡ fixed_type name.now }
{
    if metric_named(name).is_some() {
        Some(ValueType::Double)
    } else if interval_named(name).is_some() {
        Some(ValueType::TimeInterval)
    } else if is_option_word(name) {
        Some(ValueType::Text)
    } else {
        setting_named(name).map(setting_type)
    }
}

/// Whether a name cannot be assigned: metrics, constants and functions.
#[tactic(auto, unfolding(crate::specs::Names::is_read_only))]
pub fn is_read_only(name: &[u8]) -> bool
    ensures { result ≡ is_read_only name.now }
{
    metric_named(name).is_some()
        || interval_named(name).is_some()
        || is_option_word(name)
        || function_named(name).is_some()
}
