//! The results of functions.
ghost use Rattle.std.specs.Prelude.{◌≡◌};
ghost use Rattle.bt_base.specs.Fails.{Gives};
ghost use Rattle.formula_values.specs.Values.{no_value};
ghost use Rattle.formula_values.specs.Functions.{function_value, length_value, norm_value, percentile_value, val_value, made_whole, floor_of, ceil_of, round_of, item_at, time_value, time_read};
ghost use Rattle.bt_times.specs.Instants.{read_instant};

use crate::arithmetic::double_of;
use crate::fault::ValueFault;
use crate::items::{average, flattened, greatest_item, least_item, range_of_items, sum_of_items};
use crate::norm::norm_of;
use crate::percentile::percentile_of;
use crate::rounding::{ceil_of, floor_of, round_of};
use crate::times::{Timestamp, timestamp_value};
use crate::value::{Value, whole};
use bt_base::{Fail, Moment, Num};
use bt_times::{TimeFault, instant};
use formula_trees::Function;
use std::alloc::Global;

/// The result of a function at this moment with these arguments. `EmptyVector`, `IndexOutOfRange`, `TooLarge`, `BadTimeText` and
/// `TimeOutOfRange` come as `ValueFault` says.
pub fn call(
    alloc: Global,
    function: Function,
    arguments: &[Value],
    now: Moment,
) -> Result<Value, Fail<ValueFault>>
    ensures { Gives result (function_value function arguments.now now) }
{
    match function {
        Function::Avg => average(&flattened(alloc, arguments)?).map_err(Fail::Why),
        Function::Max => greatest_item(&flattened(alloc, arguments)?).map_err(Fail::Why),
        Function::Min => least_item(&flattened(alloc, arguments)?).map_err(Fail::Why),
        Function::Sum => sum_of_items(&flattened(alloc, arguments)?).map_err(Fail::Why),
        Function::Range => range_of_items(&flattened(alloc, arguments)?).map_err(Fail::Why),
        Function::Len => length(arguments).map_err(Fail::Why),
        Function::Norm => norm(arguments).map_err(Fail::Why),
        Function::Percentile => percentile(alloc, arguments),
        Function::Val => val(arguments).map_err(Fail::Why),
        Function::Ceil => ceil(arguments).map_err(Fail::Why),
        Function::Floor => floor(arguments).map_err(Fail::Why),
        Function::Round => round(arguments).map_err(Fail::Why),
        Function::Time => time(arguments, now).map_err(Fail::Why),
        Function::Stop => no_value().map_err(Fail::Why),
    }
}

/// The value of arguments that do not go together, which no formula has.
fn no_value() -> Result<Value, ValueFault>
    ensures { result ≡ no_value }
{
    Ok(whole(0))
}

fn length(arguments: &[Value]) -> Result<Value, ValueFault>
    ensures { result ≡ length_value arguments.now }
{
    match arguments {
        [Value::DoubleVec(items)] => {
            let count = items.as_slice().len();
            double_of(Num::of_whole(count as i64))
        }
        _ => no_value(),
    }
}

fn norm(arguments: &[Value]) -> Result<Value, ValueFault>
    ensures { result ≡ norm_value arguments.now }
{
    match arguments {
        [Value::DoubleVec(items)] => norm_of(items.as_slice()),
        _ => no_value(),
    }
}

fn percentile(alloc: Global, arguments: &[Value]) -> Result<Value, Fail<ValueFault>>
    ensures { Gives result (percentile_value arguments.now) }
{
    match arguments {
        [Value::DoubleVec(items), Value::Double(percent)] => {
            percentile_of(alloc, items.as_slice(), *percent)
        }
        _ => no_value().map_err(Fail::Why),
    }
}

fn val(arguments: &[Value]) -> Result<Value, ValueFault>
    ensures { result ≡ val_value arguments.now }
{
    match arguments {
        [Value::DoubleVec(items), Value::Double(index)] => {
            item_at(items.as_slice(), floor_of(*index))
        }
        _ => no_value(),
    }
}

/// The item at an index, which counts from 0. `IndexOutOfRange` if there is none.
fn item_at(items: &[Num], index: i64) -> Result<Value, ValueFault>
    ensures { result ≡ item_at items.now index }
{
    if index < 0 {
        return Err(ValueFault::IndexOutOfRange);
    }
    match items.get(index as usize) {
        Some(item) => Ok(Value::Double(*item)),
        None => Err(ValueFault::IndexOutOfRange),
    }
}

fn ceil(arguments: &[Value]) -> Result<Value, ValueFault>
    ensures { result ≡ made_whole ceil_of arguments.now }
{
    match arguments {
        [Value::Double(number)] => double_of(Num::of_whole(ceil_of(*number))),
        _ => no_value(),
    }
}

fn floor(arguments: &[Value]) -> Result<Value, ValueFault>
    ensures { result ≡ made_whole floor_of arguments.now }
{
    match arguments {
        [Value::Double(number)] => double_of(Num::of_whole(floor_of(*number))),
        _ => no_value(),
    }
}

fn round(arguments: &[Value]) -> Result<Value, ValueFault>
    ensures { result ≡ made_whole round_of arguments.now }
{
    match arguments {
        [Value::Double(number)] => double_of(Num::of_whole(round_of(*number))),
        _ => no_value(),
    }
}

/// The present moment, or the time of a text.
fn time(arguments: &[Value], now: Moment) -> Result<Value, ValueFault>
    ensures { result ≡ time_value now arguments.now }
{
    match arguments {
        [] => Ok(Value::Timestamp(Timestamp::of_moment(now))),
        [Value::Text(text)] => time_read(text.as_str()),
        _ => no_value(),
    }
}

/// The timestamp of a text.
fn time_read(text: &str) -> Result<Value, ValueFault>
    ensures { result ≡ time_read (read_instant text.now) }
{
    match instant(text) {
        Ok(units) => timestamp_value(i128::from(units)),
        Err(Fail::Why(TimeFault::OutOfRange)) => Err(ValueFault::TimeOutOfRange),
        Err(_) => Err(ValueFault::BadTimeText),
    }
}
