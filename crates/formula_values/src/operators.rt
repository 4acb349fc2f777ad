//! The results of operators.
ghost use Rattle.std.specs.Prelude.{◌≡◌, ◌≢◌, ◌+ℤ◌, ◌-ℤ◌, ◌*ℤ◌, pos};
ghost use Rattle.bt_base.specs.Fails.{Gives};
ghost use Rattle.bt_base.specs.Numbers.{cut};
ghost use Rattle.formula_values.specs.Values.{is_true as is_nonzero, truth as truth_value};
ghost use Rattle.formula_values.specs.Operators.{unary_value, binary_value, order_of, sum_value, difference_value, product_value, quotient_value, interval_over, negated, inverted};

use crate::arithmetic::{Arithmetic, double_of, double_with_items, numeric, zero};
use crate::fault::ValueFault;
use crate::times::{TimeInterval, interval_value, timestamp_value};
use crate::value::{Value, whole};
use bt_base::{Duplicate, Fail, Num};
use formula_trees::{BinaryOperator, UnaryOperator};
use std::alloc::Global;
use std::cmp::Ordering;

/// Whether a value is true: a double other than 0. It does not allocate.
pub fn is_true(value: &Value) -> bool
    ensures { result ≡ is_nonzero value.now }
{
    match value {
        Value::Double(number) => number.millionths() != 0,
        _ => false,
    }
}

/// The double 1 for what holds, 0 for what does not. It does not allocate.
pub fn truth(holds: bool) -> Value
    ensures { result ≡ truth_value holds }
{
    if holds { whole(1) } else { whole(0) }
}

/// The result of a unary operator.
pub fn unary(
    alloc: Global,
    operator: UnaryOperator,
    operand: &Value,
) -> Result<Value, Fail<ValueFault>>
    ensures { Gives result (unary_value operator operand.now) }
{
    match operator {
        UnaryOperator::Negate => negated(alloc, operand),
        UnaryOperator::Invert => inverted(operand),
    }
}

fn negated(alloc: Global, operand: &Value) -> Result<Value, Fail<ValueFault>>
    ensures { Gives result (negated operand.now) }
{
    match operand {
        Value::Double(number) => double_of(zero().sub(*number)).map_err(Fail::Why),
        Value::DoubleVec(items) => double_with_items(
            alloc,
            Arithmetic::Subtract,
            zero(),
            items.as_slice(),
        ),
        Value::TimeInterval(time) => interval_value(-i128::from(time.units())).map_err(Fail::Why),
        _ => Ok(operand.copy()?),
    }
}

fn inverted(operand: &Value) -> Result<Value, Fail<ValueFault>>
    ensures { Gives result (inverted operand.now) }
{
    match operand {
        Value::Double(number) => Ok(truth(number.millionths() == 0)),
        _ => Ok(operand.copy()?),
    }
}

/// The result of a binary operator. `DivideByZero`, `TooLarge`, `LengthsDiffer` and `TimeOutOfRange` come as `ValueFault` says; of
/// vectors, for the first items that have a fault.
pub fn binary(
    alloc: Global,
    operator: BinaryOperator,
    left: &Value,
    right: &Value,
) -> Result<Value, Fail<ValueFault>>
    ensures { Gives result (binary_value operator left.now right.now) }
{
    match operator {
        BinaryOperator::Or => Ok(truth(is_true(left) || is_true(right))),
        BinaryOperator::And => Ok(truth(is_true(left) && is_true(right))),
        BinaryOperator::Equal => Ok(truth(order_of(left, right).is_eq())),
        BinaryOperator::NotEqual => Ok(truth(order_of(left, right).is_ne())),
        BinaryOperator::Less => Ok(truth(order_of(left, right).is_lt())),
        BinaryOperator::AtMost => Ok(truth(order_of(left, right).is_le())),
        BinaryOperator::Greater => Ok(truth(order_of(left, right).is_gt())),
        BinaryOperator::AtLeast => Ok(truth(order_of(left, right).is_ge())),
        BinaryOperator::Add => sum(alloc, left, right),
        BinaryOperator::Subtract => difference(alloc, left, right),
        BinaryOperator::Multiply => product(alloc, left, right),
        BinaryOperator::Divide => quotient(alloc, left, right),
    }
}

/// The order of two values of one type; strings go by their bytes.
fn order_of(left: &Value, right: &Value) -> Ordering
    ensures { result ≡ order_of left.now right.now }
{
    match (left, right) {
        (Value::Double(a), Value::Double(b)) => a.cmp(b),
        (Value::Text(a), Value::Text(b)) => a.as_str().cmp(&b.as_str()),
        (Value::Timestamp(a), Value::Timestamp(b)) => a.cmp(b),
        (Value::TimeInterval(a), Value::TimeInterval(b)) => a.cmp(b),
        _ => Ordering::Equal,
    }
}

fn sum(alloc: Global, left: &Value, right: &Value) -> Result<Value, Fail<ValueFault>>
    ensures { Gives result (sum_value left.now right.now) }
{
    match (left, right) {
        (Value::TimeInterval(a), Value::TimeInterval(b)) => {
            interval_value(sum_of_units(a.units(), b.units())).map_err(Fail::Why)
        }
        (Value::Timestamp(a), Value::TimeInterval(b)) => {
            timestamp_value(sum_of_units(a.units(), b.units())).map_err(Fail::Why)
        }
        (Value::TimeInterval(a), Value::Timestamp(b)) => {
            timestamp_value(sum_of_units(a.units(), b.units())).map_err(Fail::Why)
        }
        _ => numeric(alloc, Arithmetic::Add, left, right),
    }
}

fn difference(alloc: Global, left: &Value, right: &Value) -> Result<Value, Fail<ValueFault>>
    ensures { Gives result (difference_value left.now right.now) }
{
    match (left, right) {
        (Value::TimeInterval(a), Value::TimeInterval(b)) => {
            interval_value(difference_of_units(a.units(), b.units())).map_err(Fail::Why)
        }
        (Value::Timestamp(a), Value::TimeInterval(b)) => {
            timestamp_value(difference_of_units(a.units(), b.units())).map_err(Fail::Why)
        }
        (Value::Timestamp(a), Value::Timestamp(b)) => {
            interval_value(difference_of_units(a.units(), b.units())).map_err(Fail::Why)
        }
        _ => numeric(alloc, Arithmetic::Subtract, left, right),
    }
}

fn product(alloc: Global, left: &Value, right: &Value) -> Result<Value, Fail<ValueFault>>
    ensures { Gives result (product_value left.now right.now) }
{
    match (left, right) {
        (Value::Double(a), Value::TimeInterval(b)) => {
            interval_value(fraction(a.millionths(), b.units(), MILLION)).map_err(Fail::Why)
        }
        (Value::TimeInterval(a), Value::Double(b)) => {
            interval_value(fraction(a.units(), b.millionths(), MILLION)).map_err(Fail::Why)
        }
        _ => numeric(alloc, Arithmetic::Multiply, left, right),
    }
}

fn quotient(alloc: Global, left: &Value, right: &Value) -> Result<Value, Fail<ValueFault>>
    ensures { Gives result (quotient_value left.now right.now) }
{
    match (left, right) {
        (Value::TimeInterval(a), Value::Double(b)) => interval_over(*a, *b).map_err(Fail::Why),
        _ => numeric(alloc, Arithmetic::Divide, left, right),
    }
}

/// A timeinterval over a double, cut to whole units.
fn interval_over(time: TimeInterval, number: Num) -> Result<Value, ValueFault>
    ensures { result ≡ interval_over time number }
{
    if number.millionths() == 0 {
        return Err(ValueFault::DivideByZero);
    }
    interval_value(fraction(time.units(), MILLION, number.millionths()))
}

fn sum_of_units(a: i64, b: i64) -> i128
    ensures { result ≡ a +ℤ b }
{
    i128::from(a) + i128::from(b)
}

fn difference_of_units(a: i64, b: i64) -> i128
    ensures { result ≡ a -ℤ b }
{
    i128::from(a) - i128::from(b)
}

/// The millionths of one.
const MILLION: i64 = 1_000_000;

/// The fraction `a * b / under`, cut toward zero.
fn fraction(a: i64, b: i64, under: i64) -> i128
    requires { under ≢ pos 0 }
    ensures { result ≡ cut (a *ℤ b) under }
{
    i128::from(a) * i128::from(b) / i128::from(under)
}
