//! Arithmetic of doubles and of vectors.
ghost use Rattle.std.specs.Prelude.{◌≡◌, ◌≢◌, pos, length};
ghost use Rattle.bt_base.specs.Fails.{Gives};
ghost use Rattle.bt_base.specs.Numbers.{bounded};
ghost use Rattle.formula_values.specs.Values.{double_of};
ghost use Rattle.formula_values.specs.Operators.{each, each_two, vector_of, both_vectors, numeric};
ghost use Rattle.formula_values.specs.Steps.{step_of};

use crate::fault::ValueFault;
use crate::value::Value;
use bt_base::{Duplicate, Fail, List, Num, NumFault};
use std::alloc::Global;

/// An operation on two doubles.
#[derive(Clone, Copy, Debug, PartialEq, Eq)]
pub(crate) enum Arithmetic {
    Add,
    Subtract,
    Multiply,
    Divide,
}

impl Arithmetic {
    fn of(self, left: Num, right: Num) -> Result<Num, NumFault>
        ensures { result ≡ step_of self left right }
    {
        match self {
            Arithmetic::Add => left.add(right),
            Arithmetic::Subtract => left.sub(right),
            Arithmetic::Multiply => left.mul(right),
            Arithmetic::Divide => left.div(right),
        }
    }
}

/// The number zero.
pub(crate) fn zero() -> Num
    ensures { result ≡ pos 0 }
{
    match Num::of_millionths(0) {
        Some(number) => number,
        None => unreachable!(),
    }
}

/// The number of these millionths. `TooLarge` past the greatest magnitude.
#[tactic(auto, unfolding(bt_base::specs::Numbers::bounded))]
pub(crate) fn bounded(millionths: i128) -> Result<Num, NumFault>
    ensures { result ≡ bounded millionths }
{
    if millionths < i128::from(i64::MIN) || i128::from(i64::MAX) < millionths {
        return Err(NumFault::TooLarge);
    }
    Num::of_millionths(millionths as i64).ok_or(NumFault::TooLarge)
}

/// A number as a double, or its fault.
pub(crate) fn double_of(number: Result<Num, NumFault>) -> Result<Value, ValueFault>
    ensures { result ≡ double_of number }
{
    Ok(Value::Double(number?))
}

/// An operation on doubles. With a vector, a double or a vector of the same length, it is done item by item.
pub(crate) fn numeric(
    alloc: Global,
    step: Arithmetic,
    left: &Value,
    right: &Value,
) -> Result<Value, Fail<ValueFault>>
    ensures { Gives result (numeric (step_of step) left.now right.now) }
{
    match (left, right) {
        (Value::Double(a), Value::Double(b)) => double_of(step.of(*a, *b)).map_err(Fail::Why),
        (Value::Double(a), Value::DoubleVec(w)) => double_with_items(alloc, step, *a, w.as_slice()),
        (Value::DoubleVec(v), Value::Double(b)) => items_with_double(alloc, step, v.as_slice(), *b),
        (Value::DoubleVec(v), Value::DoubleVec(w)) => {
            both_vectors(alloc, step, v.as_slice(), w.as_slice())
        }
        _ => Ok(left.copy()?),
    }
}

/// A double with each item.
pub(crate) fn double_with_items(
    alloc: Global,
    step: Arithmetic,
    left: Num,
    items: &[Num],
) -> Result<Value, Fail<ValueFault>>
    ensures { Gives result (vector_of (each (step_of step left) items.now)) }
{
    let mut numbers = Vec::with_capacity(alloc, items.len())?;
    for item in items {
        match step.of(left, *item) {
            Ok(number) => numbers.push(number)?,
            Err(fault) => return Err(Fail::Why(ValueFault::from(fault))),
        }
    }
    Ok(Value::DoubleVec(List::of_vec(numbers)))
}

/// Each item with a double.
fn items_with_double(
    alloc: Global,
    step: Arithmetic,
    items: &[Num],
    right: Num,
) -> Result<Value, Fail<ValueFault>>
    ensures { Gives result (vector_of (each (λ x. step_of step x right) items.now)) }
{
    let mut numbers = Vec::with_capacity(alloc, items.len())?;
    for item in items {
        match step.of(*item, right) {
            Ok(number) => numbers.push(number)?,
            Err(fault) => return Err(Fail::Why(ValueFault::from(fault))),
        }
    }
    Ok(Value::DoubleVec(List::of_vec(numbers)))
}

/// Two vectors, item by item. `LengthsDiffer` comes before the fault of any item.
fn both_vectors(
    alloc: Global,
    step: Arithmetic,
    lefts: &[Num],
    rights: &[Num],
) -> Result<Value, Fail<ValueFault>>
    ensures { Gives result (both_vectors (step_of step) lefts.now rights.now) }
{
    if lefts.len() != rights.len() {
        return Err(Fail::Why(ValueFault::LengthsDiffer));
    }
    each_two(alloc, step, lefts, rights)
}

fn each_two(
    alloc: Global,
    step: Arithmetic,
    lefts: &[Num],
    rights: &[Num],
) -> Result<Value, Fail<ValueFault>>
    requires { length lefts.now ≡ length rights.now }
    ensures { Gives result (vector_of (each_two (step_of step) lefts.now rights.now)) }
{
    let mut numbers = Vec::with_capacity(alloc, lefts.len())?;
    for (i, left) in lefts.iter().enumerate() {
        match step.of(*left, rights[i]) {
            Ok(number) => numbers.push(number)?,
            Err(fault) => return Err(Fail::Why(ValueFault::from(fault))),
        }
    }
    Ok(Value::DoubleVec(List::of_vec(numbers)))
}
