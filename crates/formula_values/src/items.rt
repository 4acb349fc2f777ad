//! Functions of doubles and vectors, whose items are taken as one list.
ghost use Rattle.std.specs.Prelude.{◌≡◌, ◌++◌, IfOk};
ghost use Rattle.formula_values.specs.Functions.{doubles_of, flattened, total, sum_of_items, average, greater_of, less_of, greatest, least, greatest_item, least_item, range_of_items};

use crate::arithmetic::{bounded, double_of};
use crate::fault::ValueFault;
use crate::value::Value;
use bt_base::{NoMemory, Num};
use std::alloc::Global;

/// The doubles of values, one after the other: a double itself, and the items of a vector. Other values have no doubles.
pub fn flattened(alloc: Global, values: &[Value]) -> Result<Vec<Num>, NoMemory>
    ensures { IfOk result (λ items. items.items ≡ flattened values.now) }
{
    let mut items = Vec::new(alloc);
    for value in values {
        append(&mut items, value)?;
    }
    Ok(items)
}

fn append(items: &mut Vec<Num>, value: &Value) -> Result<(), NoMemory>
    ensures { IfOk result (λ _. items.new.items ≡ items.old.items ++ doubles_of value.now) }
{
    match value {
        Value::Double(number) => items.push(*number)?,
        Value::DoubleVec(more) => items.extend_from_slice(more.as_slice())?,
        _ => {}
    }
    Ok(())
}

/// The exact sum of the items; `TooLarge` past the greatest magnitude.
pub(crate) fn sum_of_items(items: &[Num]) -> Result<Value, ValueFault>
    ensures { result ≡ sum_of_items items.now }
{
    double_of(bounded(total(items)))
}

/// The exact sum over the number of items, cut after six decimals; `EmptyVector` if there is none.
pub(crate) fn average(items: &[Num]) -> Result<Value, ValueFault>
    ensures { result ≡ average items.now }
{
    if items.is_empty() {
        return Err(ValueFault::EmptyVector);
    }
    double_of(bounded(total(items) / items.len() as i128))
}

/// The millionths of the exact sum.
fn total(items: &[Num]) -> i128
    ensures { result ≡ total items.now }
{
    let mut sum = 0_i128;
    for item in items {
        sum += i128::from(item.millionths());
    }
    sum
}

/// The greatest item; `EmptyVector` if there is none.
pub(crate) fn greatest_item(items: &[Num]) -> Result<Value, ValueFault>
    ensures { result ≡ greatest_item items.now }
{
    match items {
        [] => Err(ValueFault::EmptyVector),
        [first, others @ ..] => Ok(Value::Double(greatest(*first, others))),
    }
}

/// The least item; `EmptyVector` if there is none.
pub(crate) fn least_item(items: &[Num]) -> Result<Value, ValueFault>
    ensures { result ≡ least_item items.now }
{
    match items {
        [] => Err(ValueFault::EmptyVector),
        [first, others @ ..] => Ok(Value::Double(least(*first, others))),
    }
}

/// The greatest item less the least one; `EmptyVector` if there is none, `TooLarge` past the greatest magnitude.
pub(crate) fn range_of_items(items: &[Num]) -> Result<Value, ValueFault>
    ensures { result ≡ range_of_items items.now }
{
    match items {
        [] => Err(ValueFault::EmptyVector),
        [first, others @ ..] => double_of(greatest(*first, others).sub(least(*first, others))),
    }
}

fn greatest(first: Num, others: &[Num]) -> Num
    ensures { result ≡ greatest first others.now }
{
    let mut highest = first;
    for item in others {
        highest = greater_of(highest, *item);
    }
    highest
}

fn least(first: Num, others: &[Num]) -> Num
    ensures { result ≡ least first others.now }
{
    let mut lowest = first;
    for item in others {
        lowest = less_of(lowest, *item);
    }
    lowest
}

fn greater_of(a: Num, b: Num) -> Num
    ensures { result ≡ greater_of a b }
{
    if a.millionths() < b.millionths() {
        b
    } else {
        a
    }
}

fn less_of(a: Num, b: Num) -> Num
    ensures { result ≡ less_of a b }
{
    if b.millionths() < a.millionths() {
        b
    } else {
        a
    }
}
