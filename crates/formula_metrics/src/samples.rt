//! `GetSample` in its forms, and `GetSamplePercent`.
ghost use Rattle.std.specs.Prelude.{◌≡◌, pos, Ok, IfOk};
ghost use Rattle.bt_base.specs.Fails.{Gives};
ghost use Rattle.bt_samples.specs.Histories.{last_values};
ghost use Rattle.formula_metrics.specs.Methods.{values_at as values_of_labels, percent_at as percent_of_labels, newest_values, enough_at, samples_to, samples_since, sample_value, percent_value};

use crate::labels::{Labels, labels_between, present, time_of};
use bt_base::{Fail, List, Moment, NoMemory, Num};
use bt_samples::History;
use formula_values::{Value, ValueFault, floor_of, whole};
use std::alloc::Global;

/// The result of `GetSample`.
pub fn sample_value(
    alloc: Global,
    history: &History,
    arguments: &[Value],
    now: Moment,
) -> Result<Value, Fail<ValueFault>>
    ensures { Gives result (sample_value now history.now arguments.now) }
{
    match arguments {
        [a] => samples_since(alloc, history, a, now),
        [a, b] => samples_to(alloc, history, time_of(now, a), b, now),
        [a, b, Value::Double(want)] => {
            let labels = labels_between(time_of(now, a), time_of(now, b));
            enough_at(alloc, history, labels, *want)
        }
        _ => Ok(whole(0)),
    }
}

/// The newest samples, if the argument is their number; else those from a time to now.
fn samples_since(
    alloc: Global,
    history: &History,
    argument: &Value,
    now: Moment,
) -> Result<Value, Fail<ValueFault>>
    ensures { Gives result (samples_since now history.now argument.now) }
{
    match argument {
        Value::Double(count) => newest_values(history, floor_of(*count)),
        _ => {
            let labels = labels_between(time_of(now, argument), present(now));
            Ok(vector(values_at(alloc, history, labels)?))
        }
    }
}

/// The samples between a time and the other end, or to now if the argument is a percentage.
fn samples_to(
    alloc: Global,
    history: &History,
    time: i64,
    argument: &Value,
    now: Moment,
) -> Result<Value, Fail<ValueFault>>
    ensures { Gives result (samples_to now history.now time argument.now) }
{
    match argument {
        Value::Double(want) => {
            enough_at(alloc, history, labels_between(time, present(now)), *want)
        }
        _ => {
            let labels = labels_between(time, time_of(now, argument));
            Ok(vector(values_at(alloc, history, labels)?))
        }
    }
}

/// The newest samples, at most `count`. `IndexOutOfRange` below 0.
fn newest_values(history: &History, count: i64) -> Result<Value, Fail<ValueFault>>
    ensures { Gives result (newest_values history.now count) }
{
    if count < 0 {
        return Err(Fail::Why(ValueFault::IndexOutOfRange));
    }
    Ok(vector(last_values(history, count as u64)?))
}

#[tactic(auto, using(crate::proofs::SampleLists::last_values_min))]
fn last_values(history: &History, count: u64) -> Result<Vec<Num>, NoMemory>
    ensures { IfOk result (λ values. values.items ≡ last_values history.now count) }
{
    history.last(count.min(u64::from(history.count())) as u32)
}

/// The samples with these labels. `NotEnoughSamples` if the percentage of labels that have a sample is below the one that is asked
/// for.
fn enough_at(
    alloc: Global,
    history: &History,
    labels: Labels,
    want: Num,
) -> Result<Value, Fail<ValueFault>>
    ensures { Gives result (enough_at history.now labels want) }
{
    let have = percent_at(history, labels);
    if have < want {
        return Err(Fail::Why(ValueFault::NotEnoughSamples(have, want)));
    }
    Ok(vector(values_at(alloc, history, labels)?))
}

/// The result of `GetSamplePercent`.
pub fn percent_value(history: &History, arguments: &[Value], now: Moment) -> Value
    ensures { percent_value now history.now arguments.now ≡ Ok result }
{
    match arguments {
        [a] => {
            let labels = labels_between(time_of(now, a), present(now));
            Value::Double(percent_at(history, labels))
        }
        [a, b] => {
            let labels = labels_between(time_of(now, a), time_of(now, b));
            Value::Double(percent_at(history, labels))
        }
        _ => whole(0),
    }
}

fn values_at(alloc: Global, history: &History, labels: Labels) -> Result<Vec<Num>, NoMemory>
    ensures { IfOk result (λ values. values.items ≡ values_of_labels history.now labels) }
{
    match labels {
        None => Ok(Vec::new(alloc)),
        Some((from, to)) => history.between(from, to),
    }
}

fn percent_at(history: &History, labels: Labels) -> Num
    ensures { result ≡ percent_of_labels history.now labels }
{
    match labels {
        None => zero(),
        Some((from, to)) => history.percent(from, to),
    }
}

fn zero() -> Num
    ensures { result ≡ pos 0 }
{
    match Num::of_millionths(0) {
        Some(zero) => zero,
        None => unreachable!(),
    }
}

fn vector(values: Vec<Num>) -> Value
    ensures { result ≡ Value.DoubleVec values.items }
{
    Value::DoubleVec(List::of_vec(values))
}
