//! The values of names.
ghost use Rattle.std.specs.Prelude.{◌≡◌, IfOk, OnErr};
ghost use Rattle.bt_base.specs.Fails.{Gives};
ghost use Rattle.formula_trees.specs.Names.{setting_named};
ghost use Rattle.formula_eval.specs.Names.{setting_value, setting_or, variable_or, constant_value, name_value};
ghost use Rattle.formula_eval.specs.Outcomes.{value_among};
ghost use Rattle.formula_values.specs.Values.{no_value};

use crate::outcome::Outcome;
use crate::strings::copied;
use bt_base::{Duplicate, Fail, NoMemory, option_named, option_word};
use formula_metrics::Metrics;
use formula_trees::{Setting, interval_named, metric_named, setting_named};
use formula_values::{Value, ValueFault, interval_value, whole};
use std::alloc::Global;

/// What a setting is so far.
fn setting_value(alloc: Global, set: &Outcome, setting: Setting) -> Result<Value, NoMemory>
    ensures { IfOk result (λ found. found ≡ setting_value set.now setting) }
{
    match setting {
        Setting::DedicatedNodes => Ok(whole(set.targets.dedicated)),
        Setting::LowPriorityNodes => Ok(whole(set.targets.low)),
        Setting::Deallocation => Ok(Value::Text(copied(alloc, option_word(set.option))?)),
    }
}

/// The value of a setting or of a variable.
fn variable_value(alloc: Global, set: &Outcome, name: &[u8]) -> Result<Value, Fail<ValueFault>>
    ensures { Gives result (setting_or set.now (setting_named name.now) (variable_or (value_among set.now.variables name.now) no_value)) }
{
    match setting_named(name) {
        Some(setting) => Ok(setting_value(alloc, set, setting)?),
        None => match set.variables.value(name) {
            Some(known) => Ok(known.copy()?),
            None => Ok(whole(0)),
        },
    }
}

/// The value of a constant, a setting or a variable.
fn constant_value(alloc: Global, set: &Outcome, name: &[u8]) -> Result<Value, Fail<ValueFault>>
    ensures { Gives result (constant_value set.now name.now) }
{
    match interval_named(name) {
        Some(units) => match interval_value(i128::from(units)) {
            Ok(found) => Ok(found),
            Err(fault) => Err(Fail::Why(fault)),
        },
        None => match option_named(name) {
            Some(option) => Ok(Value::Text(copied(alloc, option_word(option))?)),
            None => variable_value(alloc, set, name),
        },
    }
}

/// The value of a name: of a metric, a constant, a setting or a variable.
pub fn name_value(
    alloc: Global,
    metrics: &Metrics,
    set: &Outcome,
    name: &[u8],
) -> Result<Value, Fail<ValueFault>>
    ensures { Gives result (name_value metrics.now set.now name.now) }
{
    match metric_named(name) {
        Some(metric) => match metrics.part(metric).value() {
            Ok(found) => Ok(found),
            Err(fault) => Err(Fail::Why(fault)),
        },
        None => constant_value(alloc, set, name),
    }
}
