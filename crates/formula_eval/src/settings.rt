//! What a statement sets.
ghost use Rattle.std.specs.Prelude.{◌≡◌};
ghost use Rattle.bt_base.specs.Fails.{GivesAs, IsAs};
ghost use Rattle.formula_trees.specs.Names.{setting_named};
ghost use Rattle.formula_types.specs.Scopes.{part as part_of};
ghost use Rattle.formula_trees.specs.View.{statement_of};
ghost use Rattle.formula_eval.specs.Statements.{target_within, target_of, chosen_or, with_setting, with_name, assigned, settled};
ghost use Rattle.bt_base.specs.DeallocOptions.{option_named};

use crate::fault::EvalFault;
use crate::outcome::Outcome;
use crate::strings::text_in;
use bt_base::{Fail, Num, option_named};
use formula_trees::{Setting, Span, Statement, setting_named};
use formula_types::part;
use formula_values::{Value, ValueFault, floor_of};
use std::alloc::Global;

/// The greatest target of dedicated nodes.
pub const GREATEST_DEDICATED: u32 = 1000;

/// The greatest target of low-priority nodes: a pool has none.
pub const GREATEST_LOW: u32 = 0;

/// A double as a target of at most `most` nodes: it is floored.
fn target_of(most: u32, number: Num) -> Result<u32, ValueFault>
    ensures { result ≡ target_of most number }
{
    let target = floor_of(number);
    if target < 0 {
        Err(ValueFault::NegativeTarget)
    } else if target <= i64::from(most) {
        Ok(target as u32)
    } else {
        Err(ValueFault::TargetTooLarge)
    }
}

fn choose(set: &mut Outcome, word: &[u8]) -> Result<(), ValueFault>
    ensures { IsAs (λ _. set.new) result (chosen_or set.old (option_named word.now)) }
{
    match option_named(word) {
        Some(option) => {
            set.option = option;
            Ok(())
        }
        None => Err(ValueFault::NotAnOption),
    }
}

/// Gives a setting a value.
fn set_setting(set: &mut Outcome, setting: Setting, value: &Value) -> Result<(), ValueFault>
    ensures { IsAs (λ _. set.new) result (with_setting set.old setting value.now) }
{
    match (setting, value) {
        (Setting::DedicatedNodes, Value::Double(number)) => {
            set.targets.dedicated = target_of(GREATEST_DEDICATED, *number)?;
            Ok(())
        }
        (Setting::LowPriorityNodes, Value::Double(number)) => {
            set.targets.low = target_of(GREATEST_LOW, *number)?;
            Ok(())
        }
        (Setting::Deallocation, Value::Text(word)) => choose(set, word.as_str().as_bytes()),
        _ => Ok(()),
    }
}

/// Gives a name a value: a setting, or a variable of the formula's own.
fn set_name(
    alloc: Global,
    set: &mut Outcome,
    name: &[u8],
    value: Value,
) -> Result<(), Fail<ValueFault>>
    ensures { GivesAs (λ _. set.new) result (with_name set.old name.now (setting_named name.now) value) }
{
    match setting_named(name) {
        Some(setting) => match set_setting(set, setting, &value) {
            Ok(()) => Ok(()),
            Err(fault) => Err(Fail::Why(fault)),
        },
        None => {
            let name = text_in(alloc, name)?;
            set.variables.set(alloc, name, value)?;
            Ok(())
        }
    }
}

/// Gives the name at this part of the text a value.
fn assign(
    alloc: Global,
    text: &[u8],
    set: &mut Outcome,
    span: Span,
    value: Value,
) -> Result<(), Fail<EvalFault>>
    ensures { GivesAs (λ _. set.new) result (assigned text.now set.old span value) }
{
    match set_name(alloc, set, part(text, span), value) {
        Ok(()) => Ok(()),
        Err(Fail::Memory) => Err(Fail::Memory),
        Err(Fail::Why(fault)) => Err(Fail::Why(EvalFault {
            fault,
            place: span.from,
        })),
    }
}

/// Ends a statement whose expression has this value.
pub fn settle(
    alloc: Global,
    text: &[u8],
    set: &mut Outcome,
    statement: &Statement,
    value: Value,
) -> Result<(), Fail<EvalFault>>
    ensures { GivesAs (λ _. set.new) result (settled text.now set.old (statement_of statement.now) value) }
{
    match statement {
        Statement::Assign(name, _) => assign(alloc, text, set, *name, value),
        Statement::Expression(_) => Ok(()),
    }
}
