//! The text of results, and that of a fault.
ghost use Rattle.std.specs.Prelude.{◌≡◌, ◌++◌, IfOk, string_bytes};
ghost use Rattle.formula_eval.specs.Results.{has_dollar, shown_name, variable_text, variables_text, settings_text, results_text, error_text};
ghost use Rattle.bt_base.specs.DeallocOptions.{option_word};

use crate::outcome::{Outcome, Variable};
use bt_base::{NoMemory, Text, option_word};
use std::alloc::{AllocError, Global};

fn has_dollar(name: &[u8]) -> bool
    ensures { result ≡ has_dollar name.now }
{
    match name.first() {
        Some(b) => *b == b'$',
        None => false,
    }
}

/// Appends a name, with a `$` before it if it has none.
fn push_name(text: &mut String, name: &str) -> Result<(), NoMemory>
    ensures { IfOk result (λ _. string_bytes text.new ≡ string_bytes text.old ++ shown_name name.now) }
{
    if !has_dollar(name.as_bytes()) {
        text.push('$')?;
    }
    text.push_str(name)?;
    Ok(())
}

/// Appends a variable: `;`, its name, `=` and its value.
fn push_variable(alloc: Global, text: &mut String, variable: &Variable) -> Result<(), NoMemory>
    ensures { IfOk result (λ _. string_bytes text.new ≡ string_bytes text.old ++ variable_text variable.now) }
{
    let value = variable.value.text(alloc)?;
    text.push(';')?;
    push_name(text, variable.name.as_str())?;
    text.push('=')?;
    text.push_str(value.as_str())?;
    Ok(())
}

fn push_variables(alloc: Global, text: &mut String, variables: &[Variable]) -> Result<(), NoMemory>
    ensures { IfOk result (λ _. string_bytes text.new ≡ string_bytes text.old ++ variables_text variables.now) }
{
    for variable in variables {
        push_variable(alloc, text, variable)?;
    }
    Ok(())
}

/// The three settings.
#[tactic(auto, unfolding(crate::specs::Results::settings_text))]
fn settings_text(alloc: Global, dedicated: u32, low: u32, word: &str) -> Result<String, AllocError>
    ensures { IfOk result (λ text. string_bytes text ≡ settings_text dedicated low word.now) }
{
    let dedicated_name = "$TargetDedicatedNodes=";
    let low_name = ";$TargetLowPriorityNodes=";
    let option_name = ";$NodeDeallocationOption=";
    format!(in alloc; "{dedicated_name}{dedicated}{low_name}{low}{option_name}{word}")
}

/// What a formula has set, as text: the targets, the node deallocation option, then its variables in the order of their first
/// settings, each with a `$` before its name.
pub fn results_text(alloc: Global, outcome: &Outcome) -> Result<Text, NoMemory>
    ensures { IfOk result (λ text. text ≡ results_text outcome.now) }
{
    let word = option_word(outcome.option);
    let targets = outcome.targets;
    let mut text = settings_text(alloc, targets.dedicated, targets.low, word)?;
    push_variables(alloc, &mut text, outcome.variables.as_slice())?;
    Text::of_string(text)
}

/// `error`, a fault's name and its place, which counts the text's bytes from 0. Returns `NoMemory` if it is out of memory.
#[tactic(auto, unfolding(crate::specs::Results::error_text))]
pub fn error_text(alloc: Global, name: &str, place: usize) -> Result<Text, NoMemory>
    ensures { IfOk result (λ text. text ≡ error_text name.now place) }
{
    let mut text = String::from_str(alloc, "error ")?;
    text.push_str(name)?;
    text.push(' ')?;
    write!(text, "{place}")?;
    Text::of_string(text)
}
