//! Names and strings as texts of their own.
ghost use Rattle.std.specs.Prelude.{◌≡◌, IfOk};
ghost use Rattle.formula_eval.specs.Outcomes.{text_in};
ghost use Rattle.formula_eval.specs.Evaluation.{unquoted, string_value};

use bt_base::{NoMemory, Text, text_of};
use formula_values::Value;
use std::alloc::Global;

/// A text of its own.
pub fn copied(alloc: Global, text: &str) -> Result<Text, NoMemory>
    ensures { IfOk result (λ copy. copy ≡ text.now) }
{
    Text::of_string(String::from_str(alloc, text)?)
}

/// A part of a formula's text as a text of its own.
pub fn text_in(alloc: Global, bytes: &[u8]) -> Result<Text, NoMemory>
    ensures { IfOk result (λ text. text ≡ text_in bytes.now) }
{
    match text_of(bytes) {
        Some(text) => copied(alloc, text),
        None => Text::of_string(String::new(alloc)),
    }
}

/// A string without its two quotes.
fn unquoted(bytes: &[u8]) -> &[u8]
    ensures { result.now ≡ unquoted bytes.now }
{
    if bytes.len() < 2 {
        &bytes[..0]
    } else {
        &bytes[1..bytes.len() - 1]
    }
}

/// The value of a string with its two quotes.
pub fn string_value(alloc: Global, bytes: &[u8]) -> Result<Value, NoMemory>
    ensures { IfOk result (λ found. found ≡ string_value bytes.now) }
{
    Ok(Value::Text(text_in(alloc, unquoted(bytes))?))
}
