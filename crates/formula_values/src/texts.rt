//! The texts of values.
ghost use Rattle.std.specs.Prelude.{◌≡◌, ◌<◌, [], ◌∷◌, ◌++◌, IfOk, string_bytes, unsigned_abs};
ghost use Rattle.formula_values.specs.Texts.{places, more_items, items_text, vector_text, time_text, timestamp_text, value_text};

use crate::times::Timestamp;
use crate::value::Value;
use bt_base::{Duplicate, NoMemory, Num, Text};
use bt_times::{Civil, civil};
use std::alloc::Global;

impl Value {
    /// The value's text: a double's digits, a vector's items in brackets, a string's own bytes, a timestamp of ISO 8601 with
    /// seven decimals, or a timeinterval's units of 100 ns.
    pub fn text(&self, alloc: Global) -> Result<Text, NoMemory>
        ensures { IfOk result (λ text. text ≡ value_text self.now) }
    {
        match self {
            Value::Double(number) => number.text(alloc),
            Value::DoubleVec(items) => vector_text(alloc, items.as_slice()),
            Value::Text(text) => text.copy(),
            Value::Timestamp(time) => timestamp_text(alloc, *time),
            Value::TimeInterval(time) => {
                let units = time.units();
                Text::of_string(format!(in alloc; "{units}")?)
            }
        }
    }
}

/// Numbers in brackets, with commas between them.
fn vector_text(alloc: Global, items: &[Num]) -> Result<Text, NoMemory>
    ensures { IfOk result (λ text. text ≡ vector_text items.now) }
{
    let mut text = String::from_str(alloc, "[")?;
    push_items(alloc, &mut text, items)?;
    text.push(']')?;
    Text::of_string(text)
}

fn push_items(alloc: Global, text: &mut String, items: &[Num]) -> Result<(), NoMemory>
    ensures { IfOk result (λ _. string_bytes text.new ≡ string_bytes text.old ++ items_text items.now) }
{
    match items {
        [] => Ok(()),
        [first, others @ ..] => {
            text.push_str(first.text(alloc)?.as_str())?;
            push_more(alloc, text, others)
        }
    }
}

/// Appends numbers, each after a comma.
fn push_more(alloc: Global, text: &mut String, items: &[Num]) -> Result<(), NoMemory>
    ensures { IfOk result (λ _. string_bytes text.new ≡ string_bytes text.old ++ more_items items.now) }
{
    for item in items {
        text.push(',')?;
        text.push_str(item.text(alloc)?.as_str())?;
    }
    Ok(())
}

fn timestamp_text(alloc: Global, time: Timestamp) -> Result<Text, NoMemory>
    ensures { IfOk result (λ text. text ≡ timestamp_text (unsigned_abs time)) }
{
    let units = time.units();
    let mut text = String::new(alloc);
    push_time(&mut text, civil(units), (units % 10_000_000) as u32)?;
    Text::of_string(text)
}

/// Appends a date and a time of day, with `units` of 100 ns past the second, as ISO 8601 writes them.
#[tactic(auto, unfolding(crate::specs::Texts::time_text))]
fn push_time(text: &mut String, shown: Civil, units: u32) -> Result<(), NoMemory>
    ensures { IfOk result (λ _. string_bytes text.new ≡ string_bytes text.old ++ time_text shown units) }
{
    push_part(text, 4, shown.year, '-')?;
    push_part(text, 2, shown.month, '-')?;
    push_part(text, 2, shown.day, 'T')?;
    push_part(text, 2, shown.hour, ':')?;
    push_part(text, 2, shown.minute, ':')?;
    push_part(text, 2, shown.second, '.')?;
    push_part(text, 7, units, 'Z')?;
    Ok(())
}

/// Appends the last `count` digits of a number, and an ASCII mark after them.
fn push_part(text: &mut String, count: u32, number: u32, mark: char) -> Result<(), NoMemory>
    requires { mark < 128 }
    ensures { IfOk result (λ _. string_bytes text.new ≡ string_bytes text.old ++ (places count number ++ mark ∷ [])) }
{
    push_places(text, count, number)?;
    text.push(mark)?;
    Ok(())
}

/// Appends the last `count` digits of a number.
fn push_places(text: &mut String, count: u32, number: u32) -> Result<(), NoMemory>
    ensures { IfOk result (λ _. string_bytes text.new ≡ string_bytes text.old ++ places count number) }
{
    if count == 0 {
        return Ok(());
    }
    push_places(text, count - 1, number / 10)?;
    let digit = b'0' + (number % 10) as u8;
    text.push(digit as char)?;
    Ok(())
}
