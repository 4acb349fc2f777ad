//! Replies as JSON.
ghost use Rattle.std.specs.Prelude.{◌≡◌, IfOk, option_map, false};
ghost use Rattle.serde_json.specs.Data.{string};
ghost use Rattle.serde_json.specs.View.{view};
ghost use Rattle.serde_json.specs.Written.{has_float, compact_text};
ghost use Rattle.wire_json.specs.Replies.{elements_data, results_data, page_data, reply_data, reply_json};

use crate::element::refusal_value;
use crate::parts::{Written, list_value, put_if_some};
use bt_base::{Id, NoMemory, Text};
use bt_rows::reply::{Element, Item, Reply};
use serde_json::{Map, Value, json, put};
use std::alloc::{AllocError, Global};

/// The elements of a collection.
#[tactic(auto, unfolding(crate::specs::Replies::elements_data))]
fn elements_value(alloc: Global, elements: &[Element]) -> Result<Value, NoMemory>
    ensures { IfOk result (λ value. view value ≡ elements_data elements.now) }
{
    let elements = list_value(alloc, elements)?;
    Ok(json!(in alloc; { "value": elements })?)
}

/// The results text of a formula.
#[tactic(auto, unfolding(crate::specs::Replies::results_data))]
fn results_value(alloc: Global, results: &Text) -> Result<Value, AllocError>
    ensures { IfOk result (λ value. view value ≡ results_data results.now) }
{
    json!(in alloc; { "results": results.as_str() })
}

/// An id, if there is one.
fn id_value(alloc: Global, id: &Option<Id>) -> Result<Option<Value>, AllocError>
    ensures { IfOk result (λ value. option_map view value ≡ option_map string id.now) }
{
    match id {
        None => Ok(None),
        Some(id) => Ok(Some(Value::try_from_str(alloc, id.as_str())?)),
    }
}

/// The items of a list, and the last one's id if more follow.
#[tactic(auto, unfolding(crate::specs::Replies::page_data))]
fn page_value(alloc: Global, items: &[Item], after: &Option<Id>) -> Result<Value, NoMemory>
    ensures { IfOk result (λ value. view value ≡ page_data items.now after.now) }
{
    let after = id_value(alloc, after)?;
    let mut members = Map::new(alloc);
    put(&mut members, alloc, "value", list_value(alloc, items)?)?;
    Ok(Value::Object(put_if_some(members, alloc, "nextAfter", after)?))
}

/// The reply's JSON, if it has one.
fn reply_value(alloc: Global, reply: &Reply) -> Result<Option<Value>, NoMemory>
    ensures { IfOk result (λ value. option_map view value ≡ reply_data reply.now) }
{
    match reply {
        Reply::Refused(refusal) => Ok(Some(refusal_value(alloc, refusal)?)),
        Reply::Elements(elements) => Ok(Some(elements_value(alloc, elements.as_slice())?)),
        Reply::Results(results) => Ok(Some(results_value(alloc, results)?)),
        Reply::One(item) => Ok(Some(item.to_value(alloc)?)),
        Reply::Page(items, after) => Ok(Some(page_value(alloc, items.as_slice(), after)?)),
        Reply::Status(_) | Reply::Step(_) => Ok(None),
    }
}

/// The text of the value.
fn value_text(alloc: Global, value: &Value) -> Result<Text, NoMemory>
    requires { has_float (view value.now) ≡ false }
    ensures { IfOk result (λ text. text ≡ compact_text (view value.now)) }
{
    Text::of_string(value.to_string(alloc)?)
}

/// The JSON of the reply as a text without spaces (RFC 8259): a refusal is its name, its number and its values; a row or counts
/// have their members; a list has the items under `value`, and under `nextAfter` the last one's id if more follow; a collection has a
/// status for each task under `value`; the evaluation of a formula has its text under `results`. A status alone has no JSON, nor has
/// a due step: their text is empty. It fails only when out of memory.
pub fn reply_json(alloc: Global, reply: &Reply) -> Result<Text, NoMemory>
    ensures { IfOk result (λ text. text ≡ reply_json reply.now) }
{
    match reply_value(alloc, reply)? {
        None => Text::of_string(String::new(alloc)),
        Some(value) => value_text(alloc, &value),
    }
}
