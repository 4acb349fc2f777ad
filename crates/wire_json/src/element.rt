//! Refusals and elements of collections as JSON.
ghost use Rattle.std.specs.Prelude.{◌≡◌, IfOk};
ghost use Rattle.serde_json.specs.View.{view};
ghost use Rattle.wire_json.specs.Replies.{refusal_data, added_data, refused_data, element_data};

use crate::parts::{Written, list_value};
use bt_base::{Id, NoMemory};
use bt_rows::refusal::Refusal;
use bt_rows::reply::Element;
use serde_json::{Value, json};
use std::alloc::{AllocError, Global};
use wire_words::{name_of, number_of, values_of};

/// The refusal: its name, its number and its values as texts.
#[tactic(auto, unfolding(crate::specs::Replies::refusal_data))]
pub fn refusal_value(alloc: Global, refusal: &Refusal) -> Result<Value, NoMemory>
    ensures { IfOk result (λ value. view value ≡ refusal_data refusal.now) }
{
    let texts = values_of(alloc, refusal)?;
    let values = list_value(alloc, texts.as_slice())?;
    Ok(json!(in alloc; {
        "code": name_of(refusal),
        "number": number_of(refusal),
        "values": values
    })?)
}

/// The element of a task that was added.
#[tactic(auto, unfolding(crate::specs::Replies::added_data))]
fn added_value(alloc: Global, id: &Id) -> Result<Value, AllocError>
    ensures { IfOk result (λ value. view value ≡ added_data id.now) }
{
    json!(in alloc; { "status": "success", "taskId": id.as_str() })
}

/// The element of a task that was not added.
#[tactic(auto, unfolding(crate::specs::Replies::refused_data))]
fn refused_value(alloc: Global, id: &Id, refusal: &Refusal) -> Result<Value, NoMemory>
    ensures { IfOk result (λ value. view value ≡ refused_data id.now refusal.now) }
{
    let error = refusal_value(alloc, refusal)?;
    Ok(json!(in alloc; { "error": error, "status": "clienterror", "taskId": id.as_str() })?)
}

impl Written for Element {
    ghost data_of = { element_data };

    fn to_value(&self, alloc: Global) -> Result<Value, NoMemory> {
        match self {
            Element::Added(id) => Ok(added_value(alloc, id)?),
            Element::NotAdded(id, refusal) => refused_value(alloc, id, refusal),
        }
    }
}
