//! The bytes of a body.
ghost use Rattle.std.specs.Prelude.{◌≡◌};
ghost use Rattle.bt_base.specs.Fails.{GivesAs};
ghost use Rattle.serde_json.specs.View.{view};
ghost use Rattle.serde_json.specs.Read.{read};
ghost use Rattle.wire_members.specs.Body.{object_of, object_or_unreadable};

use bt_base::{Fail, text_of};
use bt_rows::refusal::Refusal;
use serde_json::Value;
use std::alloc::Global;

/// The JSON object that the bytes are (RFC 8259, as `serde_json` reads it). Of members with the same name the last counts. Bytes
/// that are not UTF-8, not JSON or another value are `UnreadableBody`; it fails with `Memory` when out of memory.
pub fn read_object(alloc: Global, bytes: &[u8]) -> Result<Value, Fail<Refusal>>
    ensures { GivesAs view result (object_of bytes.now) }
{
    match text_of(bytes) {
        Some(text) => object_in_text(alloc, text),
        None => Err(Fail::Why(Refusal::UnreadableBody)),
    }
}

/// The JSON object that the text is.
fn object_in_text(alloc: Global, text: &str) -> Result<Value, Fail<Refusal>>
    ensures { GivesAs view result (object_or_unreadable (read text.now)) }
{
    match Value::from_str(alloc, text) {
        Ok(value) => if value.is_object() {
            Ok(value)
        } else {
            Err(Fail::Why(Refusal::UnreadableBody))
        },
        Err(error) => if error.is_memory() {
            Err(Fail::Memory)
        } else {
            Err(Fail::Why(Refusal::UnreadableBody))
        },
    }
}
