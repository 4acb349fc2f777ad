//! Texts, ids and command lines.
ghost use Rattle.std.specs.Prelude.{◌≡◌};
ghost use Rattle.serde_json.specs.Data.{string};
ghost use Rattle.serde_json.specs.View.{view};
ghost use Rattle.bt_base.specs.Fails.{GivesAs};
ghost use Rattle.row_fields.specs.Texts.{text_in, id_in, command_in, text_plain};

use crate::fault::RowFault;
use crate::field::{Field, not_a_row};
use bt_base::{CommandLine, Fail, Id, NoMemory, Text};
use serde_json::Value;
use std::alloc::Global;

/// The text that the JSON is, and else `NotARow`.
pub fn str_of(value: &Value) -> Result<&str, Fail<RowFault>>
    ensures { GivesAs (λ text. text.now) result (text_in (view value.now)) }
{
    match value.as_str() {
        Some(text) => Ok(text),
        None => Err(not_a_row()),
    }
}

impl Field for Text {
    ghost data_of = { string };

    ghost in_data = { text_in };

    ghost nesting = { 0 };

    ghost plain = { text_plain };

    fn to_value(&self, alloc: Global) -> Result<Value, NoMemory> {
        Ok(Value::try_from_str(alloc, self.as_str())?)
    }

    fn of_value(alloc: Global, value: &Value) -> Result<Text, Fail<RowFault>> {
        let text = str_of(value)?;
        Ok(Text::of_string(String::from_str(alloc, text)?)?)
    }
}

impl Field for Id {
    ghost data_of = { string };

    ghost in_data = { id_in };

    ghost nesting = { 0 };

    ghost plain = { text_plain };

    #[tactic(auto, unfolding(crate::specs::Texts::id_in, bt_base::specs::Ids::read_id))]
    fn to_value(&self, alloc: Global) -> Result<Value, NoMemory> {
        self.known();
        Ok(Value::try_from_str(alloc, self.as_str())?)
    }

    #[tactic(auto, unfolding(crate::specs::Texts::id_in))]
    fn of_value(alloc: Global, value: &Value) -> Result<Id, Fail<RowFault>> {
        let text = str_of(value)?;
        match Id::read(alloc, text) {
            Ok(id) => Ok(id),
            Err(Fail::Why(_)) => Err(not_a_row()),
            Err(Fail::Memory) => Err(Fail::Memory),
        }
    }
}

impl Field for CommandLine {
    ghost data_of = { string };

    ghost in_data = { command_in };

    ghost nesting = { 0 };

    ghost plain = { text_plain };

    #[tactic(auto, unfolding(crate::specs::Texts::command_in))]
    fn to_value(&self, alloc: Global) -> Result<Value, NoMemory> {
        self.known();
        Ok(Value::try_from_str(alloc, self.as_str())?)
    }

    #[tactic(auto, unfolding(crate::specs::Texts::command_in))]
    fn of_value(alloc: Global, value: &Value) -> Result<CommandLine, Fail<RowFault>> {
        let text = str_of(value)?;
        match CommandLine::read(alloc, text)? {
            Some(line) => Ok(line),
            None => Err(not_a_row()),
        }
    }
}
