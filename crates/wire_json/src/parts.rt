//! Values that are written as JSON, and lists of them.
ghost use Rattle.std.specs.Prelude.{◌≡◌, IfOk, map, option_map};
ghost use Rattle.serde_json.specs.Data.{Data, string};
ghost use Rattle.serde_json.specs.View.{view, members_view};
ghost use Rattle.wire_json.specs.Members.{list_data, with_member};

use bt_base::{NoMemory, Text};
use serde_json::{Map, Value};
use std::alloc::Global;

/// A value that is written as JSON.
pub trait Written {
    /// The JSON of a value.
    ghost data_of: { Self → Data };

    /// The JSON of the value. It fails only when out of memory.
    fn to_value(&self, alloc: Global) -> Result<Value, NoMemory>
        ensures { IfOk result (λ value. view value ≡ data_of self.now) };
}

impl Written for Text {
    ghost data_of = { string };

    fn to_value(&self, alloc: Global) -> Result<Value, NoMemory> {
        Ok(Value::try_from_str(alloc, self.as_str())?)
    }
}

/// The list of the values.
pub fn list_value<T: Written>(alloc: Global, values: &[T]) -> Result<Value, NoMemory>
    ensures { IfOk result (λ list. view list ≡ list_data (map T.data_of values.now)) }
{
    let mut list = Vec::new(alloc);
    for value in values {
        list.push(value.to_value(alloc)?)?;
    }
    Ok(Value::Array(list))
}

/// Adds a member, if there is a value for it.
pub fn put_if_some(
    mut members: Map<String, Value>,
    alloc: Global,
    name: &str,
    value: Option<Value>,
) -> Result<Map<String, Value>, NoMemory>
    ensures { IfOk result (λ more. members_view more.entries ≡ with_member name.now (option_map view value) (members_view members.entries)) }
{
    if let Some(value) = value {
        serde_json::put(&mut members, alloc, name, value)?;
    }
    Ok(members)
}
