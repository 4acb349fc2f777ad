//! Arrays of fields.
ghost use Rattle.std.specs.Prelude.{◌≡◌, Ok, IfOk, OnOk};
ghost use Rattle.serde_json.specs.Data.{no_items, array};
ghost use Rattle.serde_json.specs.View.{view, items_view};
ghost use Rattle.row_fields.specs.Arrays.{items_built};
ghost use Rattle.row_fields.specs.Fields.{with_item, option_data, option_in, list_data, list_in, items_data, items_in};

use crate::field::Field;
use bt_base::NoMemory;
use serde_json::Value;
use std::alloc::Global;

/// A JSON array to which fields are added, one after another.
#[derive(Drop)]
pub struct ArrayBuilder {
    /// The values so far, in order.
    pub values: Vec<Value>,
}

impl ArrayBuilder {
    /// An array without values. It does not allocate.
    pub fn new(alloc: Global) -> ArrayBuilder
        ensures { items_built result ≡ no_items }
    {
        ArrayBuilder {
            values: Vec::new(alloc),
        }
    }

    /// Adds a value at the end. It fails only when out of memory.
    #[tactic(auto, using(crate::proofs::ItemLists::items_pushed))]
    pub fn push(mut self, value: Value) -> Result<ArrayBuilder, NoMemory>
        ensures { IfOk result (λ array. items_built array ≡ with_item (items_built self) (view value)) }
    {
        self.values.push(value)?;
        Ok(self)
    }

    /// Adds a field, which reads back. It fails only when out of memory.
    pub fn field<T: Field>(self, field: &T) -> Result<ArrayBuilder, NoMemory>
        ensures written { IfOk result (λ array. items_built array ≡ with_item (items_built self) (T.data_of field.now)) }
        ensures back { OnOk result (T.in_data (T.data_of field.now) ≡ Ok field.now) }
    {
        let alloc = *self.values.allocator();
        self.push(field.to_value(alloc)?)
    }

    /// Adds a field that may be absent, which reads back: null if it is. It fails only when out of memory.
    pub fn option<T: Field>(self, field: &Option<T>) -> Result<ArrayBuilder, NoMemory>
        ensures written { IfOk result (λ array. items_built array ≡ with_item (items_built self) (option_data T.data_of field.now)) }
        ensures back { OnOk result (option_in T.in_data (option_data T.data_of field.now) ≡ Ok field.now) }
    {
        let alloc = *self.values.allocator();
        let value = option_value(alloc, field)?;
        self.push(value)
    }

    /// Adds an array of these values, which reads back. It fails only when out of memory.
    pub fn list<T: Field>(self, list: &[T]) -> Result<ArrayBuilder, NoMemory>
        ensures written { IfOk result (λ array. items_built array ≡ with_item (items_built self) (list_data T.data_of list.now)) }
        ensures back { OnOk result (list_in T.in_data (list_data T.data_of list.now) ≡ Ok list.now) }
    {
        let alloc = *self.values.allocator();
        let value = list_value(alloc, list)?;
        self.push(value)
    }

    /// The array as JSON. It does not allocate.
    pub fn into_value(self) -> Value
        ensures { view result ≡ array (items_built self) }
    {
        let ArrayBuilder { values } = self;
        Value::Array(values)
    }
}

fn option_value<T: Field>(alloc: Global, field: &Option<T>) -> Result<Value, NoMemory>
    ensures written { IfOk result (λ value. view value ≡ option_data T.data_of field.now) }
    ensures back { OnOk result (option_in T.in_data (option_data T.data_of field.now) ≡ Ok field.now) }
{
    match field {
        Some(field) => field.to_value(alloc),
        None => Ok(Value::Null),
    }
}

fn list_value<T: Field>(alloc: Global, list: &[T]) -> Result<Value, NoMemory>
    ensures written { IfOk result (λ value. view value ≡ list_data T.data_of list.now) }
    ensures back { OnOk result (list_in T.in_data (list_data T.data_of list.now) ≡ Ok list.now) }
{
    Ok(Value::Array(list_values(alloc, list)?))
}

fn list_values<T: Field>(alloc: Global, list: &[T]) -> Result<Vec<Value>, NoMemory>
    ensures written { IfOk result (λ values. items_view values.items ≡ items_data T.data_of list.now) }
    ensures back { OnOk result (items_in T.in_data (items_data T.data_of list.now) ≡ Ok list.now) }
{
    let mut array = ArrayBuilder::new(alloc);
    for field in list {
        array = array.field(field)?;
    }
    let ArrayBuilder { values } = array;
    Ok(values)
}
