//! Enums, by the names of their variants.
ghost use Rattle.std.specs.Prelude.{◌≡◌, List, Ok, IfOk, OnOk, option_map};
ghost use Rattle.std.specs.List.{find};
ghost use Rattle.std.specs.Str.{bytes_eq};
ghost use Rattle.serde_json.specs.View.{view};
ghost use Rattle.bt_base.specs.Fails.{Gives, GivesAs};
ghost use Rattle.row_fields.specs.Fields.{field_at};
ghost use Rattle.row_fields.specs.Texts.{text_in};
ghost use Rattle.row_fields.specs.Names.{named_data, named_in, named_plain, payload_data, payload_in};

use crate::array::ArrayBuilder;
use crate::fault::RowFault;
use crate::field::{Field, not_a_row};
use crate::places::{field_at, require_length};
use crate::texts::str_of;
use bt_base::{Fail, NoMemory};
use serde_json::Value;
use std::alloc::Global;
use variant_names::Named;

/// An enum whose variants have no values. As a field a variant is its name.
pub trait UnitEnum: Named + 'static {
    /// All variants.
    ghost all: { List Self };

    /// All variants. It does not allocate.
    fn all() -> &'static [Self]
        ensures { result.now ≡ all };

    /// No two variants have one name.
    ghost back: { (variant : Self) → named_in Self.name all (named_data Self.name variant) ≡ Ok variant };
}

impl<T: UnitEnum> Field for T {
    ghost data_of = { named_data T.name };

    ghost in_data = { named_in T.name T.all };

    ghost nesting = { 0 };

    ghost plain = { named_plain T.name };

    fn to_value(&self, alloc: Global) -> Result<Value, NoMemory> {
        name_value(alloc, *self)
    }

    fn of_value(_: Global, value: &Value) -> Result<T, Fail<RowFault>> {
        find_named(T::all(), value)
    }
}

/// The JSON of the variant's name. It fails only when out of memory.
pub fn name_value<T: Named>(alloc: Global, variant: T) -> Result<Value, NoMemory>
    ensures { IfOk result (λ value. view value ≡ named_data T.name variant) }
{
    Ok(Value::try_from_str(alloc, variant.name())?)
}

fn has_name<T: Named>(variant: &T, text: &str) -> bool
    ensures { result ≡ bytes_eq text.now (T.name variant.now) }
{
    text == variant.name()
}

fn with_name<'a, T: Named>(variants: &'a [T], text: &str) -> Option<&'a T>
    ensures { option_map (λ variant. variant.now) result ≡ find (λ variant. bytes_eq text.now (T.name variant)) variants.now }
{
    variants.iter().find(|variant| has_name(*variant, text))
}

/// The first of these variants whose name the JSON is, and else `NotARow`. It does not allocate.
#[tactic(auto, unfolding(crate::specs::Names::named_in))]
pub fn find_named<T: Named>(variants: &[T], value: &Value) -> Result<T, Fail<RowFault>>
    ensures { Gives result (named_in T.name variants.now (view value.now)) }
{
    let text = str_of(value)?;
    match with_name(variants, text) {
        Some(variant) => Ok(*variant),
        None => Err(not_a_row()),
    }
}

/// The JSON of a variant with this value, which reads back: an array of its name and the value. It fails only when out of memory.
pub fn payload_value<N: Named, T: Field>(
    alloc: Global,
    variant: N,
    payload: &T,
) -> Result<Value, NoMemory>
    ensures written { IfOk result (λ value. view value ≡ payload_data T.data_of (N.name variant) payload.now) }
    ensures back { OnOk result (T.in_data (T.data_of payload.now) ≡ Ok payload.now) }
{
    let name = name_value(alloc, variant)?;
    Ok(
        ArrayBuilder::new(alloc)
            .push(name)?
            .field(payload)?
            .into_value(),
    )
}

fn text_at(place: usize, value: &Value) -> Result<&str, Fail<RowFault>>
    ensures { GivesAs (λ text. text.now) result (field_at text_in place (view value.now)) }
{
    match value.get(place) {
        Some(value) => str_of(value),
        None => Err(not_a_row()),
    }
}

/// The value of the variant of this name, if the JSON is an array of that name and a value of this type, and else `NotARow`. It
/// fails with `Memory` only when out of memory.
pub fn payload_of<T: Field>(alloc: Global, name: &str, value: &Value) -> Result<T, Fail<RowFault>>
    ensures { Gives result (payload_in T.in_data name.now (view value.now)) }
{
    require_length(2, value)?;
    let text = text_at(0, value)?;
    if text == name {
        field_at(alloc, 1, value)
    } else {
        Err(not_a_row())
    }
}
