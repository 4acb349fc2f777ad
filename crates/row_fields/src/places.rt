//! Values by their places in an array.
ghost use Rattle.std.specs.Prelude.{◌≡◌};
ghost use Rattle.serde_json.specs.View.{view, items_view};
ghost use Rattle.bt_base.specs.Fails.{Gives};
ghost use Rattle.row_fields.specs.Fields.{require_length, field_at, option_at, option_in, list_at, list_in, items_in};

use crate::fault::RowFault;
use crate::field::{Field, not_a_row};
use bt_base::{Fail, List, SharedList};
use serde_json::Value;
use std::alloc::Global;

/// Nothing if the JSON is an array of this number of values, and else `NotARow`. It does not allocate.
#[tactic(auto, using(crate::proofs::ItemLists::items_counted))]
pub fn require_length(length: usize, value: &Value) -> Result<(), Fail<RowFault>>
    ensures { Gives result (require_length length (view value.now)) }
{
    match value.as_array() {
        Some(list) => if list.len() == length {
            Ok(())
        } else {
            Err(not_a_row())
        },
        None => Err(not_a_row()),
    }
}

/// The field at this place of an array, which counts from 0. Returns `NotARow` exactly if the JSON is no array, has no such
/// place, or has no value of this type there, and `Memory` only when out of memory.
pub fn field_at<T: Field>(alloc: Global, place: usize, value: &Value) -> Result<T, Fail<RowFault>>
    ensures { Gives result (field_at T.in_data place (view value.now)) }
{
    match value.get(place) {
        Some(value) => T::of_value(alloc, value),
        None => Err(not_a_row()),
    }
}

fn option_of<T: Field>(alloc: Global, value: &Value) -> Result<Option<T>, Fail<RowFault>>
    ensures { Gives result (option_in T.in_data (view value.now)) }
{
    if value.is_null() {
        Ok(None)
    } else {
        Ok(Some(T::of_value(alloc, value)?))
    }
}

/// The field at this place of an array, which counts from 0; None if the value there is null. It fails as `field_at` does.
pub fn option_at<T: Field>(
    alloc: Global,
    place: usize,
    value: &Value,
) -> Result<Option<T>, Fail<RowFault>>
    ensures { Gives result (option_at T.in_data place (view value.now)) }
{
    match value.get(place) {
        Some(value) => option_of(alloc, value),
        None => Err(not_a_row()),
    }
}

fn items_of<T: Field>(alloc: Global, values: &[Value]) -> Result<List<T>, Fail<RowFault>>
    ensures { Gives result (items_in T.in_data (items_view values.now)) }
{
    let mut items = Vec::new(alloc);
    for value in values {
        items.push(T::of_value(alloc, value)?)?;
    }
    Ok(List::of_vec(items))
}

fn list_of<T: Field>(alloc: Global, value: &Value) -> Result<List<T>, Fail<RowFault>>
    ensures { Gives result (list_in T.in_data (view value.now)) }
{
    match value.as_array() {
        Some(list) => items_of(alloc, list.as_slice()),
        None => Err(not_a_row()),
    }
}

/// The list at this place of an array, which counts from 0. Returns `NotARow` exactly if the JSON is no array, has no such place,
/// has no array there, or a value of that is not of this type, and `Memory` only when out of memory.
pub fn list_at<T: Field>(
    alloc: Global,
    place: usize,
    value: &Value,
) -> Result<List<T>, Fail<RowFault>>
    ensures { Gives result (list_at T.in_data place (view value.now)) }
{
    match value.get(place) {
        Some(value) => list_of(alloc, value),
        None => Err(not_a_row()),
    }
}

/// The list that `list_at` finds, in a list that is shared. It fails as that does.
pub fn shared_list_at<T: Field>(
    alloc: Global,
    place: usize,
    value: &Value,
) -> Result<SharedList<T>, Fail<RowFault>>
    ensures { Gives result (list_at T.in_data place (view value.now)) }
{
    let list = list_at(alloc, place, value)?;
    Ok(SharedList::of_list(alloc, list)?)
}
