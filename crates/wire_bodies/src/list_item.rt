//! The items of a list member.
ghost use Rattle.std.specs.Prelude.{◌≡◌, true, Bool, Result, length, IfOk, IfErr, OnOk};
ghost use Rattle.std.specs.List.{list_all};
ghost use Rattle.serde_json.specs.Data.{Data};
ghost use Rattle.serde_json.specs.View.{view, items_view};
ghost use Rattle.bt_base.specs.Fails.{Fails, Gives};
ghost use Rattle.bt_rows.specs.declared.member.Member.{Member};
ghost use Rattle.bt_rows.specs.declared.refusal.Refusal.{Refusal};
ghost use Rattle.wire_bodies.specs.Items.{IsAdded, items_in};

use bt_base::{Fail, List, SharedList};
use bt_rows::member::Member;
use bt_rows::refusal::Refusal;
use serde_json::Value;
use std::alloc::Global;

/// A type that the items of a list member are read as.
pub trait ListItem: Drop {
    // the item that a value is, under the list's name
    ghost item_in: { Member → Data → Result Self Refusal };

    // what every item that is read keeps
    ghost is_in_range: { Self → Bool };

    /// The item that the value is. A value of a wrong kind is `InvalidPropertyValue` with the list's name.
    fn read(alloc: Global, list: Member, value: &Value) -> Result<Self, Fail<Refusal>>
        ensures value { Gives result (item_in list (view value.now)) }
        ensures kept { IfOk result (λ item. is_in_range item ≡ true) };
}

/// Adds the item that the value is, to those before it. It fails as `read` does, and with `Memory` when out of memory.
fn push_item<T: ListItem>(
    alloc: Global,
    list: Member,
    value: &Value,
    items: &mut Vec<T>,
) -> Result<(), Fail<Refusal>>
    ensures added { OnOk result (IsAdded (T.item_in list (view value.now)) T.is_in_range items.old.items items.new.items) }
    ensures fault { IfErr result (λ fault. Fails fault (T.item_in list (view value.now))) }
{
    let item = T::read(alloc, list, value)?;
    items.push(item)?;
    Ok(())
}

/// The items that the values of the list of that name are, in order. The first fault is returned; it fails with `Memory` when
/// out of memory.
pub fn read_items<T: ListItem>(
    alloc: Global,
    list: Member,
    values: &[Value],
) -> Result<List<T>, Fail<Refusal>>
    ensures value { Gives result (items_in (T.item_in list) (items_view values.now)) }
    ensures count { IfOk result (λ items. length items ≡ length values.now) }
    ensures kept { IfOk result (λ items. list_all T.is_in_range items ≡ true) }
{
    let mut items = Vec::new(alloc);
    for value in values {
        push_item(alloc, list, value, &mut items)?;
    }
    Ok(List::of_vec(items))
}

/// The items that `read_items` reads, in a list that is shared. It fails as that does.
pub fn read_shared_items<T: ListItem>(
    alloc: Global,
    list: Member,
    values: &[Value],
) -> Result<SharedList<T>, Fail<Refusal>>
    ensures value { Gives result (items_in (T.item_in list) (items_view values.now)) }
    ensures count { IfOk result (λ items. length items ≡ length values.now) }
    ensures kept { IfOk result (λ items. list_all T.is_in_range items ≡ true) }
{
    let items = read_items(alloc, list, values)?;
    Ok(SharedList::of_list(alloc, items)?)
}
