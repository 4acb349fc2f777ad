//! The body of `add-tasks`.
ghost use Rattle.std.specs.Prelude.{◌≡◌, true, length, IfOk};
ghost use Rattle.std.specs.List.{list_all};
ghost use Rattle.serde_json.specs.View.{view, items_view};
ghost use Rattle.bt_base.specs.Fails.{Gives};
ghost use Rattle.bt_rows.specs.Ranges.{is_task_spec_in_range};
ghost use Rattle.wire_bodies.specs.Items.{items_in};
ghost use Rattle.wire_bodies.specs.Collections.{task_item, collection_in, collection_of};

use crate::list_item::{ListItem, read_items};
use crate::task::task;
use bt_base::{Fail, List};
use bt_rows::event::TaskSpec;
use bt_rows::member::Member;
use bt_rows::refusal::Refusal;
use serde_json::Value;
use std::alloc::Global;
use wire_members::{object_item, read_object, required_list};

impl ListItem for TaskSpec {
    ghost item_in = { task_item };

    ghost is_in_range = { is_task_spec_in_range };

    #[tactic(auto, unfolding(crate::specs::Collections::task_item))]
    fn read(alloc: Global, list: Member, value: &Value) -> Result<TaskSpec, Fail<Refusal>> {
        let members = object_item(value, list)?;
        task(alloc, members)
    }
}

/// The tasks that the values of the list of that name are, each an object with the members of the body of `add-task`. The first fault is
/// returned; it fails with `Memory` when out of memory.
pub fn read_task_items(
    alloc: Global,
    list: Member,
    values: &[Value],
) -> Result<List<TaskSpec>, Fail<Refusal>>
    ensures value { Gives result (items_in (task_item list) (items_view values.now)) }
    ensures count { IfOk result (λ specs. length specs ≡ length values.now) }
    ensures kept { IfOk result (λ specs. list_all is_task_spec_in_range specs ≡ true) }
{
    read_items(alloc, list, values)
}

/// The tasks that the members of the body are.
#[tactic(auto, unfolding(crate::specs::Collections::collection_in))]
fn collection(alloc: Global, body: &Value) -> Result<List<TaskSpec>, Fail<Refusal>>
    ensures value { Gives result (collection_in (view body.now)) }
    ensures kept { IfOk result (λ specs. list_all is_task_spec_in_range specs ≡ true) }
{
    let values = required_list(Some(body), Member::Value)?;
    read_items(alloc, Member::Value, values)
}

/// The body of `add-tasks` (Azure: Create Task Collection): `value`, a list of objects, each of them the body of an `add-task`.
/// The list may be empty; the number of tasks is limited by the service, not here.
///
/// Bytes that are not a JSON object are `UnreadableBody`. A `value` that is absent or not a list, and an item that is not an
/// object, are `InvalidPropertyValue(Value)`. A fault of an item's member is refused as that of an `add-task`; the first item
/// with a fault decides. It fails with `Memory` when out of memory.
#[tactic(auto, unfolding(crate::specs::Collections::collection_of))]
pub fn read_collection(alloc: Global, bytes: &[u8]) -> Result<List<TaskSpec>, Fail<Refusal>>
    ensures value { Gives result (collection_of bytes.now) }
    ensures kept { IfOk result (λ specs. list_all is_task_spec_in_range specs ≡ true) }
{
    let body = read_object(alloc, bytes)?;
    collection(alloc, &body)
}
