//! Dependencies in the bodies of tasks.
ghost use Rattle.std.specs.Prelude.{◌≡◌, ◌≤◌, true, length, option_map, IfOk};
ghost use Rattle.std.specs.List.{list_all};
ghost use Rattle.serde_json.specs.View.{view, items_view};
ghost use Rattle.bt_base.specs.Fails.{Gives, GivesAs};
ghost use Rattle.bt_rows.specs.declared.limits.TheConstants.{DEPENDENCY_RANGE_LIMIT};
ghost use Rattle.bt_rows.specs.Ranges.{is_span_in_range};
ghost use Rattle.wire_bodies.specs.Dependencies as depends;

use crate::list_item::{ListItem, read_shared_items};
use bt_base::{Fail, Id, SharedList};
use bt_rows::limits::DEPENDENCY_RANGE_LIMIT;
use bt_rows::member::Member;
use bt_rows::refusal::Refusal;
use serde_json::Value;
use std::alloc::Global;
use wire_members::{id_item, invalid_property, list_member, object_item, required_count};

/// What a task depends on.
#[derive(Drop)]
pub struct Dependencies {
    /// The ids of tasks.
    pub needs: SharedList<Id>,
    /// Ranges of numbers of tasks, with the first and the last number of each.
    pub spans: SharedList<(u32, u32)>,
}

impl ListItem for Id {
    ghost item_in = { depends.id_of_item };

    ghost is_in_range = { λ id. true };

    fn read(alloc: Global, list: Member, value: &Value) -> Result<Id, Fail<Refusal>> {
        id_item(alloc, value, list)
    }
}

impl ListItem for (u32, u32) {
    ghost item_in = { depends.span_item };

    ghost is_in_range = { is_span_in_range };

    #[tactic(auto, unfolding(crate::specs::Dependencies::span_item))]
    fn read(alloc: Global, list: Member, value: &Value) -> Result<(u32, u32), Fail<Refusal>> {
        let members = object_item(value, list)?;
        let most = u64::from(u32::MAX);
        let first = required_count(Some(members), Member::Start, 0, most)?;
        let last = required_count(Some(members), Member::End, 0, most)?;
        if first > last {
            return Err(invalid_property(Member::Start));
        }
        Ok((first as u32, last as u32))
    }
}

/// The ranges, if they are at most 64.
#[tactic(auto, using(crate::proofs::ItemCounts::items_counted))]
fn few_spans(values: &[Value]) -> Result<&[Value], Fail<Refusal>>
    ensures value { GivesAs (λ vs. items_view vs.now) result (depends.few_spans (items_view values.now)) }
    ensures few { IfOk result (λ vs. length vs.now ≤ DEPENDENCY_RANGE_LIMIT) }
{
    if values.len() > DEPENDENCY_RANGE_LIMIT {
        Err(invalid_property(Member::TaskIdRanges))
    } else {
        Ok(values)
    }
}

/// What an object says that the task depends on (Azure: dependsOn); nothing if there is no object. Each member may be absent.
///
/// - `taskIds`, a list of ids; how many they may be is limited by the service, not here;
/// - `taskIdRanges`, a list of at most 64 objects with `start` and `end`, numbers of 32 bits, both required.
///
/// A member that is of a wrong kind or out of range, and an absent one that is required, are `InvalidPropertyValue` with its name.
/// An item of a wrong kind and a bad id are refused under the list's name, more than 64 ranges as `taskIdRanges` before any of them
/// is read, and a range whose `start` is above its `end` as `start`. It fails with `Memory` when out of memory.
#[tactic(auto, unfolding(crate::specs::Dependencies::dependencies_in))]
pub fn dependencies_in(alloc: Global, part: Option<&Value>) -> Result<Dependencies, Fail<Refusal>>
    ensures value { Gives result (depends.dependencies_in (option_map (λ v. view v.now) part.entry)) }
    ensures few { IfOk result (λ all. length all.spans ≤ DEPENDENCY_RANGE_LIMIT) }
    ensures spans { IfOk result (λ all. list_all is_span_in_range all.spans ≡ true) }
{
    let values = list_member(part, Member::TaskIds)?;
    let needs = read_shared_items(alloc, Member::TaskIds, values)?;
    let values = few_spans(list_member(part, Member::TaskIdRanges)?)?;
    let spans = read_shared_items(alloc, Member::TaskIdRanges, values)?;
    Ok(Dependencies { needs, spans })
}
