//! The calls of the machine.
ghost use Rattle.std.specs.Prelude.{◌≡◌, ◌≤◌, true, IfOk};
ghost use Rattle.bt_base.specs.Moments.{last_moment};
ghost use Rattle.batch_model.specs.Dues.{pool_step};
ghost use Rattle.batch_model.specs.Events.{event_now};
ghost use Rattle.batch_model.specs.Sound.{RunsNameTheirs};
ghost use Rattle.machine_plans.specs.Plans.{IsAnswer, IsRule, with_moment};
ghost use Rattle.pool_resize.specs.Owners.{is_of_pools};
ghost use Rattle.pool_samples.specs.Conditions.{CanSample};

use crate::events::{delete_pool, resize_pool, stop_resize};
use crate::leaving::remove_node;
use crate::pool::add_pool;
use crate::resize::end_resize;
use bt_base::{Fail, NoMemory};
use bt_rows::event::{Event, EventKind};
use bt_rows::plan::Plan;
use bt_rows::refusal::Refusal;
use machine_index::IndexedTables;
use pool_scaling::{disable_autoscale, enable_autoscale, evaluate_autoscale, scale_first};
use std::alloc::Global;

/// The answer to an event of pools at `now`, in milliseconds since 1970. Refusals come in the order in which they are listed here:
///
/// - `add-pool`: `PoolExists`, `TableFull` if there are as many pools as the limit, and `FormulaRefused`;
/// - `delete-pool`: `PoolNotFound`, `PoolBeingDeleted`;
/// - `resize`: `PoolNotFound`, `PoolBeingDeleted`, `PoolScalesAutomatically`, and `PoolBeingResized` if the pool is not steady;
/// - `stop-resize`: `PoolNotFound`, `PoolBeingDeleted`, and `PoolNotResizing` if the pool does not resize, or is being stopped;
/// - `enable-autoscale`: `PoolNotFound`, `PoolBeingDeleted`, `PoolBeingResized` if the pool is not steady, `AutoscaleTooSoon`,
///   `PoolDoesNotScale` if no formula is given and none is there, and `FormulaRefused`;
/// - `disable-autoscale`: `PoolNotFound`, `PoolBeingDeleted`, `PoolDoesNotScale`;
/// - `evaluate-autoscale`: `PoolNotFound`, `PoolBeingDeleted`, `PoolDoesNotScale`, `FormulaRefused`.
///
/// The only other error is out of memory.
pub fn plan_event(
    alloc: Global,
    indexed: &IndexedTables,
    now: u64,
    event: &Event,
) -> Result<Plan, Fail<Refusal>>
    requires own { is_of_pools event.now ≡ true }
    requires sample { CanSample indexed.now.state }
    requires naming { RunsNameTheirs indexed.now.state }
    requires moment { now ≤ last_moment }
    ensures { IsAnswer now (event_now event.now (with_moment now indexed.now.state)) indexed.now.state result }
{
    let tables = indexed.tables();
    match event.kind() {
        EventKind::AddPool(spec) => add_pool(alloc, tables, now, spec.get()),
        EventKind::DeletePool(id) => delete_pool(alloc, tables, now, id),
        EventKind::Resize(id, spec) => resize_pool(alloc, tables, now, id, spec.get()),
        EventKind::StopResize(id) => stop_resize(alloc, tables, now, id),
        EventKind::EnableAutoscale(id, spec) => enable_autoscale(
            alloc,
            tables,
            now,
            id,
            spec.get(),
        ),
        EventKind::DisableAutoscale(id) => disable_autoscale(alloc, tables, now, id),
        EventKind::EvaluateAutoscale(id, formula) => {
            evaluate_autoscale(alloc, indexed, now, id, formula.as_str())
        }
        _ => unreachable!(),
    }
}

/// The plan of the first due step of pools; None exactly if no rule of theirs applies. In this order: the resize of a pool ends, by which
/// a pool that is being deleted and has no nodes is dropped, and another is steady once it has as many nodes as its target, its timeout
/// is over, or its resize was stopped (U11); the formula of a steady pool is evaluated (U12); and a node leaves a resizing pool with more
/// nodes than its target (U13). The only error is out of memory.
pub fn next_due(alloc: Global, indexed: &IndexedTables) -> Result<Option<Plan>, NoMemory>
    requires sample { CanSample indexed.now.state }
    requires naming { RunsNameTheirs indexed.now.state }
    ensures { IfOk result (IsRule (pool_step indexed.now.state) indexed.now.state) }
{
    if let Some(plan) = end_resize(alloc, indexed.tables())? {
        return Ok(Some(plan));
    }
    if let Some(plan) = scale_first(alloc, indexed)? {
        return Ok(Some(plan));
    }
    remove_node(alloc, indexed)
}
