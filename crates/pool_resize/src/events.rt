//! Events that resize a pool, stop that, and delete a pool: `resize`, `stop-resize` and `delete-pool`.
ghost use Rattle.std.specs.Prelude.{◌≡◌, ◌++◌, Some, IfOk, OnOk};
ghost use Rattle.std.specs.Option.{option_copied};
ghost use Rattle.bt_rows.specs.Changes.{apply_changes};
ghost use Rattle.bt_rows.specs.declared.refusal.Refusal.TheVariants.{PoolNotFound};
ghost use Rattle.batch_model.specs.Answers.{accept, for_row};
ghost use Rattle.batch_model.specs.PoolEvents.{delete_pool, deleted_pool, pool_deleted, resize_pool, resized_pool, stop_resize, stopping};
ghost use Rattle.batch_model.specs.Rows.{pool_of, put_pool};
ghost use Rattle.batch_model.specs.Sound.{RunsNameTheirs};
ghost use Rattle.batch_model.specs.WellFormed.{KeysAreDistinct};
ghost use Rattle.machine_plans.specs.Plans.{IsAnswer, IsPlanOf, with_moment};
ghost use Rattle.row_changes.specs.Puts.{changes_where, scale_drop};
ghost use Rattle.pool_resize.specs.Changes.{deletion, is_scale_of};

use bt_base::{Duplicate, Fail, Id, NoMemory, Shared};
use bt_rows::event::ResizeSpec;
use bt_rows::plan::Plan;
use bt_rows::pool::{Alloc, Dealloc, PoolRow};
use bt_rows::refusal::Refusal;
use bt_rows::tables::{Change, Tables};
use machine_plans::{accept_listed, accept_one};
use node_stops::{LeavingNodes, leave};
use pool_scaling::{is_steady, scales};
use std::alloc::Global;
use table_scans::is_resizing;

/// The plan that puts a pool in the place of the one that is there.
fn put_pool(
    alloc: Global,
    tables: &Tables,
    now: u64,
    pool: &PoolRow,
    row: Shared<PoolRow>,
) -> Result<Plan, NoMemory>
    requires keys { KeysAreDistinct tables.now.state }
    requires there { pool_of tables.now.state pool.now.id ≡ Some pool.now }
    requires same { row.id ≡ pool.now.id }
    ensures { IfOk result (IsPlanOf (accept 202 (put_pool row (with_moment now tables.now.state))) tables.now.state) }
{
    accept_one(alloc, tables, now, 202, Change::PutPool(row))
}

/// The pool, which resizes from `now`, in milliseconds since 1970. Targets that are not given stay.
fn resized_pool(now: u64, spec: &ResizeSpec, pool: &PoolRow) -> Result<PoolRow, NoMemory>
    ensures { IfOk result (λ row. row ≡ resized_pool now spec.now pool.now) }
{
    let mut row = pool.copy()?;
    row.dedicated = spec.dedicated.unwrap_or(pool.dedicated);
    row.low = spec.low.unwrap_or(pool.low);
    row.option = spec.option;
    row.alloc = Alloc::Resizing;
    row.began = now;
    row.timeout = spec.timeout;
    row.error = None;
    Ok(row)
}

/// The answer to `resize` of the pool that was found. Only a steady pool that does not scale automatically is resized.
fn resize_found(
    alloc: Global,
    tables: &Tables,
    now: u64,
    spec: &ResizeSpec,
    pool: &PoolRow,
) -> Result<Plan, Fail<Refusal>>
    requires keys { KeysAreDistinct tables.now.state }
    requires there { pool_of tables.now.state pool.now.id ≡ Some pool.now }
    ensures { IsAnswer now (resize_pool (with_moment now tables.now.state) spec.now pool.now) tables.now.state result }
{
    if pool.deleting {
        return Err(Fail::Why(Refusal::PoolBeingDeleted));
    }
    if scales(tables, &pool.id) {
        return Err(Fail::Why(Refusal::PoolScalesAutomatically));
    }
    if !is_steady(pool.alloc) {
        return Err(Fail::Why(Refusal::PoolBeingResized));
    }
    let row = Shared::new(alloc, resized_pool(now, spec, pool)?)?;
    Ok(put_pool(alloc, tables, now, pool, row)?)
}

/// The answer to `resize`.
pub fn resize_pool(
    alloc: Global,
    tables: &Tables,
    now: u64,
    id: &Id,
    spec: &ResizeSpec,
) -> Result<Plan, Fail<Refusal>>
    requires { KeysAreDistinct tables.now.state }
    ensures { IsAnswer now (for_row (with_moment now tables.now.state) PoolNotFound (resize_pool (with_moment now tables.now.state) spec.now) (pool_of (with_moment now tables.now.state) id.now)) tables.now.state result }
{
    match tables.find_pool(id) {
        Some(pool) => resize_found(alloc, tables, now, spec, pool),
        None => Err(Fail::Why(Refusal::PoolNotFound)),
    }
}

/// The pool, whose resize is being stopped.
fn stopping(pool: &PoolRow) -> Result<PoolRow, NoMemory>
    ensures { IfOk result (λ row. row ≡ stopping pool.now) }
{
    let mut row = pool.copy()?;
    row.alloc = Alloc::Stopping;
    Ok(row)
}

/// The answer to `stop-resize` of the pool that was found. Only a resizing pool is stopped.
fn stop_found(
    alloc: Global,
    tables: &Tables,
    now: u64,
    pool: &PoolRow,
) -> Result<Plan, Fail<Refusal>>
    requires keys { KeysAreDistinct tables.now.state }
    requires there { pool_of tables.now.state pool.now.id ≡ Some pool.now }
    ensures { IsAnswer now (stop_resize (with_moment now tables.now.state) pool.now) tables.now.state result }
{
    if pool.deleting {
        return Err(Fail::Why(Refusal::PoolBeingDeleted));
    }
    if !is_resizing(pool.alloc) {
        return Err(Fail::Why(Refusal::PoolNotResizing));
    }
    let row = Shared::new(alloc, stopping(pool)?)?;
    Ok(put_pool(alloc, tables, now, pool, row)?)
}

/// The answer to `stop-resize`.
pub fn stop_resize(alloc: Global, tables: &Tables, now: u64, id: &Id) -> Result<Plan, Fail<Refusal>>
    requires { KeysAreDistinct tables.now.state }
    ensures { IsAnswer now (for_row (with_moment now tables.now.state) PoolNotFound (stop_resize (with_moment now tables.now.state)) (pool_of (with_moment now tables.now.state) id.now)) tables.now.state result }
{
    match tables.find_pool(id) {
        Some(pool) => stop_found(alloc, tables, now, pool),
        None => Err(Fail::Why(Refusal::PoolNotFound)),
    }
}

/// The pool, which is being deleted: it resizes to no nodes, which leave by requeue.
fn deleted_pool(pool: &PoolRow) -> Result<PoolRow, NoMemory>
    ensures { IfOk result (λ row. row ≡ deleted_pool pool.now) }
{
    let mut row = pool.copy()?;
    row.deleting = true;
    row.alloc = Alloc::Resizing;
    row.dedicated = 0;
    row.low = 0;
    row.option = Dealloc::Requeue;
    Ok(row)
}

/// Adds the drop of the pool's scaling, if it scales automatically.
fn drop_scales(changes: &mut Vec<Change>, tables: &Tables, pool: &Id) -> Result<(), NoMemory>
    ensures { OnOk result (changes.new.items ≡ changes.old.items ++ changes_where scale_drop (is_scale_of pool.now) tables.now.state.scales) }
{
    for scale in tables.scales() {
        if scale.pool.same(pool) {
            changes.push(Change::DropScale(scale.pool.copy()?))?;
        }
    }
    Ok(())
}

/// Adds the put of the pool, which is being deleted, and the drop of its scaling.
fn push_deletion(changes: &mut Vec<Change>, tables: &Tables, pool: &PoolRow) -> Result<(), NoMemory>
    ensures { OnOk result (changes.new.items ≡ changes.old.items ++ deletion pool.now tables.now.state) }
{
    let alloc = *changes.allocator();
    changes.push(Change::put_pool(alloc, deleted_pool(pool)?)?)?;
    drop_scales(changes, tables, &pool.id)
}

/// The changes that delete the pool at `now`, in milliseconds since 1970: its nodes that are leaving leave by requeue, which does not
/// depend on rows of pools, and then the pool is being deleted and does not scale.
fn delete(alloc: Global, tables: &Tables, now: u64, pool: &PoolRow) -> Result<Vec<Change>, NoMemory>
    requires keys { KeysAreDistinct tables.now.state }
    requires naming { RunsNameTheirs tables.now.state }
    requires there { pool_of tables.now.state pool.now.id ≡ Some pool.now }
    ensures { IfOk result (λ changes. apply_changes changes.items (with_moment now tables.now.state) ≡ pool_deleted (with_moment now tables.now.state) pool.now) }
{
    let which = LeavingNodes::LeavingFrom(pool.id.copy()?);
    let mut changes = leave(alloc, tables, now, Dealloc::Requeue, &which)?;
    push_deletion(&mut changes, tables, pool)?;
    Ok(changes)
}

/// The answer to `delete-pool` of the pool that was found.
fn delete_found(
    alloc: Global,
    tables: &Tables,
    now: u64,
    pool: &PoolRow,
) -> Result<Plan, Fail<Refusal>>
    requires keys { KeysAreDistinct tables.now.state }
    requires naming { RunsNameTheirs tables.now.state }
    requires there { pool_of tables.now.state pool.now.id ≡ Some pool.now }
    ensures { IsAnswer now (delete_pool (with_moment now tables.now.state) pool.now) tables.now.state result }
{
    if pool.deleting {
        return Err(Fail::Why(Refusal::PoolBeingDeleted));
    }
    let changes = delete(alloc, tables, now, pool)?;
    Ok(accept_listed(alloc, tables, now, 202, changes)?)
}

/// The answer to `delete-pool`.
pub fn delete_pool(alloc: Global, tables: &Tables, now: u64, id: &Id) -> Result<Plan, Fail<Refusal>>
    requires keys { KeysAreDistinct tables.now.state }
    requires naming { RunsNameTheirs tables.now.state }
    ensures { IsAnswer now (for_row (with_moment now tables.now.state) PoolNotFound (delete_pool (with_moment now tables.now.state)) (pool_of (with_moment now tables.now.state) id.now)) tables.now.state result }
{
    match tables.find_pool(id) {
        Some(pool) => delete_found(alloc, tables, now, pool),
        None => Err(Fail::Why(Refusal::PoolNotFound)),
    }
}
