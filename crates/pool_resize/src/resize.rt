//! U11, the due step that ends a resize: a pool that is being deleted and has no nodes is dropped, and another is steady once it has as
//! many nodes as its target, its timeout is over, or its resize was stopped.
ghost use Rattle.std.specs.Prelude.{◌≡◌, ◌+◌, nat_le, IfOk, Some, find};
ghost use Rattle.std.specs.Option.{option_copied};
ghost use Rattle.bt_rows.specs.declared.reply.Reply.TheVariants.{Step};
ghost use Rattle.batch_model.specs.Dues.{end_resize, ends_resize, has_reached, has_timed_out, is_gone, is_to_stop, pool_steady, pool_stopped, pool_timed_out, resize_ended, steady, steady_for};
ghost use Rattle.batch_model.specs.Pools.{has_node};
ghost use Rattle.batch_model.specs.Rows.{pool_of, put_pool};
ghost use Rattle.batch_model.specs.WellFormed.{KeysAreDistinct};
ghost use Rattle.machine_plans.specs.Plans.{IsPlanOf, IsRule, answer_of_step};

use crate::removal::pool_dropped;
use bt_base::{Duplicate, Id, NoMemory, Shared};
use bt_rows::due::{Due, ResizeEnd};
use bt_rows::plan::Plan;
use bt_rows::pool::{Alloc, PoolRow, ResizeError};
use bt_rows::tables::{Change, Tables};
use machine_plans::step_one;
use std::alloc::Global;
use table_scans::{has_leaving, is_in_pool, is_resizing, staying_count};

/// Whether the pool has a node.
fn has_node(tables: &Tables, pool: &Id) -> bool
    ensures { result ≡ has_node tables.now.state pool.now }
{
    tables.nodes().any(|node| is_in_pool(pool, node))
}

/// Whether the pool is being deleted, and has no nodes.
fn is_gone(tables: &Tables, pool: &PoolRow) -> bool
    ensures { result ≡ is_gone tables.now.state pool.now }
{
    pool.deleting && !has_node(tables, &pool.id)
}

/// Whether the pool resizes and has as many nodes as its target, none of them leaving.
fn has_reached(tables: &Tables, pool: &PoolRow) -> bool
    ensures { result ≡ has_reached tables.now.state pool.now }
{
    !pool.deleting
        && is_resizing(pool.alloc)
        && !has_leaving(tables, &pool.id)
        && staying_count(tables, &pool.id) == pool.dedicated as usize
}

/// Whether `timeout` milliseconds have passed since `began`.
fn is_out(began: u64, timeout: u64, now: u64) -> bool
    ensures { result ≡ nat_le (began + timeout) now }
{
    timeout <= now && began <= now - timeout
}

/// Whether the pool resizes and its timeout is over.
fn has_timed_out(tables: &Tables, pool: &PoolRow) -> bool
    ensures { result ≡ has_timed_out tables.now.state pool.now }
{
    !pool.deleting && is_resizing(pool.alloc) && is_out(pool.began, pool.timeout, tables.moment())
}

/// Whether the pool's resize is being stopped.
fn is_to_stop(pool: &PoolRow) -> bool
    ensures { result ≡ is_to_stop pool.now }
{
    !pool.deleting && pool.alloc == Alloc::Stopping
}

/// Whether the pool's resize is to end.
fn ends_resize(tables: &Tables, pool: &PoolRow) -> bool
    ensures { result ≡ ends_resize tables.now.state pool.now }
{
    is_gone(tables, pool)
        || has_reached(tables, pool)
        || has_timed_out(tables, pool)
        || is_to_stop(pool)
}

/// The first pool whose resize is to end.
fn first_ending<'a>(tables: &'a Tables) -> Option<&'a PoolRow>
    ensures { option_copied result ≡ find (ends_resize tables.now.state) tables.now.state.pools }
{
    tables.pools().find(|pool| ends_resize(tables, pool))
}

/// The plan of a due step that puts a pool in the place of the one that is there.
fn step_pool(
    alloc: Global,
    tables: &Tables,
    due: Due,
    pool: &PoolRow,
    row: Shared<PoolRow>,
) -> Result<Plan, NoMemory>
    requires keys { KeysAreDistinct tables.now.state }
    requires there { pool_of tables.now.state pool.now.id ≡ Some pool.now }
    requires same { row.id ≡ pool.now.id }
    ensures { IfOk result (IsPlanOf (record { reply = Step due; state = put_pool row tables.now.state }) tables.now.state) }
{
    step_one(alloc, due, Change::PutPool(row))
}

/// The pool, steady.
fn steady(pool: &PoolRow) -> Result<PoolRow, NoMemory>
    ensures { IfOk result (λ row. row ≡ steady pool.now) }
{
    let mut row = pool.copy()?;
    row.alloc = Alloc::Steady;
    Ok(row)
}

/// The plan that makes the pool steady.
fn pool_steady(alloc: Global, tables: &Tables, pool: &PoolRow) -> Result<Plan, NoMemory>
    requires keys { KeysAreDistinct tables.now.state }
    requires there { pool_of tables.now.state pool.now.id ≡ Some pool.now }
    ensures { IfOk result (IsPlanOf (answer_of_step (pool_steady tables.now.state pool.now)) tables.now.state) }
{
    let due = Due::PoolResized(pool.id.copy()?, ResizeEnd::Reached);
    let row = Shared::new(alloc, steady(pool)?)?;
    step_pool(alloc, tables, due, pool, row)
}

/// The pool, steady, with the reason why its resize ended before its target was reached.
fn steady_for(why: ResizeError, pool: &PoolRow) -> Result<PoolRow, NoMemory>
    ensures { IfOk result (λ row. row ≡ steady_for why pool.now) }
{
    let mut row = steady(pool)?;
    row.error = Some(why);
    Ok(row)
}

/// The plan that makes the pool steady because its timeout is over.
fn pool_timed_out(alloc: Global, tables: &Tables, pool: &PoolRow) -> Result<Plan, NoMemory>
    requires keys { KeysAreDistinct tables.now.state }
    requires there { pool_of tables.now.state pool.now.id ≡ Some pool.now }
    ensures { IfOk result (IsPlanOf (answer_of_step (pool_timed_out tables.now.state pool.now)) tables.now.state) }
{
    let due = Due::PoolResized(pool.id.copy()?, ResizeEnd::TimedOut);
    let row = Shared::new(alloc, steady_for(ResizeError::AllocationTimedOut, pool)?)?;
    step_pool(alloc, tables, due, pool, row)
}

/// The plan that makes the pool steady because its resize was stopped.
fn pool_stopped(alloc: Global, tables: &Tables, pool: &PoolRow) -> Result<Plan, NoMemory>
    requires keys { KeysAreDistinct tables.now.state }
    requires there { pool_of tables.now.state pool.now.id ≡ Some pool.now }
    ensures { IfOk result (IsPlanOf (answer_of_step (pool_stopped tables.now.state pool.now)) tables.now.state) }
{
    let due = Due::PoolResized(pool.id.copy()?, ResizeEnd::Stopped);
    let row = Shared::new(alloc, steady_for(ResizeError::ResizeStopped, pool)?)?;
    step_pool(alloc, tables, due, pool, row)
}

/// The plan that ends the pool's resize, in the first of these ways that there is.
fn resize_ended(alloc: Global, tables: &Tables, pool: &PoolRow) -> Result<Plan, NoMemory>
    requires keys { KeysAreDistinct tables.now.state }
    requires there { pool_of tables.now.state pool.now.id ≡ Some pool.now }
    ensures { IfOk result (IsPlanOf (answer_of_step (resize_ended tables.now.state pool.now)) tables.now.state) }
{
    if is_gone(tables, pool) {
        pool_dropped(alloc, tables, pool)
    } else if has_reached(tables, pool) {
        pool_steady(alloc, tables, pool)
    } else if has_timed_out(tables, pool) {
        pool_timed_out(alloc, tables, pool)
    } else {
        pool_stopped(alloc, tables, pool)
    }
}

/// The plan that ends the first resize that is to end; None if there is none.
pub fn end_resize(alloc: Global, tables: &Tables) -> Result<Option<Plan>, NoMemory>
    requires { KeysAreDistinct tables.now.state }
    ensures { IfOk result (IsRule (end_resize tables.now.state) tables.now.state) }
{
    match first_ending(tables) {
        None => Ok(None),
        Some(pool) => Ok(Some(resize_ended(alloc, tables, pool)?)),
    }
}
