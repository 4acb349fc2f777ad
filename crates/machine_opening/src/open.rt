//! The opening of tables that an earlier run left: nothing runs, and no node is there.
ghost use Rattle.std.specs.Prelude.{◌≡◌, [], ◌++◌, IfOk, OnOk};
ghost use Rattle.bt_rows.specs.Changes.{apply_changes};
ghost use Rattle.batch_model.specs.Opening.{opening, is_refilled, refilled, is_emptied, emptied, is_cut_short, requeued, withdrawn};
ghost use Rattle.batch_model.specs.WellFormed.{IsWellFormed};
ghost use Rattle.row_changes.specs.Puts.{key_of_prep};
ghost use Rattle.machine_opening.specs.Openings.{is_fresh, opened_pool, opened_task, opened_run, pool_puts, task_puts, run_puts, node_drops, prep_drops, with_opening};

use bt_base::{Duplicate, List, NoMemory};
use bt_rows::pool::{Alloc, PoolRow};
use bt_rows::prep::{PrepKey, PrepRow};
use bt_rows::run::{RunRow, RunState};
use bt_rows::tables::{Change, Tables};
use bt_rows::task::{TaskRow, Want};
use std::alloc::Global;
use table_scans::{is_placed, is_unended, main_ending};

/// Whether the pool is not being deleted, and has a target.
fn is_refilled(pool: &PoolRow) -> bool
    ensures { result ≡ is_refilled pool.now }
{
    !pool.deleting && pool.dedicated != 0
}

/// Whether the pool stops a resize to nothing.
fn is_emptied(pool: &PoolRow) -> bool
    ensures { result ≡ is_emptied pool.now }
{
    pool.alloc == Alloc::Stopping && pool.dedicated == 0
}

/// Whether the pool resizes from this moment already, with its usual timeout and no error.
fn is_fresh(now: u64, pool: &PoolRow) -> bool
    ensures { result ≡ is_fresh now pool.now }
{
    pool.alloc == Alloc::Resizing
        && pool.began == now
        && pool.timeout == pool.usual_timeout
        && pool.error.is_none()
}

/// The pool, which resizes from this moment with its usual timeout.
fn refilled(now: u64, pool: &PoolRow) -> Result<PoolRow, NoMemory>
    ensures { IfOk result (λ row. row ≡ refilled now pool.now) }
{
    let mut row = pool.copy()?;
    row.alloc = Alloc::Resizing;
    row.began = now;
    row.timeout = pool.usual_timeout;
    row.error = None;
    Ok(row)
}

/// The pool, steady.
fn emptied(pool: &PoolRow) -> Result<PoolRow, NoMemory>
    ensures { IfOk result (λ row. row ≡ emptied pool.now) }
{
    let mut row = pool.copy()?;
    row.alloc = Alloc::Steady;
    Ok(row)
}

/// The pool after the opening, if that changes it.
fn opened_pool(now: u64, pool: &PoolRow) -> Result<Option<PoolRow>, NoMemory>
    ensures { IfOk result (λ row. row ≡ opened_pool now pool.now) }
{
    if is_refilled(pool) {
        if is_fresh(now, pool) {
            Ok(None)
        } else {
            Ok(Some(refilled(now, pool)?))
        }
    } else if is_emptied(pool) {
        Ok(Some(emptied(pool)?))
    } else {
        Ok(None)
    }
}

/// Whether the task is placed, no end of it is wanted, no ending counts in place of its main command's, and that command's run has not ended.
fn is_cut_short(tables: &Tables, task: &TaskRow) -> bool
    ensures { result ≡ is_cut_short tables.now.state task.now }
{
    is_placed(task.stage)
        && task.wanted.is_none()
        && task.fail.is_none()
        && main_ending(tables, task).is_none()
}

/// The task, whose requeue is wanted.
fn requeued(task: &TaskRow) -> Result<TaskRow, NoMemory>
    ensures { IfOk result (λ row. row ≡ requeued task.now) }
{
    let mut row = task.copy()?;
    row.wanted = Some(Want::Requeue);
    Ok(row)
}

/// The task after the opening, if that changes it.
fn opened_task(tables: &Tables, task: &TaskRow) -> Result<Option<TaskRow>, NoMemory>
    ensures { IfOk result (λ row. row ≡ opened_task tables.now.state task.now) }
{
    if is_cut_short(tables, task) {
        Ok(Some(requeued(task)?))
    } else {
        Ok(None)
    }
}

/// The run, withdrawn at this moment.
fn withdrawn(now: u64, run: &RunRow) -> Result<RunRow, NoMemory>
    ensures { IfOk result (λ row. row ≡ withdrawn now run.now) }
{
    let mut row = run.copy()?;
    row.state = RunState::Withdrawn;
    row.ended = Some(now);
    Ok(row)
}

/// The run after the opening, if that changes it.
fn opened_run(now: u64, run: &RunRow) -> Result<Option<RunRow>, NoMemory>
    ensures { IfOk result (λ row. row ≡ opened_run now run.now) }
{
    if is_unended(run.state) {
        Ok(Some(withdrawn(now, run)?))
    } else {
        Ok(None)
    }
}

/// Adds the puts of pools.
fn put_pools(changes: &mut Vec<Change>, tables: &Tables) -> Result<(), NoMemory>
    ensures { OnOk result (changes.new.items ≡ changes.old.items ++ pool_puts tables.now.state) }
{
    let alloc = *changes.allocator();
    for pool in tables.pools() {
        if let Some(row) = opened_pool(tables.moment(), pool)? {
            changes.push(Change::put_pool(alloc, row)?)?;
        }
    }
    Ok(())
}

/// Adds the puts of tasks.
fn put_tasks(changes: &mut Vec<Change>, tables: &Tables) -> Result<(), NoMemory>
    ensures { OnOk result (changes.new.items ≡ changes.old.items ++ task_puts tables.now.state) }
{
    let alloc = *changes.allocator();
    for task in tables.tasks() {
        if let Some(row) = opened_task(tables, task)? {
            changes.push(Change::put_task(alloc, row)?)?;
        }
    }
    Ok(())
}

/// Adds the puts of runs.
fn put_runs(changes: &mut Vec<Change>, tables: &Tables) -> Result<(), NoMemory>
    ensures { OnOk result (changes.new.items ≡ changes.old.items ++ run_puts tables.now.state) }
{
    let alloc = *changes.allocator();
    for run in tables.runs() {
        if let Some(row) = opened_run(tables.moment(), run)? {
            changes.push(Change::put_run(alloc, row)?)?;
        }
    }
    Ok(())
}

/// Adds the drops of nodes.
fn drop_nodes(changes: &mut Vec<Change>, tables: &Tables) -> Result<(), NoMemory>
    ensures { OnOk result (changes.new.items ≡ changes.old.items ++ node_drops tables.now.state) }
{
    for node in tables.nodes() {
        changes.push(Change::DropNode(node.number))?;
    }
    Ok(())
}

/// The key of a preparation.
fn key_of_prep(prep: &PrepRow) -> Result<PrepKey, NoMemory>
    ensures { IfOk result (λ key. key ≡ key_of_prep prep.now) }
{
    Ok(PrepKey {
        job: prep.job.copy()?,
        node: prep.node,
    })
}

/// Adds the drops of preparations.
fn drop_preps(changes: &mut Vec<Change>, tables: &Tables) -> Result<(), NoMemory>
    ensures { OnOk result (changes.new.items ≡ changes.old.items ++ prep_drops tables.now.state) }
{
    for prep in tables.preps() {
        changes.push(Change::DropPrep(key_of_prep(prep)?))?;
    }
    Ok(())
}

/// Adds all changes of the opening.
fn add_opening(changes: &mut Vec<Change>, tables: &Tables) -> Result<(), NoMemory>
    ensures { OnOk result (changes.new.items ≡ with_opening tables.now.state changes.old.items) }
{
    put_pools(changes, tables)?;
    put_tasks(changes, tables)?;
    put_runs(changes, tables)?;
    drop_nodes(changes, tables)?;
    drop_preps(changes, tables)
}

/// The changes of the opening: a put for each pool, task and run that it changes, and a drop for each node and preparation.
/// There are none if it leaves the tables as they are. The only error is out of memory.
pub fn opening_changes(alloc: Global, tables: &Tables) -> Result<List<Change>, NoMemory>
    requires { IsWellFormed tables.now.state }
    ensures state { IfOk result (λ changes. apply_changes changes tables.now.state ≡ opening tables.now.state) }
    ensures none { opening tables.now.state ≡ tables.now.state → IfOk result (λ changes. changes ≡ []) }
{
    let mut changes = Vec::new(alloc);
    add_opening(&mut changes, tables)?;
    Ok(List::of_vec(changes))
}
