//! Nodes that leave, by one of the options.
ghost use Rattle.std.specs.Prelude.{◌≡◌, ◌++◌, IfOk, OnOk};
ghost use Rattle.bt_rows.specs.Changes.{apply_changes};
ghost use Rattle.bt_rows.specs.declared.tables.Change.TheVariants.{PutNode, PutRun};
ghost use Rattle.batch_model.specs.Leaving.{is_on, leave, leaving_by};
ghost use Rattle.batch_model.specs.Sound.{RunsNameTheirs};
ghost use Rattle.batch_model.specs.WellFormed.{KeysAreDistinct};
ghost use Rattle.machine_plans.specs.Plans.{with_moment};
ghost use Rattle.node_stops.specs.LeaveChanges.{clear_changes, clear_changes_for, halted_start, is_halted_start, left_node};
ghost use Rattle.row_changes.specs.Puts.{puts_of};
ghost use Rattle.task_stops.specs.LeaveTests.{leaves};

use bt_base::{Dealloc, Duplicate, NoMemory};
use bt_rows::node::{NodeRow, NodeStage};
use bt_rows::run::{RunKind, RunRow};
use bt_rows::tables::{Change, Tables};
use bt_rows::task::Want;
use std::alloc::Global;
use table_scans::is_unended;
use task_stops::{LeavingNodes, halted, is_on, leaves, push_halt_on, push_stop_on};

/// The node, which leaves by the option.
fn leaving_by(option: Dealloc, node: &NodeRow) -> Result<NodeRow, NoMemory>
    ensures { IfOk result (λ row. row ≡ leaving_by option node.now) }
{
    let mut row = node.copy()?;
    row.stage = NodeStage::Leaving(option);
    Ok(row)
}

/// The node, which leaves by the option, if it is among these.
fn left_node(
    option: Dealloc,
    which: &LeavingNodes,
    node: &NodeRow,
) -> Result<Option<NodeRow>, NoMemory>
    ensures { IfOk result (λ row. row ≡ left_node option (leaves which.now) node.now) }
{
    if leaves(which, node) {
        Ok(Some(leaving_by(option, node)?))
    } else {
        Ok(None)
    }
}

/// Whether the run is an unended start run on a node among these.
fn is_halted_start(tables: &Tables, which: &LeavingNodes, run: &RunRow) -> bool
    ensures { result ≡ is_halted_start (leaves which.now) tables.now.state run.now }
{
    run.kind == RunKind::Start && is_unended(run.state) && is_on(tables, which, run)
}

/// The run after it is halted at `now`, if it is an unended start run on a node among these.
fn halted_start(
    tables: &Tables,
    now: u64,
    which: &LeavingNodes,
    run: &RunRow,
) -> Result<Option<RunRow>, NoMemory>
    ensures { IfOk result (λ row. row ≡ halted_start (leaves which.now) now tables.now.state run.now) }
{
    if is_halted_start(tables, which, run) {
        Ok(Some(halted(now, run)?))
    } else {
        Ok(None)
    }
}

/// Adds the puts of the nodes that leave.
fn push_left(
    changes: &mut Vec<Change>,
    tables: &Tables,
    option: Dealloc,
    which: &LeavingNodes,
) -> Result<(), NoMemory>
    ensures { OnOk result (changes.new.items ≡ changes.old.items ++ puts_of PutNode (left_node option (leaves which.now)) tables.now.state.nodes) }
{
    let alloc = *changes.allocator();
    for node in tables.nodes() {
        if let Some(row) = left_node(option, which, node)? {
            changes.push(Change::put_node(alloc, row)?)?;
        }
    }
    Ok(())
}

/// Adds the puts of the start runs that are halted.
fn push_starts(
    changes: &mut Vec<Change>,
    tables: &Tables,
    now: u64,
    which: &LeavingNodes,
) -> Result<(), NoMemory>
    ensures { OnOk result (changes.new.items ≡ changes.old.items ++ puts_of PutRun (halted_start (leaves which.now) now tables.now.state) tables.now.state.runs) }
{
    let alloc = *changes.allocator();
    for run in tables.runs() {
        if let Some(row) = halted_start(tables, now, which, run)? {
            changes.push(Change::put_run(alloc, row)?)?;
        }
    }
    Ok(())
}

/// Adds the changes that stop the tasks that run on these nodes, of which this end is wanted, and halt the preparations there.
fn push_clear(
    changes: &mut Vec<Change>,
    tables: &Tables,
    now: u64,
    want: Want,
    which: &LeavingNodes,
) -> Result<(), NoMemory>
    requires { KeysAreDistinct tables.now.state }
    ensures { OnOk result (changes.new.items ≡ changes.old.items ++ clear_changes want (is_on (leaves which.now) tables.now.state) now tables.now.state) }
{
    push_stop_on(changes, tables, now, want, which)?;
    push_halt_on(changes, tables, now, which)
}

/// Adds the changes that stop what runs on these nodes as the option says; by task completion and by retained data it goes on.
fn push_clear_for(
    changes: &mut Vec<Change>,
    tables: &Tables,
    now: u64,
    option: Dealloc,
    which: &LeavingNodes,
) -> Result<(), NoMemory>
    requires { KeysAreDistinct tables.now.state }
    ensures { OnOk result (changes.new.items ≡ changes.old.items ++ clear_changes_for option (is_on (leaves which.now) tables.now.state) now tables.now.state) }
{
    match option {
        Dealloc::Requeue => push_clear(changes, tables, now, Want::Requeue, which),
        Dealloc::Terminate => push_clear(changes, tables, now, Want::Terminate, which),
        Dealloc::TaskCompletion | Dealloc::RetainedData => Ok(()),
    }
}

/// The changes by which these nodes leave at `now`, in milliseconds since 1970, by the option: their start runs are halted, and by
/// requeue and by terminate the tasks that run there are stopped and the preparations there are halted. The only error is out of memory.
///
/// Source: Azure Batch REST reference, `ComputeNodeDeallocationOption`.
pub fn leave(
    alloc: Global,
    tables: &Tables,
    now: u64,
    option: Dealloc,
    which: &LeavingNodes,
) -> Result<Vec<Change>, NoMemory>
    requires keys { KeysAreDistinct tables.now.state }
    requires naming { RunsNameTheirs tables.now.state }
    ensures { IfOk result (λ changes. apply_changes changes.items (with_moment now tables.now.state) ≡ leave option (leaves which.now) (with_moment now tables.now.state)) }
{
    let mut changes = Vec::new(alloc);
    push_left(&mut changes, tables, option, which)?;
    push_starts(&mut changes, tables, now, which)?;
    push_clear_for(&mut changes, tables, now, option, which)?;
    Ok(changes)
}
