//! U14, the due step that drops a node: one that is leaving, without unended runs and held slots. A node that leaves by retained data
//! waits until the retention times of the tasks that ran there are over.
ghost use Rattle.std.specs.Prelude.{◌≡◌, ◌&&◌, ◌++◌, not, nat_eq, Some, IfOk, OnOk, find};
ghost use Rattle.std.specs.List.{list_any};
ghost use Rattle.std.specs.Option.{option_copied};
ghost use Rattle.batch_model.specs.Dues.{drop_first, has_retained, is_empty_node, is_retained, is_retained_by, is_unended_on, keeps_data, node_dropped};
ghost use Rattle.batch_model.specs.Finding.{has_passed};
ghost use Rattle.batch_model.specs.Runs.{is_ended};
ghost use Rattle.batch_model.specs.Slots.{held_slots};
ghost use Rattle.batch_model.specs.WellFormed.{KeysAreDistinct};
ghost use Rattle.machine_plans.specs.Plans.{IsPlanOf, IsRule, answer_of_step};
ghost use Rattle.row_changes.specs.Puts.{changes_where, prep_drop};
ghost use Rattle.node_machine.specs.Drops.{drop_changes, is_prep_on};

use crate::taking::find_task_of;
use bt_base::{Duplicate, List, NoMemory};
use bt_rows::due::Due;
use bt_rows::node::{NodeRow, NodeStage};
use bt_rows::plan::Plan;
use bt_rows::pool::Dealloc;
use bt_rows::prep::{PrepKey, PrepRow};
use bt_rows::reply::Reply;
use bt_rows::run::{RunRow, RunState};
use bt_rows::tables::{Change, Tables};
use bt_rows::task::TaskRow;
use machine_index::IndexedTables;
use std::alloc::Global;
use table_scans::{has_passed, is_unended};

/// Whether a run on the node has not ended.
fn has_unended(indexed: &IndexedTables, node: u64) -> bool
    ensures { result ≡ list_any (is_unended_on node) indexed.now.state.runs }
{
    indexed
        .runs_on(node)
        .any(|run| run.node == node && is_unended(run.state))
}

/// Whether no run on the node is unended, and none holds slots of it.
fn is_at_rest(indexed: &IndexedTables, node: u64) -> bool
    ensures { result ≡ (not (list_any (is_unended_on node) indexed.now.state.runs) && nat_eq (held_slots indexed.now.state node) 0) }
{
    !has_unended(indexed, node) && indexed.held(node) == 0
}

/// Whether the task's retention time is not over since `at`, in milliseconds since 1970.
fn retains(now: u64, at: u64, task: &TaskRow) -> bool
    ensures { result ≡ not (has_passed at task.now.retention now) }
{
    !has_passed(at, task.settings.retention(), now)
}

/// Whether the task of the run, which ended at `at`, in milliseconds since 1970, has a row and retains it.
fn is_retained_since(tables: &Tables, run: &RunRow, at: u64) -> bool
    requires { KeysAreDistinct tables.now.state }
    ensures { result ≡ list_any (is_retained_by tables.now.state.moment run.now at) tables.now.state.tasks }
{
    match find_task_of(tables, run) {
        None => false,
        Some(task) => retains(tables.moment(), at, task),
    }
}

/// Whether the run has ended, and not been withdrawn.
fn is_ended(state: RunState) -> bool
    ensures { result ≡ is_ended state }
{
    matches!(state, RunState::Ended(_))
}

/// Whether the run has ended, and its task retains it.
fn is_retained(tables: &Tables, run: &RunRow) -> bool
    requires { KeysAreDistinct tables.now.state }
    ensures { result ≡ is_retained tables.now.state run.now }
{
    if !is_ended(run.state) {
        return false;
    }
    match run.ended {
        None => false,
        Some(at) => is_retained_since(tables, run, at),
    }
}

/// Whether a run on the node is retained by its task.
fn has_retained(indexed: &IndexedTables, node: u64) -> bool
    requires { KeysAreDistinct indexed.now.state }
    ensures { result ≡ has_retained indexed.now.state node }
{
    let tables = indexed.tables();
    indexed
        .runs_on(node)
        .any(|run| run.node == node && is_retained(tables, run))
}

/// Whether a node that leaves by the option waits until the data of tasks are no longer kept.
fn keeps_data(option: Dealloc) -> bool
    ensures { result ≡ keeps_data option }
{
    option == Dealloc::RetainedData
}

/// Whether the node is to be dropped. Only a leaving node costs a look at the runs on it.
fn is_empty_node(indexed: &IndexedTables, node: &NodeRow) -> bool
    requires { KeysAreDistinct indexed.now.state }
    ensures { result ≡ is_empty_node indexed.now.state node.now }
{
    match node.stage {
        NodeStage::Leaving(option) => is_at_rest(indexed, node.number)
            && !(keeps_data(option) && has_retained(indexed, node.number)),
        NodeStage::Starting | NodeStage::Usable | NodeStage::StartFailed => false,
    }
}

/// The first such node.
fn first_empty<'a>(indexed: &'a IndexedTables) -> Option<&'a NodeRow>
    requires { KeysAreDistinct indexed.now.state }
    ensures { option_copied result ≡ find (is_empty_node indexed.now.state) indexed.now.state.nodes }
{
    indexed
        .tables()
        .nodes()
        .find(|node| is_empty_node(indexed, node))
}

/// The drop of a preparation.
fn prep_drop(prep: &PrepRow) -> Result<Change, NoMemory>
    ensures { IfOk result (λ change. change ≡ prep_drop prep.now) }
{
    Ok(Change::DropPrep(PrepKey {
        job: prep.job.copy()?,
        node: prep.node,
    }))
}

/// Adds the drops of the preparations on the node.
fn drop_preps(changes: &mut Vec<Change>, tables: &Tables, node: u64) -> Result<(), NoMemory>
    ensures { OnOk result (changes.new.items ≡ changes.old.items ++ changes_where prep_drop (is_prep_on node) tables.now.state.preps) }
{
    for prep in tables.preps() {
        if prep.node == node {
            changes.push(prep_drop(prep)?)?;
        }
    }
    Ok(())
}

/// The changes that drop the node with this number.
fn drop_changes(alloc: Global, tables: &Tables, node: u64) -> Result<Vec<Change>, NoMemory>
    ensures { IfOk result (λ changes. changes.items ≡ drop_changes node tables.now.state) }
{
    let mut changes = vec![in alloc; Change::DropNode(node)]?;
    drop_preps(&mut changes, tables, node)?;
    Ok(changes)
}

/// The plan that drops the node, with the preparations on it.
fn node_dropped(alloc: Global, tables: &Tables, node: &NodeRow) -> Result<Plan, NoMemory>
    requires { KeysAreDistinct tables.now.state }
    ensures { IfOk result (IsPlanOf (answer_of_step (node_dropped tables.now.state node.now)) tables.now.state) }
{
    let changes = drop_changes(alloc, tables, node.number)?;
    Ok(Plan {
        reply: Reply::Step(Due::NodeDropped(node.number)),
        changes: List::of_vec(changes),
    })
}

/// The plan that drops the first leaving node that has nothing to wait for; None if there is none.
pub fn drop_first(alloc: Global, indexed: &IndexedTables) -> Result<Option<Plan>, NoMemory>
    requires { KeysAreDistinct indexed.now.state }
    ensures { IfOk result (IsRule (drop_first indexed.now.state) indexed.now.state) }
{
    match first_empty(indexed) {
        None => Ok(None),
        Some(node) => Ok(Some(node_dropped(alloc, indexed.tables(), node)?)),
    }
}
