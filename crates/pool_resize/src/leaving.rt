//! U13, the due step by which a node leaves: of a resizing pool with more nodes than its target the one that holds the fewest slots, and
//! of several such the one with the highest number.
ghost use Rattle.std.specs.Prelude.{◌≡◌, ◌∷◌, List, IfOk, find};
ghost use Rattle.std.specs.Option.{option_copied};
ghost use Rattle.batch_model.specs.Dues.{has_too_many, leaves_before, node_leaves, one_leaves, remove_node};
ghost use Rattle.batch_model.specs.Finding.{best};
ghost use Rattle.batch_model.specs.Pools.{staying};
ghost use Rattle.batch_model.specs.Sound.{RunsNameTheirs};
ghost use Rattle.batch_model.specs.Variants.{NodeRow as NodeValue};
ghost use Rattle.batch_model.specs.WellFormed.{KeysAreDistinct};
ghost use Rattle.machine_plans.specs.Plans.{IsPlanOf, IsRule, answer_of_step};
ghost use Rattle.pool_resize.specs.LeavingFirst.{first_from, is_ahead};

use bt_base::{Id, List, NoMemory};
use bt_rows::due::Due;
use bt_rows::node::NodeRow;
use bt_rows::plan::Plan;
use bt_rows::pool::PoolRow;
use bt_rows::reply::Reply;
use bt_rows::tables::Tables;
use machine_index::IndexedTables;
use node_stops::{LeavingNodes, leave};
use std::alloc::Global;
use table_scans::{is_resizing, staying_count, stays};

/// Whether the pool resizes and has more nodes than its target.
fn has_too_many(tables: &Tables, pool: &PoolRow) -> bool
    ensures { result ≡ has_too_many tables.now.state pool.now }
{
    is_resizing(pool.alloc) && (pool.dedicated as usize) < staying_count(tables, &pool.id)
}

/// The first such pool.
fn first_with_too_many<'a>(tables: &'a Tables) -> Option<&'a PoolRow>
    ensures { option_copied result ≡ find (has_too_many tables.now.state) tables.now.state.pools }
{
    tables.pools().find(|pool| has_too_many(tables, pool))
}

/// Whether the node holds fewer slots than the other, or as many and has a higher number.
fn leaves_before(indexed: &IndexedTables, node: &NodeRow, other: &NodeRow) -> bool
    ensures { result ≡ leaves_before indexed.now.state node.now other.now }
{
    let held = indexed.held(node.number);
    let other_held = indexed.held(other.number);
    held < other_held || (held == other_held && other.number < node.number)
}

/// Whether the node leaves before the one so far, if there is one.
fn is_ahead(indexed: &IndexedTables, so_far: Option<&NodeRow>, node: &NodeRow) -> bool
    ensures { result ≡ is_ahead indexed.now.state (option_copied so_far.entry) node.now }
{
    match so_far {
        None => true,
        Some(other) => leaves_before(indexed, node, other),
    }
}

/// The node if it stays in the pool and leaves before the one so far, or else the one so far.
#[tactic(auto, using(crate::proofs::FirstToLeave::passed_over, crate::proofs::FirstToLeave::taken, crate::proofs::FirstToLeave::kept_back))]
fn ahead<'a>(
    indexed: &IndexedTables,
    pool: &Id,
    so_far: Option<&'a NodeRow>,
    node: &'a NodeRow,
) -> Option<&'a NodeRow>
    ensures { (rest : List NodeValue) → first_from indexed.now.state pool.now (option_copied result) rest ≡ first_from indexed.now.state pool.now (option_copied so_far.entry) (node.now ∷ rest) }
{
    if stays(pool, node) && is_ahead(indexed, so_far, node) {
        Some(node)
    } else {
        so_far
    }
}

/// The node of the pool that leaves before the others.
#[tactic(auto, using(crate::proofs::FirstToLeave::none_left))]
fn first_to_leave<'a>(indexed: &'a IndexedTables, pool: &Id) -> Option<&'a NodeRow>
    ensures { option_copied result ≡ best (leaves_before indexed.now.state) (staying indexed.now.state pool.now) }
{
    let mut first = None;
    for node in indexed.tables().nodes() {
        first = ahead(indexed, pool, first, node);
    }
    first
}

/// The plan by which the node leaves by the pool's option.
fn node_leaves(
    alloc: Global,
    tables: &Tables,
    pool: &PoolRow,
    node: &NodeRow,
) -> Result<Plan, NoMemory>
    requires keys { KeysAreDistinct tables.now.state }
    requires naming { RunsNameTheirs tables.now.state }
    ensures { IfOk result (IsPlanOf (answer_of_step (node_leaves tables.now.state pool.now node.now)) tables.now.state) }
{
    let which = LeavingNodes::One(node.number);
    let changes = leave(alloc, tables, tables.moment(), pool.option, &which)?;
    Ok(Plan {
        reply: Reply::Step(Due::NodeLeaves(node.number)),
        changes: List::of_vec(changes),
    })
}

/// The plan by which the node of the pool that leaves before the others leaves.
fn one_leaves(
    alloc: Global,
    indexed: &IndexedTables,
    pool: &PoolRow,
) -> Result<Option<Plan>, NoMemory>
    requires keys { KeysAreDistinct indexed.now.state }
    requires naming { RunsNameTheirs indexed.now.state }
    ensures { IfOk result (IsRule (one_leaves indexed.now.state pool.now) indexed.now.state) }
{
    match first_to_leave(indexed, &pool.id) {
        None => Ok(None),
        Some(node) => Ok(Some(node_leaves(alloc, indexed.tables(), pool, node)?)),
    }
}

/// The plan by which a node of the first resizing pool with more nodes than its target leaves; None if there is no such pool.
pub fn remove_node(alloc: Global, indexed: &IndexedTables) -> Result<Option<Plan>, NoMemory>
    requires keys { KeysAreDistinct indexed.now.state }
    requires naming { RunsNameTheirs indexed.now.state }
    ensures { IfOk result (IsRule (remove_node indexed.now.state) indexed.now.state) }
{
    match first_with_too_many(indexed.tables()) {
        None => Ok(None),
        Some(pool) => one_leaves(alloc, indexed, pool),
    }
}
