//! Nodes: their stages, their pools, and whether numbers for new ones are left.
ghost use Rattle.std.specs.Prelude.{◌≡◌};
ghost use Rattle.batch_model.specs.Finding.{has_number_left};
ghost use Rattle.batch_model.specs.Nodes.{is_usable, is_leaving, is_in_pool, stays};
ghost use Rattle.batch_model.specs.Pools.{is_resizing, has_leaving, staying_count};

use bt_base::Id;
use bt_rows::limits::NUMBER_LIMIT;
use bt_rows::node::{NodeRow, NodeStage};
use bt_rows::pool::Alloc;
use bt_rows::tables::Tables;

/// Whether nodes or runs can be made, if this is their next number.
pub fn has_number_left(next: u64) -> bool
    ensures { result ≡ has_number_left next }
{
    next <= NUMBER_LIMIT
}

/// Whether tasks are placed on the node.
pub fn is_usable(stage: NodeStage) -> bool
    ensures { result ≡ is_usable stage }
{
    matches!(stage, NodeStage::Usable)
}

/// Whether the node leaves its pool.
fn is_leaving(stage: NodeStage) -> bool
    ensures { result ≡ is_leaving stage }
{
    matches!(stage, NodeStage::Leaving(_))
}

/// Whether the node is one of the pool.
pub fn is_in_pool(pool: &Id, node: &NodeRow) -> bool
    ensures { result ≡ is_in_pool pool.now node.now }
{
    node.pool.same(pool)
}

/// Whether the node is one of the pool and does not leave it.
pub fn stays(pool: &Id, node: &NodeRow) -> bool
    ensures { result ≡ stays pool.now node.now }
{
    is_in_pool(pool, node) && !is_leaving(node.stage)
}

/// Whether a node leaves the pool.
pub fn has_leaving(tables: &Tables, pool: &Id) -> bool
    ensures { result ≡ has_leaving tables.now.state pool.now }
{
    tables
        .nodes()
        .any(|node| is_in_pool(pool, node) && is_leaving(node.stage))
}

/// How many of the pool's nodes do not leave.
pub fn staying_count(tables: &Tables, pool: &Id) -> usize
    ensures { result ≡ staying_count tables.now.state pool.now }
{
    let _few = tables.node_count();
    tables.nodes().filter(|node| stays(pool, node)).count()
}

/// Whether the pool's number of nodes is still to reach its target.
pub fn is_resizing(alloc: Alloc) -> bool
    ensures { result ≡ is_resizing alloc }
{
    alloc == Alloc::Resizing
}
