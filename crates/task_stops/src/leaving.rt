//! Nodes that leave their pool, and the runs on them.
ghost use Rattle.std.specs.Prelude.{◌≡◌, ◌&&◌};
ghost use Rattle.batch_model.specs.Leaving.{has_run_where, is_on};
ghost use Rattle.batch_model.specs.PoolEvents.{is_leaving_from};
ghost use Rattle.batch_model.specs.Runs.{is_present};
ghost use Rattle.task_stops.specs.LeaveTests.{has_passing, leaves, passes_with};

use bt_base::{Duplicate, Id, NoMemory};
use bt_rows::node::{NodeRow, NodeStage};
use bt_rows::run::RunRow;
use bt_rows::tables::Tables;
use bt_rows::task::TaskRow;
use table_scans::{is_in_pool, is_present};

/// Which nodes leave their pool.
#[derive(Drop)]
pub enum LeavingNodes {
    /// The node with this number.
    One(u64),
    /// The nodes of the pool with this id that are leaving already.
    LeavingFrom(Id),
}

impl Duplicate for LeavingNodes {
    fn copy(&self) -> Result<LeavingNodes, NoMemory> {
        match self {
            LeavingNodes::One(number) => Ok(LeavingNodes::One(*number)),
            LeavingNodes::LeavingFrom(pool) => Ok(LeavingNodes::LeavingFrom(pool.copy()?)),
        }
    }
}

/// Whether the node is one of the pool, and leaving.
fn is_leaving_from(pool: &Id, node: &NodeRow) -> bool
    ensures { result ≡ is_leaving_from pool.now node.now }
{
    is_in_pool(pool, node) && matches!(node.stage, NodeStage::Leaving(_))
}

/// Whether the node is among these.
pub fn leaves(which: &LeavingNodes, node: &NodeRow) -> bool
    ensures { result ≡ leaves which.now node.now }
{
    match which {
        LeavingNodes::One(number) => node.number == *number,
        LeavingNodes::LeavingFrom(pool) => is_leaving_from(pool, node),
    }
}

/// Whether the node is among these, and has this number.
fn leaves_with(which: &LeavingNodes, number: u64, node: &NodeRow) -> bool
    ensures { result ≡ passes_with (leaves which.now) number node.now }
{
    node.number == number && leaves(which, node)
}

/// Whether the node with this number is there and among these.
pub fn has_leaving(tables: &Tables, which: &LeavingNodes, number: u64) -> bool
    ensures { result ≡ has_passing (leaves which.now) tables.now.state number }
{
    tables.nodes().any(|node| leaves_with(which, number, node))
}

/// Whether the run is on a node among these.
pub fn is_on(tables: &Tables, which: &LeavingNodes, run: &RunRow) -> bool
    ensures { result ≡ is_on (leaves which.now) tables.now.state run.now }
{
    has_leaving(tables, which, run.node)
}

/// Whether the run is on a node among these, and of the task's present attempt.
fn is_present_on(tables: &Tables, which: &LeavingNodes, task: &TaskRow, run: &RunRow) -> bool
    ensures { result ≡ (is_on (leaves which.now) tables.now.state run.now && is_present task.now run.now) }
{
    is_present(task, run) && is_on(tables, which, run)
}

/// Whether a run of the task's present attempt is on a node among these.
pub fn has_run_on(tables: &Tables, which: &LeavingNodes, task: &TaskRow) -> bool
    ensures { result ≡ has_run_where (is_on (leaves which.now) tables.now.state) tables.now.state task.now }
{
    tables
        .runs()
        .any(|run| is_present_on(tables, which, task, run))
}
