//! Start tasks: the stages of a node before and after them, and their runs.
ghost use Rattle.std.specs.Prelude.{◌≡◌, ◌<◌, ◌^◌, IfOk};
ghost use Rattle.batch_model.specs.Dues.{first_stage};
ghost use Rattle.batch_model.specs.Pools.{waits_for_start};
ghost use Rattle.batch_model.specs.Runs.{start_run};
ghost use Rattle.batch_model.specs.Starts.{counted_node, failed_in, failed_node, started_node, usable_in};

use bt_base::{Duplicate, NoMemory};
use bt_rows::node::{NodeRow, NodeStage};
use bt_rows::pool::{PoolRow, StartTask};
use bt_rows::run::{RunKind, RunRow, RunState};
use bt_rows::tables::Tables;

/// Whether nodes wait for the pool's start task.
fn waits_for_start(pool: &PoolRow) -> bool
    ensures { result ≡ waits_for_start pool.now }
{
    match &pool.start {
        Some(start) => start.wait,
        None => false,
    }
}

/// The stage of a new node of the pool: starting if the start task is waited for, and else usable at once.
pub fn first_stage(pool: &PoolRow) -> NodeStage
    ensures { result ≡ first_stage pool.now }
{
    if waits_for_start(pool) {
        NodeStage::Starting
    } else {
        NodeStage::Usable
    }
}

/// A run of the start task on the node, with the next number, made at the moment, in milliseconds since 1970.
pub fn start_run(
    tables: &Tables,
    made: u64,
    node: &NodeRow,
    start: &StartTask,
) -> Result<RunRow, NoMemory>
    ensures { IfOk result (λ run. run ≡ start_run (record tables.now.state { moment = made }) node.now start.now) }
{
    Ok(RunRow {
        number: tables.next_run(),
        kind: RunKind::Start,
        node: node.number,
        pool: node.pool.copy()?,
        job: None,
        task: None,
        attempt: 0,
        line: start.line.copy()?,
        slots: 0,
        state: RunState::Queued,
        asked: false,
        made,
        taken: None,
        ended: None,
    })
}

/// The stage of a node after its start task has succeeded.
fn usable_in(stage: NodeStage) -> NodeStage
    ensures { result ≡ usable_in stage }
{
    match stage {
        NodeStage::Starting => NodeStage::Usable,
        NodeStage::Usable | NodeStage::StartFailed | NodeStage::Leaving(_) => stage,
    }
}

/// The stage of a node after the last failure of its start task.
fn failed_in(stage: NodeStage) -> NodeStage
    ensures { result ≡ failed_in stage }
{
    match stage {
        NodeStage::Starting => NodeStage::StartFailed,
        NodeStage::Usable | NodeStage::StartFailed | NodeStage::Leaving(_) => stage,
    }
}

/// The node after its start task has succeeded.
pub fn started_node(node: &NodeRow) -> Result<NodeRow, NoMemory>
    ensures { IfOk result (λ started. started ≡ started_node node.now) }
{
    let mut started = node.copy()?;
    started.stage = usable_in(node.stage);
    Ok(started)
}

/// The node after one more failure of its start task.
pub fn counted_node(node: &NodeRow) -> Result<NodeRow, NoMemory>
    requires { node.now.tries < 2 ^ 63 }
    ensures { IfOk result (λ counted. counted ≡ counted_node node.now) }
{
    let mut counted = node.copy()?;
    counted.tries += 1;
    Ok(counted)
}

/// The node after the last failure of its start task.
pub fn failed_node(node: &NodeRow) -> Result<NodeRow, NoMemory>
    requires { node.now.tries < 2 ^ 63 }
    ensures { IfOk result (λ failed. failed ≡ failed_node node.now) }
{
    let mut failed = counted_node(node)?;
    failed.stage = failed_in(node.stage);
    Ok(failed)
}
