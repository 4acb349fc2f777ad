//! The states of nodes and tasks, which follow from their stages and the runs in the tables.
ghost use Rattle.std.specs.Prelude.{◌≡◌};
ghost use Rattle.batch_model.specs.States.{is_preparing, is_start_taken, node_state, task_state};

use crate::runs::is_present;
use crate::slots::holds_slots;
use bt_rows::node::{NodeRow, NodeStage};
use bt_rows::reply::{NodeState, TaskState};
use bt_rows::run::{RunKind, RunState};
use bt_rows::tables::Tables;
use bt_rows::task::{TaskRow, TaskStage};

/// Whether the start task of the node with this number runs.
fn is_start_taken(tables: &Tables, node: u64) -> bool
    ensures { result ≡ is_start_taken tables.now.state node }
{
    tables.runs().any(|run| {
        matches!(run.state, RunState::Taken)
            && (matches!(run.kind, RunKind::Start) && run.node == node)
    })
}

/// The state of the node, as replies and tables show it.
pub fn node_state(tables: &Tables, node: &NodeRow) -> NodeState
    ensures { result ≡ node_state node.now.stage tables.now.state node.now.number }
{
    match node.stage {
        NodeStage::Starting => if is_start_taken(tables, node.number) {
            NodeState::WaitingForStartTask
        } else {
            NodeState::Starting
        },
        NodeStage::Usable => if holds_slots(tables, node.number) {
            NodeState::Running
        } else {
            NodeState::Idle
        },
        NodeStage::StartFailed => NodeState::StartTaskFailed,
        NodeStage::Leaving(_) => NodeState::LeavingPool,
    }
}

/// Whether a run of the task's present attempt waits for a preparation.
fn is_preparing(tables: &Tables, task: &TaskRow) -> bool
    ensures { result ≡ is_preparing tables.now.state task.now }
{
    tables.runs().any(|run| matches!(run.state, RunState::Waiting) && is_present(task, run))
}

/// The state of the task, as replies and tables show it.
pub fn task_state(tables: &Tables, task: &TaskRow) -> TaskState
    ensures { result ≡ task_state task.now.stage tables.now.state task.now }
{
    match task.stage {
        TaskStage::Active => TaskState::Active,
        TaskStage::Placed => if is_preparing(tables, task) {
            TaskState::Preparing
        } else {
            TaskState::Running
        },
        TaskStage::Completed => TaskState::Completed,
    }
}
