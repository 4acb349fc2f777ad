//! Which nodes hold slots: those on which a placed task has a run with slots.
ghost use Rattle.std.specs.Prelude.{◌≡◌, nat_lt};
ghost use Rattle.std.specs.List.{list_any};
ghost use Rattle.batch_model.specs.Slots.{held_slots};
ghost use Rattle.table_scans.specs.Holding.{has_slots, is_holder};

use crate::runs::is_present;
use bt_rows::tables::Tables;
use bt_rows::task::{TaskRow, TaskStage};

/// Whether a run on the node has slots and is of the task's present attempt.
fn has_slots(tables: &Tables, node: u64, task: &TaskRow) -> bool
    ensures { result ≡ list_any (has_slots node task.now) tables.now.state.runs }
{
    tables.runs().any(|run| run.node == node && run.slots > 0 && is_present(task, run))
}

/// Whether a placed task has a run with slots on the node. Each placed task costs at most one look at each run, and each
/// other task none.
fn has_holder(tables: &Tables, node: u64) -> bool
    ensures { result ≡ list_any (is_holder tables.now.state.runs node) tables.now.state.tasks }
{
    tables.tasks().any(|task| matches!(task.stage, TaskStage::Placed)
        && has_slots(tables, node, task))
}

/// Whether slots of the node with this number are held.
#[tactic(auto, using(crate::proofs::HeldSlots::held_any))]
pub fn holds_slots(tables: &Tables, node: u64) -> bool
    ensures { result ≡ nat_lt 0 (held_slots tables.now.state node) }
{
    has_holder(tables, node)
}
