//! The changes that stop the tasks on nodes that leave, and those that halt the preparations there.
ghost use Rattle.std.specs.Prelude.{◌≡◌, ◌++◌, OnOk};
ghost use Rattle.batch_model.specs.Leaving.{has_run_where, is_on};
ghost use Rattle.batch_model.specs.WellFormed.{KeysAreDistinct};
ghost use Rattle.task_stops.specs.HaltChanges.{halt_changes};
ghost use Rattle.task_stops.specs.LeaveTests.{leaves};
ghost use Rattle.task_stops.specs.StopChanges.{stop_changes};

use crate::halt::{Halted, push_halt};
use crate::leaving::LeavingNodes;
use crate::stop::{Stopped, push_stop};
use bt_base::{Duplicate, NoMemory};
use bt_rows::tables::{Change, Tables};
use bt_rows::task::Want;

/// Adds the changes that stop the placed tasks with a run of their present attempt on these nodes, at `now`, in milliseconds since 1970: this
/// end is wanted of each, and all runs of their present attempts are halted. The only error is out of memory.
pub fn push_stop_on(
    changes: &mut Vec<Change>,
    tables: &Tables,
    now: u64,
    want: Want,
    which: &LeavingNodes,
) -> Result<(), NoMemory>
    requires { KeysAreDistinct tables.now.state }
    ensures { OnOk result (changes.new.items ≡ changes.old.items ++ stop_changes (has_run_where (is_on (leaves which.now) tables.now.state) tables.now.state) want now tables.now.state) }
{
    let tasks = Stopped::OnNodes(which.copy()?);
    push_stop(changes, tables, now, &tasks, want)
}

/// Adds the changes that halt the preparations on these nodes at `now`, in milliseconds since 1970: their unended runs are halted, and a
/// preparation whose run was not taken has failed. The only error is out of memory.
pub fn push_halt_on(
    changes: &mut Vec<Change>,
    tables: &Tables,
    now: u64,
    which: &LeavingNodes,
) -> Result<(), NoMemory>
    ensures { OnOk result (changes.new.items ≡ changes.old.items ++ halt_changes (is_on (leaves which.now) tables.now.state) now tables.now.state) }
{
    let preparations = Halted::OnNodes(which.copy()?);
    push_halt(changes, tables, now, &preparations)
}
