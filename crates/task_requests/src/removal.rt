//! The changes that drop a task with its runs.
ghost use Rattle.std.specs.Prelude.{◌≡◌, ℕ, ◌++◌, IfOk, OnOk};
ghost use Rattle.bt_rows.specs.Changes.{apply_changes};
ghost use Rattle.batch_model.specs.Runs.{is_run_of_task};
ghost use Rattle.batch_model.specs.Settling.{drop_task};
ghost use Rattle.batch_model.specs.WellFormed.{KeysAreDistinct};
ghost use Rattle.machine_plans.specs.Plans.{with_moment};
ghost use Rattle.row_changes.specs.Puts.{changes_where, key_of_task, run_drop};

use bt_base::{Duplicate, NoMemory};
use bt_rows::run::RunRow;
use bt_rows::tables::{Change, Tables};
use bt_rows::task::{TaskKey, TaskRow};
use std::alloc::Global;
use table_scans::names;

/// The key of the task.
fn key_of_task(task: &TaskRow) -> Result<TaskKey, NoMemory>
    ensures { IfOk result (λ key. key ≡ key_of_task task.now) }
{
    Ok(TaskKey {
        job: task.job.copy()?,
        id: task.id.copy()?,
    })
}

/// Whether the run is one of the task, of any attempt.
fn is_run_of_task(task: &TaskRow, run: &RunRow) -> bool
    ensures { result ≡ is_run_of_task task.now.job task.now.id run.now }
{
    names(&run.job, &task.job) && names(&run.task, &task.id)
}

/// Adds the drops of the task's runs, of all attempts.
fn push_run_drops(
    changes: &mut Vec<Change>,
    tables: &Tables,
    task: &TaskRow,
) -> Result<(), NoMemory>
    ensures { OnOk result (changes.new.items ≡ changes.old.items ++ changes_where run_drop (is_run_of_task task.now.job task.now.id) tables.now.state.runs) }
{
    for run in tables.runs() {
        if is_run_of_task(task, run) {
            changes.push(Change::DropRun(run.number))?;
        }
    }
    Ok(())
}

/// The changes that drop the task with its runs, from the tables as they are and from the same at another moment. The only error is
/// out of memory.
pub fn drop_changes(alloc: Global, tables: &Tables, task: &TaskRow) -> Result<Vec<Change>, NoMemory>
    requires keys { KeysAreDistinct tables.now.state }
    ensures here { IfOk result (λ changes. apply_changes changes.items tables.now.state ≡ drop_task task.now tables.now.state) }
    ensures moved { IfOk result (λ changes. (now : ℕ) → apply_changes changes.items (with_moment now tables.now.state) ≡ drop_task task.now (with_moment now tables.now.state)) }
{
    let key = key_of_task(task)?;
    let mut changes = vec![in alloc; Change::DropTask(key)]?;
    push_run_drops(&mut changes, tables, task)?;
    Ok(changes)
}
