//! The changes that stop one task, and those that stop the tasks that wait for a preparation.
ghost use Rattle.std.specs.Prelude.{◌≡◌, ◌++◌, IfOk, OnOk};
ghost use Rattle.bt_rows.specs.Changes.{apply_changes};
ghost use Rattle.batch_model.specs.Preparing.{is_waiting_on};
ghost use Rattle.batch_model.specs.Rows.{is_task};
ghost use Rattle.batch_model.specs.Stops.{stop};
ghost use Rattle.batch_model.specs.Variants.{WantRequeue};
ghost use Rattle.batch_model.specs.WellFormed.{KeysAreDistinct};
ghost use Rattle.machine_plans.specs.Plans.{with_moment};
ghost use Rattle.task_stops.specs.StopChanges.{stop_changes};
ghost use Rattle.task_stops.specs.declared.stop.Stopped.TheVariants.{One};

use crate::stop::{Stopped, push_stop};
use bt_base::{Duplicate, NoMemory};
use bt_rows::prep::PrepRow;
use bt_rows::tables::{Change, Tables};
use bt_rows::task::{TaskKey, TaskRow, Want};
use std::alloc::Global;

/// This task alone.
fn only(task: &TaskRow) -> Result<Stopped, NoMemory>
    ensures { IfOk result (λ which. which ≡ One (record { job = task.now.job; id = task.now.id })) }
{
    let job = task.job.copy()?;
    let id = task.id.copy()?;
    Ok(Stopped::One(TaskKey { job, id }))
}

/// The changes that stop the task at the tables' moment, if it is placed: the end is wanted of it, and the runs of its present
/// attempt are halted. The only error is out of memory.
pub fn stop_task(
    alloc: Global,
    tables: &Tables,
    task: &TaskRow,
    want: Want,
) -> Result<Vec<Change>, NoMemory>
    requires { KeysAreDistinct tables.now.state }
    ensures { IfOk result (λ changes. apply_changes changes.items tables.now.state ≡ stop (is_task task.now.job task.now.id) want tables.now.state) }
{
    let which = only(task)?;
    let mut changes = Vec::new(alloc);
    push_stop(&mut changes, tables, tables.moment(), &which, want)?;
    Ok(changes)
}

/// The changes that stop the task at `now`, in milliseconds since 1970, if it is placed: the end is wanted of it, and the runs of its
/// present attempt are halted. The only error is out of memory.
pub fn stop_task_at(
    alloc: Global,
    tables: &Tables,
    now: u64,
    task: &TaskRow,
    want: Want,
) -> Result<Vec<Change>, NoMemory>
    requires { KeysAreDistinct tables.now.state }
    ensures { IfOk result (λ changes. apply_changes changes.items (with_moment now tables.now.state) ≡ stop (is_task task.now.job task.now.id) want (with_moment now tables.now.state)) }
{
    let which = only(task)?;
    let mut changes = Vec::new(alloc);
    push_stop(&mut changes, tables, now, &which, want)?;
    Ok(changes)
}

/// Adds the changes that requeue the tasks that wait for the preparation, at `now`, in milliseconds since 1970: a requeue is wanted of
/// each, and the runs of their present attempts are halted. The only error is out of memory.
pub fn push_requeue_of_waiting(
    changes: &mut Vec<Change>,
    tables: &Tables,
    now: u64,
    prep: &PrepRow,
) -> Result<(), NoMemory>
    requires { KeysAreDistinct tables.now.state }
    ensures { OnOk result (changes.new.items ≡ changes.old.items ++ stop_changes (is_waiting_on tables.now.state prep.now) WantRequeue now tables.now.state) }
{
    let which = Stopped::WaitingFor(prep.copy()?);
    push_stop(changes, tables, now, &which, Want::Requeue)
}
