//! The rows of tasks that end or become active again.
ghost use Rattle.std.specs.Prelude.{◌≡◌, IfOk};
ghost use Rattle.batch_model.specs.Tasks.{again, cleared, completed, terminated};

use bt_base::{Duplicate, NoMemory};
use bt_rows::task::{Closed, How, TaskRow, TaskStage};

/// The task with no end wanted, no ending in place of its main command's, and no moment at which it started.
fn cleared(task: &TaskRow) -> Result<TaskRow, NoMemory>
    ensures { IfOk result (λ row. row ≡ cleared task.now) }
{
    let mut row = task.copy()?;
    row.wanted = None;
    row.fail = None;
    row.started = None;
    Ok(row)
}

/// The task, completed and closed in this way. The only error is out of memory.
pub fn completed(closed: Closed, task: &TaskRow) -> Result<TaskRow, NoMemory>
    ensures { IfOk result (λ row. row ≡ completed closed task.now) }
{
    let mut row = cleared(task)?;
    row.stage = TaskStage::Completed;
    row.closed = Some(closed);
    Ok(row)
}

/// The task, completed as terminated at `now`, in milliseconds since 1970: without success, and so that its dependents wait. The only
/// error is out of memory.
pub fn terminated(now: u64, task: &TaskRow) -> Result<TaskRow, NoMemory>
    ensures { IfOk result (λ row. row ≡ terminated now task.now) }
{
    let closed = Closed {
        how: How::Terminated,
        success: false,
        satisfies: false,
        at: now,
    };
    completed(closed, task)
}

/// The task, active again after this number of failures. The only error is out of memory.
pub fn again(failures: u64, task: &TaskRow) -> Result<TaskRow, NoMemory>
    ensures { IfOk result (λ row. row ≡ again failures task.now) }
{
    let mut row = cleared(task)?;
    row.stage = TaskStage::Active;
    row.failures = failures;
    Ok(row)
}
