//! Rows of tasks and runs that are stopped.
ghost use Rattle.std.specs.Prelude.{◌≡◌, IfOk};
ghost use Rattle.batch_model.specs.Runs.{halted};
ghost use Rattle.batch_model.specs.Stops.{joined, wanting};

use bt_base::{Duplicate, NoMemory};
use bt_rows::run::{RunRow, RunState};
use bt_rows::task::{TaskRow, Want};

/// The run after it is halted at `now`, in milliseconds since 1970: one that was not taken is withdrawn, one that runs is asked to
/// stop, and one that has ended stays as it is.
pub fn halted(now: u64, run: &RunRow) -> Result<RunRow, NoMemory>
    ensures { IfOk result (λ row. row ≡ halted now run.now) }
{
    let mut row = run.copy()?;
    match run.state {
        RunState::Waiting | RunState::Queued => {
            row.state = RunState::Withdrawn;
            row.ended = Some(now);
        }
        RunState::Taken => row.asked = true,
        RunState::Ended(_) | RunState::Withdrawn => {}
    }
    Ok(row)
}

/// The end that is wanted once one more is: a removal replaces any other, and a termination replaces a requeue.
fn joined(wanted: Option<Want>, want: Want) -> Want
    ensures { result ≡ joined wanted want }
{
    match (wanted, want) {
        (None, _) => want,
        (Some(_), Want::Delete) => Want::Delete,
        (Some(Want::Requeue), Want::Terminate) => Want::Terminate,
        (Some(old), _) => old,
    }
}

/// The task, of which this end is wanted too.
pub fn wanting(want: Want, task: &TaskRow) -> Result<TaskRow, NoMemory>
    ensures { IfOk result (λ row. row ≡ wanting want task.now) }
{
    let mut row = task.copy()?;
    row.wanted = Some(joined(task.wanted, want));
    Ok(row)
}
