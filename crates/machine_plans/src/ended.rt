//! Ended runs.
ghost use Rattle.std.specs.Prelude.{◌≡◌, IfOk};
ghost use Rattle.batch_model.specs.Events.{ended_run};

use bt_base::{Duplicate, NoMemory};
use bt_rows::run::{Ending, RunRow, RunState};

/// A copy of the run that ended at `now`, in milliseconds since 1970. The only error is out of memory.
pub fn ended_run(now: u64, ending: Ending, run: &RunRow) -> Result<RunRow, NoMemory>
    ensures { IfOk result (λ ended. ended ≡ ended_run now ending run.now) }
{
    let mut ended = run.copy()?;
    ended.state = RunState::Ended(ending);
    ended.ended = Some(now);
    Ok(ended)
}
