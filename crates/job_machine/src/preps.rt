//! Rows of preparations after their runs have ended, and of the runs that waited for them.
ghost use Rattle.std.specs.Prelude.{◌≡◌, ◌<◌, ◌^◌, IfOk};
ghost use Rattle.batch_model.specs.Preparing.{counted_preparation, prepared, queued, released, spent_preparation};

use bt_base::{Duplicate, NoMemory};
use bt_rows::prep::{PrepRow, PrepState, ReleaseState};
use bt_rows::run::{RunRow, RunState};

/// The preparation, which is completed.
pub fn prepared(prep: &PrepRow) -> Result<PrepRow, NoMemory>
    ensures { IfOk result (λ row. row ≡ prepared prep.now) }
{
    let mut row = prep.copy()?;
    row.state = PrepState::Completed;
    Ok(row)
}

/// The preparation after one more failure.
pub fn counted_preparation(prep: &PrepRow) -> Result<PrepRow, NoMemory>
    requires { prep.now.tries < 2 ^ 63 }
    ensures { IfOk result (λ row. row ≡ counted_preparation prep.now) }
{
    let mut row = prep.copy()?;
    row.tries += 1;
    Ok(row)
}

/// The preparation after its last failure.
pub fn spent_preparation(prep: &PrepRow) -> Result<PrepRow, NoMemory>
    requires { prep.now.tries < 2 ^ 63 }
    ensures { IfOk result (λ row. row ≡ spent_preparation prep.now) }
{
    let mut row = counted_preparation(prep)?;
    row.state = PrepState::Failed;
    Ok(row)
}

/// The preparation, whose release task has ended.
pub fn released(prep: &PrepRow) -> Result<PrepRow, NoMemory>
    ensures { IfOk result (λ row. row ≡ released prep.now) }
{
    let mut row = prep.copy()?;
    row.release = ReleaseState::Done;
    Ok(row)
}

/// The run, which may be taken.
pub fn queued(run: &RunRow) -> Result<RunRow, NoMemory>
    ensures { IfOk result (λ row. row ≡ queued run.now) }
{
    let mut row = run.copy()?;
    row.state = RunState::Queued;
    Ok(row)
}
