//! Attempts of tasks: which runs are of a task's present attempt, and how its main run ended.
ghost use Rattle.std.specs.Prelude.{◌≡◌};
ghost use Rattle.std.specs.Option.{option_copied};
ghost use Rattle.batch_model.specs.Endings.{is_success};
ghost use Rattle.batch_model.specs.Runs.{is_unended, is_main, is_busy_for, ending_of};
ghost use Rattle.batch_model.specs.Tasks.{is_active, is_placed, is_busy, main_run, main_ending};

use crate::runs::is_present;
use bt_rows::run::{Ending, RunKind, RunRow, RunState};
use bt_rows::tables::Tables;
use bt_rows::task::{TaskRow, TaskStage};

/// Whether the task waits to be placed.
pub fn is_active(stage: TaskStage) -> bool
    ensures { result ≡ is_active stage }
{
    stage == TaskStage::Active
}

/// Whether the task has an attempt that is not settled.
pub fn is_placed(stage: TaskStage) -> bool
    ensures { result ≡ is_placed stage }
{
    stage == TaskStage::Placed
}

/// Whether the run is waiting, queued or taken.
pub fn is_unended(state: RunState) -> bool
    ensures { result ≡ is_unended state }
{
    !matches!(state, RunState::Ended(_) | RunState::Withdrawn)
}

/// Whether the ending is by exit code 0.
pub fn is_success(ending: Ending) -> bool
    ensures { result ≡ is_success ending }
{
    matches!(ending, Ending::Code(0))
}

/// How the run ended, if it did.
pub fn ending_of(state: RunState) -> Option<Ending>
    ensures { result ≡ ending_of state }
{
    match state {
        RunState::Ended(ending) => Some(ending),
        _ => None,
    }
}

/// Whether the run has the main command of a task.
fn is_main(kind: RunKind) -> bool
    ensures { result ≡ is_main kind }
{
    kind == RunKind::Task
}

/// The main run of the task's present attempt.
fn main_run<'a>(tables: &'a Tables, task: &TaskRow) -> Option<&'a RunRow>
    ensures { option_copied result ≡ main_run tables.now.state task.now }
{
    tables
        .runs()
        .find(|run| is_present(task, run) && is_main(run.kind))
}

/// How the main run of the task's present attempt ended, if it did.
pub fn main_ending(tables: &Tables, task: &TaskRow) -> Option<Ending>
    ensures { result ≡ main_ending tables.now.state task.now }
{
    match main_run(tables, task) {
        None => None,
        Some(run) => ending_of(run.state),
    }
}
