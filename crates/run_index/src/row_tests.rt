//! Tests of single runs, and whether a task is placed.
ghost use Rattle.std.specs.Prelude.{◌≡◌, ◌&&◌};
ghost use Rattle.batch_model.specs.Finding.{names};
ghost use Rattle.batch_model.specs.Runs.{is_present, is_busy_for, is_main, is_queued, is_unended};
ghost use Rattle.batch_model.specs.Tasks.{is_placed};
ghost use Rattle.run_index.specs.Seats.{is_asked};

use bt_base::Id;
use bt_rows::run::{RunKind, RunRow, RunState};
use bt_rows::task::{TaskRow, TaskStage};

/// Whether the name is there and is this id, whatever its case.
fn names(name: &Option<Id>, id: &Id) -> bool
    ensures { result ≡ names name.now id.now }
{
    match name {
        None => false,
        Some(name) => name.same(id),
    }
}

/// Whether the task is placed.
pub fn is_placed(task: &TaskRow) -> bool
    ensures { result ≡ is_placed task.now.stage }
{
    task.stage == TaskStage::Placed
}

/// Whether the run is of the task's present attempt.
pub fn is_present(task: &TaskRow, run: &RunRow) -> bool
    ensures { result ≡ is_present task.now run.now }
{
    names(&run.job, &task.job) && names(&run.task, &task.id) && run.attempt == task.attempt
}

/// Whether the run is waiting, queued or taken.
fn is_unended(state: RunState) -> bool
    ensures { result ≡ is_unended state }
{
    !matches!(state, RunState::Ended(_) | RunState::Withdrawn)
}

/// Whether the run is queued.
pub fn is_queued(run: &RunRow) -> bool
    ensures { result ≡ is_queued run.now.state }
{
    matches!(run.state, RunState::Queued)
}

/// Whether the run is taken and asked to stop.
pub fn is_asked(run: &RunRow) -> bool
    ensures { result ≡ is_asked run.now }
{
    matches!(run.state, RunState::Taken) && run.asked
}

/// Whether the run is of the task's present attempt and has not ended.
pub fn is_busy_for(task: &TaskRow, run: &RunRow) -> bool
    ensures { result ≡ is_busy_for task.now run.now }
{
    is_present(task, run) && is_unended(run.state)
}

/// Whether the run has the main command of a task.
fn is_main(kind: RunKind) -> bool
    ensures { result ≡ is_main kind }
{
    kind == RunKind::Task
}

/// Whether the run is the main run of the task's present attempt.
pub fn is_main_for(task: &TaskRow, run: &RunRow) -> bool
    ensures { result ≡ (is_present task.now run.now && is_main run.now.kind) }
{
    is_present(task, run) && is_main(run.kind)
}
