//! Runs: by their numbers, and whose they are.
ghost use Rattle.std.specs.Prelude.{◌≡◌};
ghost use Rattle.batch_model.specs.Finding.{names};
ghost use Rattle.batch_model.specs.Runs.{is_present, is_start};
ghost use Rattle.table_scans.specs.Runs.{is_start_number};

use bt_base::Id;
use bt_rows::run::{RunKind, RunRow};
use bt_rows::tables::Tables;
use bt_rows::task::TaskRow;

/// Whether the run is one of a start task.
fn is_start(kind: RunKind) -> bool
    ensures { result ≡ is_start kind }
{
    kind == RunKind::Start
}

/// Whether a start run has this number.
pub fn is_start_number(tables: &Tables, number: u64) -> bool
    ensures { result ≡ is_start_number tables.now.state number }
{
    match tables.find_run(number) {
        None => false,
        Some(run) => is_start(run.kind),
    }
}

/// Whether the name is there and is this id, whatever its case.
pub fn names(name: &Option<Id>, id: &Id) -> bool
    ensures { result ≡ names name.now id.now }
{
    match name {
        None => false,
        Some(name) => name.same(id),
    }
}

/// Whether the run is of the task's present attempt.
pub fn is_present(task: &TaskRow, run: &RunRow) -> bool
    ensures { result ≡ is_present task.now run.now }
{
    names(&run.job, &task.job) && names(&run.task, &task.id) && run.attempt == task.attempt
}
