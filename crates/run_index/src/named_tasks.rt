//! The task that a run names.
ghost use Rattle.std.specs.Prelude.{◌≡◌, Some};
ghost use Rattle.run_index.specs.Named.{place_of_run};

use bt_rows::run::RunRow;
use bt_rows::tables::Tables;

/// The place of the task that the run names.
pub fn place_of_run(tables: &Tables, run: &RunRow) -> Option<usize>
    ensures { result ≡ place_of_run tables.now.task_slots (Some run.now) }
{
    match &run.job {
        None => None,
        Some(job) => match &run.task {
            None => None,
            Some(id) => tables.task_place(job, id),
        },
    }
}
