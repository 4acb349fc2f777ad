//! Whether all that a task depends on is satisfied, and whether it is ready.
ghost use Rattle.std.specs.Prelude.{◌≡◌};
ghost use Rattle.std.specs.List.{list_all};
ghost use Rattle.batch_model.specs.Readiness.{is_id_satisfied, is_ready, is_span_satisfied, is_unblocked};
ghost use Rattle.batch_model.specs.WellFormed.{KeysAreDistinct};

use bt_base::Id;
use bt_rows::tables::Tables;
use bt_rows::task::TaskRow;
use machine_index::IndexedTables;
use table_scans::is_active;
use task_index::satisfies_others;

/// Whether the task of the job with this id satisfies those that name it.
fn is_id_satisfied(tables: &Tables, job: &Id, id: &Id) -> bool
    requires { KeysAreDistinct tables.now.state }
    ensures { result ≡ is_id_satisfied tables.now.state job.now id.now }
{
    match tables.find_task(job, id) {
        None => false,
        Some(task) => satisfies_others(task),
    }
}

/// Whether each number of the range is satisfied. It begins at the last number, since of tasks that complete in order that one is
/// missing first, and stops at the first number that is not satisfied.
fn is_span_satisfied(indexed: &IndexedTables, job: &Id, span: (u32, u32)) -> bool
    ensures { result ≡ is_span_satisfied indexed.now.state job.now span }
{
    let (first, last) = span;
    let end = u64::from(last) + 1;
    for number in (u64::from(first)..end).rev() {
        if !indexed.is_number_satisfied(job, number) {
            return false;
        }
    }
    true
}

/// Whether each of the ids that the task names is satisfied.
fn has_ids(tables: &Tables, task: &TaskRow) -> bool
    requires { KeysAreDistinct tables.now.state }
    ensures { result ≡ list_all (is_id_satisfied tables.now.state task.now.job) task.now.needs }
{
    let needs = task.settings.needs();
    needs
        .iter()
        .all(|id| is_id_satisfied(tables, &task.job, id))
}

/// Whether each number of the ranges that the task names is satisfied.
fn has_spans(indexed: &IndexedTables, task: &TaskRow) -> bool
    ensures { result ≡ list_all (is_span_satisfied indexed.now.state task.now.job) task.now.spans }
{
    let spans = task.settings.spans();
    spans
        .iter()
        .all(|span| is_span_satisfied(indexed, &task.job, *span))
}

/// Whether each id and each number that the task depends on is satisfied. The tasks with an id, and those with a number, are found
/// through hash maps. It stops at the first id or number that is not satisfied, and does not allocate.
pub fn is_unblocked(indexed: &IndexedTables, task: &TaskRow) -> bool
    requires { KeysAreDistinct indexed.now.state }
    ensures { result ≡ is_unblocked indexed.now.state task.now }
{
    has_ids(indexed.tables(), task) && has_spans(indexed, task)
}

/// Whether the task is active, and each id and each number that it depends on is satisfied. It does not allocate.
pub fn is_ready(indexed: &IndexedTables, task: &TaskRow) -> bool
    requires { KeysAreDistinct indexed.now.state }
    ensures { result ≡ is_ready indexed.now.state task.now }
{
    is_active(task.stage) && is_unblocked(indexed, task)
}
