//! What fits: tasks in their job's pool, and nodes for them.
ghost use Rattle.std.specs.Prelude.{◌≡◌, is_some};
ghost use Rattle.std.specs.List.{find, list_any};
ghost use Rattle.std.specs.Option.{option_copied};
ghost use Rattle.batch_model.specs.Placing.{choice};
ghost use Rattle.batch_model.specs.WellFormed.{KeysAreDistinct};
ghost use Rattle.task_index.specs.Active.{is_active_within};
ghost use Rattle.slot_ledger.specs.Ledgers.{chosen};
ghost use Rattle.task_placing.specs.Entries.{ledger_for};
ghost use Rattle.task_placing.specs.Fitting.{IsPoolRow, fits_by, is_ready_within, open_pool};

use bt_base::Id;
use bt_rows::job::JobRow;
use bt_rows::node::NodeRow;
use bt_rows::pool::PoolRow;
use bt_rows::tables::Tables;
use bt_rows::task::TaskRow;
use machine_index::IndexedTables;
use slot_ledger::Ledger;
use table_scans::is_active;
use task_readiness::is_unblocked;

/// Whether a node of the pool has `need` slots free.
fn has_room(ledger: &Ledger, pool: &PoolRow, need: u8) -> bool
    ensures { result ≡ is_some (chosen ledger.now pool.now.id pool.now.fill need) }
{
    ledger.choose(&pool.id, pool.fill, need).is_some()
}

/// Whether a node of some pool has a free slot.
pub fn has_free_slot(indexed: &IndexedTables, ledger: &Ledger) -> bool
    ensures { result ≡ list_any (λ pool. is_some (chosen ledger.now pool.id pool.fill 1)) indexed.now.state.pools }
{
    indexed
        .tables()
        .pools()
        .any(|pool| has_room(ledger, pool, 1))
}

/// The job's pool, unless it is being deleted.
pub fn open_pool<'a>(tables: &'a Tables, job: &JobRow) -> Option<&'a PoolRow>
    ensures { option_copied result ≡ open_pool tables.now.state job.now }
{
    let pool = tables.find_pool(&job.pool)?;
    if pool.deleting {
        return None;
    }
    Some(pool)
}

/// Whether the task is an active one of the job, without instances, that asks for at most `most` slots.
fn is_active_within(job: &Id, most: u8, task: &TaskRow) -> bool
    ensures { result ≡ is_active_within job.now most task.now }
{
    is_active(task.stage) && task.settings.is_single() && task.slots <= most && task.job.same(job)
}

/// Whether the task is a ready one of the job, without instances, that asks for at most `most` slots.
fn is_ready_within(indexed: &IndexedTables, job: &Id, most: u8, task: &TaskRow) -> bool
    requires { KeysAreDistinct indexed.now.state }
    ensures { result ≡ is_ready_within indexed.now.state job.now most task.now }
{
    is_active_within(job, most, task) && is_unblocked(indexed, task)
}

/// The first ready task of the job, without instances, that asks for at most `most` slots, by a look at all tasks.
fn search_ready<'a>(indexed: &'a IndexedTables, job: &Id, most: u8) -> Option<&'a TaskRow>
    requires { KeysAreDistinct indexed.now.state }
    ensures { option_copied result ≡ find (is_ready_within indexed.now.state job.now most) indexed.now.state.tasks }
{
    indexed
        .tables()
        .tasks()
        .find(|task| is_ready_within(indexed, job, most, task))
}

/// The first ready task of the job, without instances, that asks for at most `most` slots. It looks at all tasks only if the first
/// active one of these still waits for others.
fn first_ready<'a>(indexed: &'a IndexedTables, job: &Id, most: u8) -> Option<&'a TaskRow>
    requires { KeysAreDistinct indexed.now.state }
    ensures { option_copied result ≡ find (is_ready_within indexed.now.state job.now most) indexed.now.state.tasks }
{
    match indexed.first_active(job, most) {
        None => None,
        Some(task) if is_unblocked(indexed, task) => Some(task),
        Some(_) => search_ready(indexed, job, most),
    }
}

/// The first task of the job that fits: the first ready one that asks for no more slots than are free on a node of the pool.
pub fn first_fitting<'a>(
    indexed: &'a IndexedTables,
    ledger: &Ledger,
    job: &JobRow,
    pool: &PoolRow,
) -> Option<&'a TaskRow>
    requires { KeysAreDistinct indexed.now.state }
    ensures { option_copied result ≡ find (fits_by indexed.now.state ledger.now job.now pool.now) indexed.now.state.tasks }
{
    match ledger.most_free(&pool.id) {
        None => None,
        Some(most) => first_ready(indexed, &job.id, most),
    }
}

/// The node on which `need` slots are to be held for a task of the job.
fn chosen_node<'a>(
    indexed: &'a IndexedTables,
    ledger: &Ledger,
    job: &JobRow,
    pool: &PoolRow,
    need: u8,
) -> Option<&'a NodeRow>
    requires keys { KeysAreDistinct indexed.now.state }
    requires ledger { ledger.now ≡ ledger_for indexed.now.state job.now }
    requires pool { IsPoolRow indexed.now.state pool.now }
    ensures { option_copied result ≡ choice indexed.now.state job.now pool.now need }
{
    match ledger.choose(&pool.id, pool.fill, need) {
        None => None,
        Some(number) => indexed.tables().find_node(number),
    }
}

/// The node on which the slots of this task of the job are to be held.
pub fn node_for<'a>(
    indexed: &'a IndexedTables,
    ledger: &Ledger,
    job: &JobRow,
    pool: &PoolRow,
    task: &TaskRow,
) -> Option<&'a NodeRow>
    requires keys { KeysAreDistinct indexed.now.state }
    requires ledger { ledger.now ≡ ledger_for indexed.now.state job.now }
    requires pool { IsPoolRow indexed.now.state pool.now }
    ensures { option_copied result ≡ choice indexed.now.state job.now pool.now task.now.slots }
{
    chosen_node(indexed, ledger, job, pool, task.slots)
}
