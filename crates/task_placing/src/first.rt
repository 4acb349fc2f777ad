//! U16: a task of the job of the highest priority is placed.
ghost use Rattle.std.specs.Prelude.{◌≡◌, IfOk, true};
ghost use Rattle.std.specs.Option.{option_and_then};
ghost use Rattle.batch_model.specs.Finding.{Each, find_map};
ghost use Rattle.batch_model.specs.Placing.{place_task, place_of_job, has_placing, next_job, place_first};
ghost use Rattle.batch_model.specs.Sound.{NumbersAreNew, SlotsSuffice};
ghost use Rattle.batch_model.specs.WellFormed.{KeysAreDistinct, TasksAreFitting, RowsAreValid, has_pool_row};
ghost use Rattle.machine_plans.specs.Plans.{IsRule};
ghost use Rattle.task_placing.specs.Conditions.{CanPlace};
ghost use Rattle.task_placing.specs.Entries.{ledger_for, ledger_of};
ghost use Rattle.task_placing.specs.Fitting.{IsPoolRow};

use crate::entries::{has_unprepared, ledger_for, ledger_of};
use crate::fitting::{first_fitting, has_free_slot, node_for, open_pool};
use crate::place::place;
use crate::turns::next_job;
use bt_base::NoMemory;
use bt_rows::job::JobRow;
use bt_rows::plan::Plan;
use bt_rows::pool::PoolRow;
use machine_index::IndexedTables;
use slot_ledger::Ledger;
use std::alloc::Global;
use table_scans::has_number_left;

/// Places the first task of the job that fits by the job's ledger, on the node that is chosen for it.
fn place_on_fitting(
    alloc: Global,
    indexed: &IndexedTables,
    ledger: &Ledger,
    job: &JobRow,
    pool: &PoolRow,
) -> Result<Option<Plan>, NoMemory>
    requires able { CanPlace indexed.now.state }
    requires ledger { ledger.now ≡ ledger_for indexed.now.state job.now }
    requires pool { IsPoolRow indexed.now.state pool.now }
    ensures { IfOk result (IsRule (find_map (place_task indexed.now.state job.now pool.now) indexed.now.state.tasks) indexed.now.state) }
{
    let Some(task) = first_fitting(indexed, ledger, job, pool) else {
        return Ok(None);
    };
    let Some(node) = node_for(indexed, ledger, job, pool, task) else {
        return Ok(None);
    };
    Ok(Some(place(alloc, indexed.tables(), job, task, node)?))
}

/// Places the first task of the job that fits, on the node that is chosen for it, by the ledger of all nodes, or by one of the job's own
/// if its preparation has failed somewhere.
fn place_fitting(
    alloc: Global,
    indexed: &IndexedTables,
    ledger: &Ledger,
    job: &JobRow,
    pool: &PoolRow,
) -> Result<Option<Plan>, NoMemory>
    requires able { CanPlace indexed.now.state }
    requires ledger { ledger.now ≡ ledger_of indexed.now.state }
    requires pool { IsPoolRow indexed.now.state pool.now }
    ensures { IfOk result (IsRule (find_map (place_task indexed.now.state job.now pool.now) indexed.now.state.tasks) indexed.now.state) }
{
    if has_unprepared(indexed.tables(), job) {
        let own = ledger_for(alloc, indexed, job)?;
        place_on_fitting(alloc, indexed, &own, job, pool)
    } else {
        place_on_fitting(alloc, indexed, ledger, job, pool)
    }
}

/// Places a task of the job, of which one can be placed, in the job's pool.
fn place_of_next(
    alloc: Global,
    indexed: &IndexedTables,
    ledger: &Ledger,
    job: &JobRow,
) -> Result<Option<Plan>, NoMemory>
    requires able { CanPlace indexed.now.state }
    requires ledger { ledger.now ≡ ledger_of indexed.now.state }
    requires job { has_placing indexed.now.state job.now ≡ true }
    ensures { IfOk result (IsRule (place_of_job indexed.now.state job.now) indexed.now.state) }
{
    match open_pool(indexed.tables(), job) {
        Some(pool) => place_fitting(alloc, indexed, ledger, job, pool),
        None => Ok(None),
    }
}

/// Places a task, if a node has a free slot.
fn place_by_ledger(
    alloc: Global,
    indexed: &IndexedTables,
    ledger: &Ledger,
) -> Result<Option<Plan>, NoMemory>
    requires able { CanPlace indexed.now.state }
    requires ledger { ledger.now ≡ ledger_of indexed.now.state }
    ensures { IfOk result (IsRule (option_and_then (place_of_job indexed.now.state) (next_job indexed.now.state)) indexed.now.state) }
{
    if !has_free_slot(indexed, ledger) {
        return Ok(None);
    }
    let next = next_job(alloc, indexed, ledger)?;
    match next {
        Some(job) => place_of_next(alloc, indexed, ledger, job),
        None => Ok(None),
    }
}

/// The plan of U16, until run numbers are used up: of the jobs of which a task can be placed the one of the highest priority, and the
/// earliest of several such, and its first task that fits, on the node that the pool's fill type chooses. None exactly if no task
/// fits. A task fits only if all that it depends on is satisfied. The only error is out of memory. It goes once over the nodes and the
/// jobs, and again over the nodes for each job whose preparation is waited for and has failed on some node. It goes over the tasks only
/// for a job that could be the next: to count the placed ones, if the job has a limit of them; and, if the first active task for which
/// enough slots are free still waits for others, to find a ready one.
pub fn place_first(alloc: Global, indexed: &IndexedTables) -> Result<Option<Plan>, NoMemory>
    requires keys { KeysAreDistinct indexed.now.state }
    requires numbers { NumbersAreNew indexed.now.state }
    requires fitting { TasksAreFitting indexed.now.state }
    requires rows { RowsAreValid indexed.now.state }
    requires slots { SlotsSuffice indexed.now.state }
    requires pools { Each (λ node. has_pool_row indexed.now.state node.pool) indexed.now.state.nodes }
    ensures { IfOk result (IsRule (place_first indexed.now.state) indexed.now.state) }
{
    if !has_number_left(indexed.tables().next_run()) {
        return Ok(None);
    }
    let ledger = ledger_of(alloc, indexed)?;
    place_by_ledger(alloc, indexed, &ledger)
}
