//! Taking of runs.
ghost use Rattle.std.specs.Prelude.{◌≡◌, ◌++◌, IfOk, OnOk, Some};
ghost use Rattle.std.specs.List.{find};
ghost use Rattle.std.specs.Option.{option_copied};
ghost use Rattle.bt_rows.specs.declared.refusal.Refusal.TheVariants.{RunNotFound};
ghost use Rattle.batch_model.specs.Events.{accept, for_row, is_prep_of_work, is_task_of_run, run_taken, served, started_task, take_run, taken_run};
ghost use Rattle.batch_model.specs.Rows.{run_of};
ghost use Rattle.batch_model.specs.Runs.{is_work};
ghost use Rattle.batch_model.specs.WellFormed.{KeysAreDistinct};
ghost use Rattle.machine_plans.specs.Plans.{IsAnswer, IsPlanOf, with_moment};
ghost use Rattle.node_machine.specs.Takes.{served_puts, started_puts, take_changes};

use bt_base::{Duplicate, Fail, NoMemory};
use bt_rows::plan::Plan;
use bt_rows::prep::PrepRow;
use bt_rows::refusal::Refusal;
use bt_rows::reply::Reply;
use bt_rows::run::{RunKind, RunRow, RunState};
use bt_rows::tables::{Change, Tables};
use bt_rows::task::TaskRow;
use machine_plans::reply_listed;
use std::alloc::Global;

/// The task that the run names.
pub fn find_task_of<'a>(tables: &'a Tables, run: &RunRow) -> Option<&'a TaskRow>
    ensures { option_copied result ≡ find (is_task_of_run run.now) tables.now.state.tasks }
{
    match &run.job {
        None => None,
        Some(job) => match &run.task {
            None => None,
            Some(id) => tables.find_task(job, id),
        },
    }
}

/// The run, taken at `now`.
fn taken_run(now: u64, run: &RunRow) -> Result<RunRow, NoMemory>
    ensures { IfOk result (λ taken. taken ≡ taken_run now run.now) }
{
    let mut taken = run.copy()?;
    taken.state = RunState::Taken;
    taken.taken = Some(now);
    Ok(taken)
}

/// The task, started at `now` if it has not started yet.
fn started_task(now: u64, task: &TaskRow) -> Result<TaskRow, NoMemory>
    ensures { IfOk result (λ started. started ≡ started_task now task.now) }
{
    let mut started = task.copy()?;
    started.started = Some(task.started.unwrap_or(now));
    Ok(started)
}

/// Whether a run of this kind is a task's.
fn is_work(kind: RunKind) -> bool
    ensures { result ≡ is_work kind }
{
    matches!(kind, RunKind::Task | RunKind::Coordination)
}

/// The preparation of the run's job on its node, if the run is a task's.
fn find_prep_of<'a>(tables: &'a Tables, run: &RunRow) -> Option<&'a PrepRow>
    ensures { option_copied result ≡ find (is_prep_of_work run.now) tables.now.state.preps }
{
    if !is_work(run.kind) {
        return None;
    }
    match &run.job {
        None => None,
        Some(job) => tables.find_prep(job, run.node),
    }
}

/// The preparation, on whose node a task of its job was started.
fn served(prep: &PrepRow) -> Result<PrepRow, NoMemory>
    ensures { IfOk result (λ row. row ≡ served prep.now) }
{
    let mut row = prep.copy()?;
    row.ran = true;
    Ok(row)
}

/// Adds the put of the run's task, started at `now`.
fn push_started(
    changes: &mut Vec<Change>,
    tables: &Tables,
    now: u64,
    run: &RunRow,
) -> Result<(), NoMemory>
    ensures { OnOk result (changes.new.items ≡ changes.old.items ++ started_puts now run.now tables.now.state) }
{
    let alloc = *changes.allocator();
    if let Some(task) = find_task_of(tables, run) {
        changes.push(Change::put_task(alloc, started_task(now, task)?)?)?;
    }
    Ok(())
}

/// Adds the put of the preparation of the run's job on its node, if the run is a task's.
fn push_served(changes: &mut Vec<Change>, tables: &Tables, run: &RunRow) -> Result<(), NoMemory>
    ensures { OnOk result (changes.new.items ≡ changes.old.items ++ served_puts run.now tables.now.state) }
{
    let alloc = *changes.allocator();
    if let Some(prep) = find_prep_of(tables, run) {
        changes.push(Change::put_prep(alloc, served(prep)?)?)?;
    }
    Ok(())
}

/// The changes that take the run: its task is started, and the preparation of its job on its node has served a task.
fn take_changes(
    alloc: Global,
    tables: &Tables,
    now: u64,
    run: &RunRow,
) -> Result<Vec<Change>, NoMemory>
    ensures { IfOk result (λ changes. changes.items ≡ take_changes now run.now tables.now.state) }
{
    let taken = taken_run(now, run)?;
    let mut changes = vec![in alloc; Change::put_run(alloc, taken)?]?;
    push_started(&mut changes, tables, now, run)?;
    push_served(&mut changes, tables, run)?;
    Ok(changes)
}

/// The plan that takes a run, starts its task, and marks that the preparation of its job on its node has served.
fn put_taken(alloc: Global, tables: &Tables, now: u64, run: &RunRow) -> Result<Plan, NoMemory>
    requires keys { KeysAreDistinct tables.now.state }
    requires there { run_of tables.now.state run.now.number ≡ Some run.now }
    ensures { IfOk result (IsPlanOf (accept 200 (run_taken (with_moment now tables.now.state) run.now)) tables.now.state) }
{
    let changes = take_changes(alloc, tables, now, run)?;
    reply_listed(alloc, tables, now, Reply::Status(200), changes)
}

/// The answer to `take` of the run that was found. Only a queued run is taken.
fn take_found(alloc: Global, tables: &Tables, now: u64, run: &RunRow) -> Result<Plan, Fail<Refusal>>
    requires keys { KeysAreDistinct tables.now.state }
    requires there { run_of tables.now.state run.now.number ≡ Some run.now }
    ensures { IsAnswer now (take_run (with_moment now tables.now.state) run.now) tables.now.state result }
{
    match run.state {
        RunState::Queued => Ok(put_taken(alloc, tables, now, run)?),
        RunState::Ended(_) => Err(Fail::Why(Refusal::RunAlreadyEnded)),
        RunState::Withdrawn => Err(Fail::Why(Refusal::RunWithdrawn)),
        RunState::Taken => Err(Fail::Why(Refusal::RunAlreadyTaken)),
        RunState::Waiting => Err(Fail::Why(Refusal::RunWaiting)),
    }
}

/// The answer to `take`.
pub fn take_run(
    alloc: Global,
    tables: &Tables,
    now: u64,
    number: u64,
) -> Result<Plan, Fail<Refusal>>
    requires { KeysAreDistinct tables.now.state }
    ensures { IsAnswer now (for_row (with_moment now tables.now.state) RunNotFound (take_run (with_moment now tables.now.state)) (run_of (with_moment now tables.now.state) number)) tables.now.state result }
{
    match tables.find_run(number) {
        Some(run) => take_found(alloc, tables, now, run),
        None => Err(Fail::Why(Refusal::RunNotFound)),
    }
}
