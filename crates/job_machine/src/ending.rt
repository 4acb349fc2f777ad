//! Endings of runs that are not start runs.
ghost use Rattle.std.specs.Prelude.{◌≡◌, IfOk, Some, false, true};
ghost use Rattle.std.specs.Option.{option_copied};
ghost use Rattle.bt_rows.specs.declared.refusal.Refusal.TheVariants.{RunNotFound};
ghost use Rattle.batch_model.specs.Events.{accept, end_run, for_row, run_ended};
ghost use Rattle.batch_model.specs.Preparing.{prep_of_run, preparation_ended, release_ended, released};
ghost use Rattle.batch_model.specs.Preps.{change_prep};
ghost use Rattle.batch_model.specs.Rows.{run_of};
ghost use Rattle.batch_model.specs.Runs.{is_preparation, is_start, is_taken};
ghost use Rattle.batch_model.specs.Sound.{IsSound};
ghost use Rattle.batch_model.specs.WellFormed.{KeysAreDistinct};
ghost use Rattle.machine_plans.specs.Plans.{IsAnswer, IsPlanOf, with_moment};
ghost use Rattle.job_machine.specs.Endings.{with_end};
ghost use Rattle.table_scans.specs.Runs.{is_start_number};

use crate::preparing::end_preparation;
use crate::preps::released;
use bt_base::{Fail, NoMemory, Shared};
use bt_rows::plan::{Plan, View};
use bt_rows::prep::PrepRow;
use bt_rows::refusal::Refusal;
use bt_rows::run::{Ending, RunKind, RunRow, RunState};
use bt_rows::tables::{Change, Tables};
use machine_plans::{accept_one, accept_two, ended_run};
use std::alloc::Global;

/// The preparation of the run's job on its node.
fn prep_of_run<'a>(tables: &'a Tables, run: &RunRow) -> Option<&'a PrepRow>
    ensures { option_copied result ≡ prep_of_run tables.now.state run.now }
{
    match &run.job {
        None => None,
        Some(job) => tables.find_prep(job, run.node),
    }
}

/// The plan that ends a run, and does nothing else.
fn put_end(
    alloc: Global,
    tables: &Tables,
    now: u64,
    ending: Ending,
    run: &RunRow,
) -> Result<Plan, NoMemory>
    requires keys { KeysAreDistinct tables.now.state }
    requires there { run_of tables.now.state run.now.number ≡ Some run.now }
    ensures { IfOk result (IsPlanOf (accept 200 (with_end now ending run.now tables.now.state)) tables.now.state) }
{
    let ended = Shared::new(alloc, ended_run(now, ending, run)?)?;
    accept_one(alloc, tables, now, 200, Change::PutRun(ended))
}

/// The plan that ends a preparation run.
fn put_prep_ended(
    alloc: Global,
    view: &View,
    ending: Ending,
    run: &RunRow,
) -> Result<Plan, NoMemory>
    requires sound { IsSound view.now.seats view.now.tables.now.state }
    requires there { run_of view.now.tables.now.state run.now.number ≡ Some run.now }
    requires kind { is_preparation run.now.kind ≡ true }
    requires taken { is_taken run.now.state ≡ true }
    ensures { IfOk result (IsPlanOf (accept 200 (preparation_ended run.now ending (with_end view.entry.now.now ending run.now view.entry.now.tables.now.state))) view.entry.now.tables.now.state) }
{
    match prep_of_run(view.tables, run) {
        Some(prep) => end_preparation(alloc, view.tables, view.now, ending, run, prep),
        None => put_end(alloc, view.tables, view.now, ending, run),
    }
}

/// The plan that ends a release run of this preparation's job on its node: its release task has ended.
fn put_released(
    alloc: Global,
    tables: &Tables,
    now: u64,
    ending: Ending,
    run: &RunRow,
    prep: &PrepRow,
) -> Result<Plan, NoMemory>
    requires keys { KeysAreDistinct tables.now.state }
    requires there { run_of tables.now.state run.now.number ≡ Some run.now }
    requires found { prep_of_run tables.now.state run.now ≡ Some prep.now }
    ensures { IfOk result (IsPlanOf (accept 200 (change_prep prep.now released (with_end now ending run.now tables.now.state))) tables.now.state) }
{
    let ended = Shared::new(alloc, ended_run(now, ending, run)?)?;
    let done = Shared::new(alloc, released(prep)?)?;
    accept_two(
        alloc,
        tables,
        now,
        200,
        Change::PutRun(ended),
        Change::PutPrep(done),
    )
}

/// The plan that ends a release run.
fn put_release_ended(
    alloc: Global,
    tables: &Tables,
    now: u64,
    ending: Ending,
    run: &RunRow,
) -> Result<Plan, NoMemory>
    requires keys { KeysAreDistinct tables.now.state }
    requires there { run_of tables.now.state run.now.number ≡ Some run.now }
    ensures { IfOk result (IsPlanOf (accept 200 (release_ended run.now (with_end now ending run.now tables.now.state))) tables.now.state) }
{
    match prep_of_run(tables, run) {
        Some(prep) => put_released(alloc, tables, now, ending, run, prep),
        None => put_end(alloc, tables, now, ending, run),
    }
}

/// The plan that ends a run that is not a start run. The ending of a preparation or release run changes its preparation.
fn put_ended(alloc: Global, view: &View, ending: Ending, run: &RunRow) -> Result<Plan, NoMemory>
    requires sound { IsSound view.now.seats view.now.tables.now.state }
    requires there { run_of view.now.tables.now.state run.now.number ≡ Some run.now }
    requires other { is_start run.now.kind ≡ false }
    requires taken { is_taken run.now.state ≡ true }
    ensures { IfOk result (IsPlanOf (accept 200 (run_ended (with_moment view.entry.now.now view.entry.now.tables.now.state) ending run.now)) view.entry.now.tables.now.state) }
{
    match run.kind {
        RunKind::Prep => put_prep_ended(alloc, view, ending, run),
        RunKind::Release => put_release_ended(alloc, view.tables, view.now, ending, run),
        RunKind::Start | RunKind::Task | RunKind::Coordination => {
            put_end(alloc, view.tables, view.now, ending, run)
        }
    }
}

/// The answer to `end` of the run that was found. Only a taken run ends.
fn end_found(
    alloc: Global,
    view: &View,
    ending: Ending,
    run: &RunRow,
) -> Result<Plan, Fail<Refusal>>
    requires sound { IsSound view.now.seats view.now.tables.now.state }
    requires there { run_of view.now.tables.now.state run.now.number ≡ Some run.now }
    requires other { is_start run.now.kind ≡ false }
    ensures { IsAnswer view.entry.now.now (end_run (with_moment view.entry.now.now view.entry.now.tables.now.state) ending run.now) view.entry.now.tables.now.state result }
{
    match run.state {
        RunState::Taken => Ok(put_ended(alloc, view, ending, run)?),
        RunState::Ended(_) => Err(Fail::Why(Refusal::RunAlreadyEnded)),
        RunState::Withdrawn => Err(Fail::Why(Refusal::RunWithdrawn)),
        RunState::Waiting | RunState::Queued => Err(Fail::Why(Refusal::RunNotTaken)),
    }
}

/// The answer to `end` of a run that is not a start run.
pub fn end_run(
    alloc: Global,
    view: &View,
    number: u64,
    ending: Ending,
) -> Result<Plan, Fail<Refusal>>
    requires sound { IsSound view.now.seats view.now.tables.now.state }
    requires other { is_start_number view.now.tables.now.state number ≡ false }
    ensures { IsAnswer view.entry.now.now (for_row (with_moment view.entry.now.now view.entry.now.tables.now.state) RunNotFound (end_run (with_moment view.entry.now.now view.entry.now.tables.now.state) ending) (run_of (with_moment view.entry.now.now view.entry.now.tables.now.state) number)) view.entry.now.tables.now.state result }
{
    match view.tables.find_run(number) {
        Some(run) => end_found(alloc, view, ending, run),
        None => Err(Fail::Why(Refusal::RunNotFound)),
    }
}
