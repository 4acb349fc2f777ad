//! Endings of preparation runs.
ghost use Rattle.std.specs.Prelude.{◌≡◌, ◌++◌, IfOk, IsTrue, OnOk};
ghost use Rattle.std.specs.Option.{option_copied};
ghost use Rattle.bt_rows.specs.declared.tables.Change.TheVariants.{PutRun};
ghost use Rattle.batch_model.specs.Events.{accept, ended_run};
ghost use Rattle.batch_model.specs.Finding.{has_number_left};
ghost use Rattle.batch_model.specs.Preparing.{give_up, prepare_again, preparation_done, preparation_ended_at, preparation_failed, preparation_of};
ghost use Rattle.batch_model.specs.Preps.{change_prep, failed_preparation};
ghost use Rattle.batch_model.specs.Runs.{job_run};
ghost use Rattle.batch_model.specs.Variants.{PrepRun};
ghost use Rattle.batch_model.specs.WellFormed.{KeysAreDistinct};
ghost use Rattle.machine_plans.specs.Plans.{IsPlanOf, with_moment};
ghost use Rattle.row_changes.specs.Puts.{puts_of};
ghost use Rattle.job_machine.specs.Endings.{IsAtPrep, queued_run, spent_stops, with_end};

use crate::preps::{counted_preparation, prepared, queued, spent_preparation};
use bt_base::{NoMemory, Shared};
use bt_rows::plan::Plan;
use bt_rows::pool::StartTask;
use bt_rows::prep::PrepRow;
use bt_rows::reply::Reply;
use bt_rows::run::{Ending, RunKind, RunRow};
use bt_rows::tables::{Change, Tables};
use machine_plans::{accept_one, accept_two, ended_run, job_run, reply_listed};
use std::alloc::Global;
use table_scans::{is_success, is_tried_again};
use task_stops::{failed_preparation, push_requeue_of_waiting, waits_on};

/// The run, ended so at `now`, in milliseconds since 1970, in a block of its own.
fn ended_block(
    alloc: Global,
    now: u64,
    ending: Ending,
    run: &RunRow,
) -> Result<Shared<RunRow>, NoMemory>
    ensures { IfOk result (λ row. row ≡ ended_run now ending run.now) }
{
    Shared::new(alloc, ended_run(now, ending, run)?)
}

/// The preparation task of the preparation's job.
fn preparation_of<'a>(tables: &'a Tables, prep: &PrepRow) -> Option<&'a StartTask>
    ensures { option_copied result ≡ preparation_of tables.now.state prep.now }
{
    match tables.find_job(&prep.job) {
        None => None,
        Some(job) => job.prep.as_ref(),
    }
}

/// The plan that ends a preparation run that was asked to stop: its preparation has failed.
fn put_stopped(
    alloc: Global,
    tables: &Tables,
    now: u64,
    ending: Ending,
    run: &RunRow,
    prep: &PrepRow,
) -> Result<Plan, NoMemory>
    requires { IsAtPrep tables.now.state run.now prep.now }
    ensures { IfOk result (IsPlanOf (accept 200 (change_prep prep.now failed_preparation (with_end now ending run.now tables.now.state))) tables.now.state) }
{
    let ended = ended_block(alloc, now, ending, run)?;
    let failed = Shared::new(alloc, failed_preparation(prep)?)?;
    accept_two(
        alloc,
        tables,
        now,
        200,
        Change::PutRun(ended),
        Change::PutPrep(failed),
    )
}

/// The run, queued, if it waits for the preparation.
fn queued_run(prep: &PrepRow, run: &RunRow) -> Result<Option<RunRow>, NoMemory>
    ensures { IfOk result (λ row. row ≡ queued_run prep.now run.now) }
{
    if waits_on(prep, run) {
        Ok(Some(queued(run)?))
    } else {
        Ok(None)
    }
}

/// Adds the puts of the runs that waited for the preparation, and are queued.
fn push_queued(changes: &mut Vec<Change>, tables: &Tables, prep: &PrepRow) -> Result<(), NoMemory>
    ensures { OnOk result (changes.new.items ≡ changes.old.items ++ puts_of PutRun (queued_run prep.now) tables.now.state.runs) }
{
    let alloc = *changes.allocator();
    for run in tables.runs() {
        if let Some(row) = queued_run(prep, run)? {
            changes.push(Change::put_run(alloc, row)?)?;
        }
    }
    Ok(())
}

/// The plan that ends a preparation run with success: the preparation is completed, and the runs that waited for it are queued.
fn put_done(
    alloc: Global,
    tables: &Tables,
    now: u64,
    ending: Ending,
    run: &RunRow,
    prep: &PrepRow,
) -> Result<Plan, NoMemory>
    requires { IsAtPrep tables.now.state run.now prep.now }
    ensures { IfOk result (IsPlanOf (accept 200 (preparation_done prep.now (with_end now ending run.now tables.now.state))) tables.now.state) }
{
    let ended = ended_block(alloc, now, ending, run)?;
    let done = Shared::new(alloc, prepared(prep)?)?;
    let mut changes = vec![in alloc; Change::PutRun(ended), Change::PutPrep(done)]?;
    push_queued(&mut changes, tables, prep)?;
    reply_listed(alloc, tables, now, Reply::Status(200), changes)
}

/// The next run of the preparation task, made at `now`, in milliseconds since 1970, in a block of its own.
fn prepared_again(
    alloc: Global,
    tables: &Tables,
    now: u64,
    run: &RunRow,
    prep: &PrepRow,
    preparation: &StartTask,
) -> Result<Shared<RunRow>, NoMemory>
    ensures { IfOk result (λ again. again ≡ job_run (with_moment now tables.now.state) prep.now.node run.now.pool PrepRun preparation.now.line prep.now.job) }
{
    let again = job_run(
        tables,
        now,
        prep.node,
        &run.pool,
        RunKind::Prep,
        &preparation.line,
        &prep.job,
    )?;
    Shared::new(alloc, again)
}

/// The plan that ends a preparation run after whose failure the preparation is run again.
fn put_again(
    alloc: Global,
    tables: &Tables,
    now: u64,
    ending: Ending,
    run: &RunRow,
    prep: &PrepRow,
    preparation: &StartTask,
) -> Result<Plan, NoMemory>
    requires there { IsAtPrep tables.now.state run.now prep.now }
    requires left { IsTrue (has_number_left tables.now.state.next_run) }
    ensures { IfOk result (IsPlanOf (accept 200 (prepare_again prep.now run.now preparation.now (with_end now ending run.now tables.now.state))) tables.now.state) }
{
    let ended = ended_block(alloc, now, ending, run)?;
    let counted = Shared::new(alloc, counted_preparation(prep)?)?;
    let again = prepared_again(alloc, tables, now, run, prep, preparation)?;
    let counters = Change::Counters(tables.next_node(), tables.next_run() + 1);
    let changes = vec![in alloc;
        Change::PutRun(ended),
        Change::PutPrep(counted),
        Change::PutRun(again),
        counters,
    ]?;
    reply_listed(alloc, tables, now, Reply::Status(200), changes)
}

/// Adds the changes that requeue the tasks that wait for the preparation, if it is waited for.
fn push_stops(
    changes: &mut Vec<Change>,
    tables: &Tables,
    now: u64,
    prep: &PrepRow,
    preparation: &StartTask,
) -> Result<(), NoMemory>
    requires { KeysAreDistinct tables.now.state }
    ensures { OnOk result (changes.new.items ≡ changes.old.items ++ spent_stops now preparation.now prep.now tables.now.state) }
{
    if preparation.wait {
        push_requeue_of_waiting(changes, tables, now, prep)
    } else {
        Ok(())
    }
}

/// The plan that ends a preparation run after whose failure the preparation is not run again: it has failed, and if it is waited for,
/// the tasks that wait for it are requeued.
fn put_given_up(
    alloc: Global,
    tables: &Tables,
    now: u64,
    ending: Ending,
    run: &RunRow,
    prep: &PrepRow,
    preparation: &StartTask,
) -> Result<Plan, NoMemory>
    requires { IsAtPrep tables.now.state run.now prep.now }
    ensures { IfOk result (IsPlanOf (accept 200 (give_up prep.now preparation.now (with_end now ending run.now tables.now.state))) tables.now.state) }
{
    let ended = ended_block(alloc, now, ending, run)?;
    let spent = Shared::new(alloc, spent_preparation(prep)?)?;
    let mut changes = vec![in alloc; Change::PutRun(ended), Change::PutPrep(spent)]?;
    push_stops(&mut changes, tables, now, prep, preparation)?;
    reply_listed(alloc, tables, now, Reply::Status(200), changes)
}

/// The plan that ends a preparation run with a failure of this preparation task.
fn put_failure(
    alloc: Global,
    tables: &Tables,
    now: u64,
    ending: Ending,
    run: &RunRow,
    prep: &PrepRow,
    preparation: &StartTask,
) -> Result<Plan, NoMemory>
    requires { IsAtPrep tables.now.state run.now prep.now }
    ensures { IfOk result (IsPlanOf (accept 200 (preparation_failed prep.now run.now preparation.now (with_end now ending run.now tables.now.state))) tables.now.state) }
{
    if is_tried_again(tables, prep.tries + 1, preparation) {
        put_again(alloc, tables, now, ending, run, prep, preparation)
    } else {
        put_given_up(alloc, tables, now, ending, run, prep, preparation)
    }
}

/// The plan that ends a run of the preparation: one that was asked to stop has failed, code 0 completes it, and another ending is a
/// failure.
pub fn end_preparation(
    alloc: Global,
    tables: &Tables,
    now: u64,
    ending: Ending,
    run: &RunRow,
    prep: &PrepRow,
) -> Result<Plan, NoMemory>
    requires { IsAtPrep tables.now.state run.now prep.now }
    ensures { IfOk result (IsPlanOf (accept 200 (preparation_ended_at prep.now run.now ending (with_end now ending run.now tables.now.state))) tables.now.state) }
{
    if run.asked {
        return put_stopped(alloc, tables, now, ending, run, prep);
    }
    if is_success(ending) {
        return put_done(alloc, tables, now, ending, run, prep);
    }
    match preparation_of(tables, prep) {
        Some(preparation) => put_failure(alloc, tables, now, ending, run, prep, preparation),
        None => {
            let ended = ended_block(alloc, now, ending, run)?;
            accept_one(alloc, tables, now, 200, Change::PutRun(ended))
        }
    }
}
