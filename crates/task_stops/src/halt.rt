//! The changes that halt preparations: those of a job, or those on nodes that leave.
ghost use Rattle.std.specs.Prelude.{◌≡◌, ◌&&◌, ◌++◌, IfOk, OnOk};
ghost use Rattle.bt_rows.specs.declared.tables.Change.TheVariants.{PutPrep, PutRun};
ghost use Rattle.batch_model.specs.Preps.{failed_preparation};
ghost use Rattle.batch_model.specs.Runs.{is_at_prep};
ghost use Rattle.batch_model.specs.Stops.{has_run_cut_off, is_cut_off};
ghost use Rattle.row_changes.specs.Puts.{puts_of};
ghost use Rattle.task_stops.specs.HaltChanges.{concerns, concerns_prep, failed_prep, halt_changes, halted_preparation, is_halted_preparation};

use crate::leaving::{LeavingNodes, has_leaving, is_on};
use crate::rows::halted;
use bt_base::{Duplicate, Id, NoMemory};
use bt_rows::prep::{PrepRow, PrepState};
use bt_rows::run::{RunKind, RunRow, RunState};
use bt_rows::tables::{Change, Tables};
use table_scans::{is_at_prep, is_unended, prepares};

/// Which preparations are halted.
#[derive(Drop)]
pub enum Halted {
    /// Those of a job.
    OfJob(Id),
    /// Those on nodes that leave.
    OnNodes(LeavingNodes),
}

/// The preparation, which has failed.
pub fn failed_preparation(prep: &PrepRow) -> Result<PrepRow, NoMemory>
    ensures { IfOk result (λ row. row ≡ failed_preparation prep.now) }
{
    let mut row = prep.copy()?;
    row.state = PrepState::Failed;
    Ok(row)
}

/// Whether the run is one of these, if it is an unended preparation run.
fn concerns(tables: &Tables, which: &Halted, run: &RunRow) -> bool
    ensures { result ≡ concerns tables.now.state which.now run.now }
{
    match which {
        Halted::OfJob(job) => prepares(job, run),
        Halted::OnNodes(nodes) => is_on(tables, nodes, run),
    }
}

/// Whether the preparation is one of these.
fn concerns_prep(tables: &Tables, which: &Halted, prep: &PrepRow) -> bool
    ensures { result ≡ concerns_prep tables.now.state which.now prep.now }
{
    match which {
        Halted::OfJob(job) => prep.job.same(job),
        Halted::OnNodes(nodes) => has_leaving(tables, nodes, prep.node),
    }
}

/// Whether the run is a queued preparation run of these.
fn is_cut_off(tables: &Tables, which: &Halted, run: &RunRow) -> bool
    ensures { result ≡ is_cut_off (concerns tables.now.state which.now) run.now }
{
    run.kind == RunKind::Prep && run.state == RunState::Queued && concerns(tables, which, run)
}

/// Whether the run is a queued preparation run of these, and of this preparation.
fn is_cut_off_at(tables: &Tables, which: &Halted, prep: &PrepRow, run: &RunRow) -> bool
    ensures { result ≡ (is_cut_off (concerns tables.now.state which.now) run.now && is_at_prep prep.now run.now) }
{
    is_cut_off(tables, which, run) && is_at_prep(prep, run)
}

/// Whether the preparation is one of these, and its run is queued.
fn has_run_cut_off(tables: &Tables, which: &Halted, prep: &PrepRow) -> bool
    ensures { result ≡ has_run_cut_off (concerns tables.now.state which.now) tables.now.state prep.now }
{
    concerns_prep(tables, which, prep)
        && tables
            .runs()
            .any(|run| is_cut_off_at(tables, which, prep, run))
}

/// Whether the run is an unended preparation run of these.
fn is_halted_preparation(tables: &Tables, which: &Halted, run: &RunRow) -> bool
    ensures { result ≡ is_halted_preparation (concerns tables.now.state which.now) run.now }
{
    run.kind == RunKind::Prep && is_unended(run.state) && concerns(tables, which, run)
}

/// The run after it is halted at `now`, if it is an unended preparation run of these.
fn halted_preparation(
    tables: &Tables,
    now: u64,
    which: &Halted,
    run: &RunRow,
) -> Result<Option<RunRow>, NoMemory>
    ensures { IfOk result (λ row. row ≡ halted_preparation (concerns tables.now.state which.now) now run.now) }
{
    if is_halted_preparation(tables, which, run) {
        Ok(Some(halted(now, run)?))
    } else {
        Ok(None)
    }
}

/// The preparation, which has failed, if it is one of these and its run is queued.
fn failed_prep(tables: &Tables, which: &Halted, prep: &PrepRow) -> Result<Option<PrepRow>, NoMemory>
    ensures { IfOk result (λ row. row ≡ failed_prep (concerns tables.now.state which.now) tables.now.state prep.now) }
{
    if has_run_cut_off(tables, which, prep) {
        Ok(Some(failed_preparation(prep)?))
    } else {
        Ok(None)
    }
}

/// Adds the puts of the preparation runs that are halted.
fn push_halted(
    changes: &mut Vec<Change>,
    tables: &Tables,
    now: u64,
    which: &Halted,
) -> Result<(), NoMemory>
    ensures { OnOk result (changes.new.items ≡ changes.old.items ++ puts_of PutRun (halted_preparation (concerns tables.now.state which.now) now) tables.now.state.runs) }
{
    let alloc = *changes.allocator();
    for run in tables.runs() {
        if let Some(row) = halted_preparation(tables, now, which, run)? {
            changes.push(Change::put_run(alloc, row)?)?;
        }
    }
    Ok(())
}

/// Adds the puts of the preparations that have failed, since their runs were not taken.
fn push_failed(changes: &mut Vec<Change>, tables: &Tables, which: &Halted) -> Result<(), NoMemory>
    ensures { OnOk result (changes.new.items ≡ changes.old.items ++ puts_of PutPrep (failed_prep (concerns tables.now.state which.now) tables.now.state) tables.now.state.preps) }
{
    let alloc = *changes.allocator();
    for prep in tables.preps() {
        if let Some(row) = failed_prep(tables, which, prep)? {
            changes.push(Change::put_prep(alloc, row)?)?;
        }
    }
    Ok(())
}

/// Adds the changes that halt these preparations at `now`, in milliseconds since 1970: their unended runs are halted, and a preparation
/// whose run was not taken has failed. The only error is out of memory.
pub fn push_halt(
    changes: &mut Vec<Change>,
    tables: &Tables,
    now: u64,
    which: &Halted,
) -> Result<(), NoMemory>
    ensures { OnOk result (changes.new.items ≡ changes.old.items ++ halt_changes (concerns tables.now.state which.now) now tables.now.state) }
{
    push_halted(changes, tables, now, which)?;
    push_failed(changes, tables, which)
}
