//! The plan that drops a pool that is being deleted and has no nodes, with its samples and its start runs.
ghost use Rattle.std.specs.Prelude.{◌≡◌, ◌++◌, IfOk, OnOk};
ghost use Rattle.batch_model.specs.Dues.{is_start_run_of, pool_dropped};
ghost use Rattle.batch_model.specs.WellFormed.{KeysAreDistinct};
ghost use Rattle.machine_plans.specs.Plans.{IsPlanOf, answer_of_step};
ghost use Rattle.row_changes.specs.Puts.{changes_where, key_of_sample, run_drop, sample_drop};
ghost use Rattle.pool_resize.specs.Changes.{is_sample_in, removal};

use bt_base::{Duplicate, Id, List, NoMemory};
use bt_rows::due::{Due, ResizeEnd};
use bt_rows::plan::Plan;
use bt_rows::pool::PoolRow;
use bt_rows::reply::Reply;
use bt_rows::run::{RunKind, RunRow};
use bt_rows::sample::{SampleKey, SampleRow};
use bt_rows::tables::{Change, Tables};
use std::alloc::Global;

/// The key of a sample.
fn key_of_sample(sample: &SampleRow) -> Result<SampleKey, NoMemory>
    ensures { IfOk result (λ key. key ≡ key_of_sample sample.now) }
{
    Ok(SampleKey {
        pool: sample.pool.copy()?,
        metric: sample.metric,
        label: sample.label,
    })
}

/// Adds the drops of the pool's samples.
fn drop_samples(changes: &mut Vec<Change>, tables: &Tables, pool: &Id) -> Result<(), NoMemory>
    ensures { OnOk result (changes.new.items ≡ changes.old.items ++ changes_where sample_drop (is_sample_in pool.now) tables.now.state.samples) }
{
    for sample in tables.samples() {
        if sample.pool.same(pool) {
            changes.push(Change::DropSample(key_of_sample(sample)?))?;
        }
    }
    Ok(())
}

/// Whether the run is a start run of the pool.
fn is_start_run_of(pool: &Id, run: &RunRow) -> bool
    ensures { result ≡ is_start_run_of pool.now run.now }
{
    run.kind == RunKind::Start && run.pool.same(pool)
}

/// Adds the drops of the pool's start runs.
fn drop_start_runs(changes: &mut Vec<Change>, tables: &Tables, pool: &Id) -> Result<(), NoMemory>
    ensures { OnOk result (changes.new.items ≡ changes.old.items ++ changes_where run_drop (is_start_run_of pool.now) tables.now.state.runs) }
{
    for run in tables.runs() {
        if is_start_run_of(pool, run) {
            changes.push(Change::DropRun(run.number))?;
        }
    }
    Ok(())
}

/// The changes that drop the pool with this id.
fn removal(alloc: Global, tables: &Tables, pool: &Id) -> Result<Vec<Change>, NoMemory>
    ensures { IfOk result (λ changes. changes.items ≡ removal pool.now tables.now.state) }
{
    let mut changes = vec![in alloc; Change::DropPool(pool.copy()?)]?;
    drop_samples(&mut changes, tables, pool)?;
    drop_start_runs(&mut changes, tables, pool)?;
    Ok(changes)
}

/// The plan that drops the pool, with its samples and its start runs.
pub fn pool_dropped(alloc: Global, tables: &Tables, pool: &PoolRow) -> Result<Plan, NoMemory>
    requires { KeysAreDistinct tables.now.state }
    ensures { IfOk result (IsPlanOf (answer_of_step (pool_dropped tables.now.state pool.now)) tables.now.state) }
{
    let due = Due::PoolResized(pool.id.copy()?, ResizeEnd::Removed);
    let changes = removal(alloc, tables, &pool.id)?;
    Ok(Plan {
        reply: Reply::Step(due),
        changes: List::of_vec(changes),
    })
}
