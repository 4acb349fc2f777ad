//! The event `sample`.
ghost use Rattle.std.specs.Prelude.{◌≡◌, IfOk};
ghost use Rattle.bt_rows.specs.declared.refusal.Refusal.TheVariants.{PoolNotFound};
ghost use Rattle.batch_model.specs.Answers.{for_row};
ghost use Rattle.batch_model.specs.Rows.{pool_of};
ghost use Rattle.batch_model.specs.Scaling.{sample_pool};
ghost use Rattle.batch_model.specs.Variants.{CpuPercent};
ghost use Rattle.batch_model.specs.WellFormed.{PoolsAreFitting};
ghost use Rattle.machine_plans.specs.Plans.{IsAnswer, with_moment};
ghost use Rattle.pool_samples.specs.Changes.{added, sample_at};
ghost use Rattle.pool_samples.specs.Kept.{IsKept, taken_since};

use crate::kept::{Kept, kept_of, kept_samples};
use crate::sampling::{label_of, push_sample, sample_at};
use bt_base::{Fail, Id, Metric, NoMemory, Num};
use bt_rows::plan::Plan;
use bt_rows::pool::PoolRow;
use bt_rows::refusal::Refusal;
use bt_rows::tables::{Change, Tables};
use machine_plans::accept_listed;
use std::alloc::Global;

/// The samples of the processors of the pool that are kept.
fn kept_processors(tables: &Tables, pool: &Id) -> Kept
    ensures { IsKept tables.now.state pool.now CpuPercent result }
{
    kept_of(&kept_samples(tables, pool), Metric::CpuPercent)
}

/// The label of the newest sample, if it is not below this one.
fn taken_since(kept: Kept, label: u64) -> Option<u64>
    ensures { result ≡ taken_since label kept.newest }
{
    match kept.newest {
        Some(newest) if label <= newest => Some(newest),
        _ => None,
    }
}

/// The changes by which the sample of the processors is added at `now`, in milliseconds since 1970.
fn sample_changes(
    alloc: Global,
    now: u64,
    pool: &Id,
    kept: Kept,
    percentage: Num,
) -> Result<Vec<Change>, NoMemory>
    ensures { IfOk result (λ changes. changes.items ≡ added kept (sample_at now pool.now CpuPercent percentage)) }
{
    let mut changes = Vec::new(alloc);
    let sample = sample_at(now, pool, Metric::CpuPercent, percentage)?;
    push_sample(&mut changes, kept, sample)?;
    Ok(changes)
}

/// The answer to `sample` of the pool that was found.
fn sample_found(
    alloc: Global,
    tables: &Tables,
    now: u64,
    pool: &PoolRow,
    percentage: Num,
) -> Result<Plan, Fail<Refusal>>
    requires { PoolsAreFitting tables.now.state }
    ensures { IsAnswer now (sample_pool (with_moment now tables.now.state) percentage pool.now) tables.now.state result }
{
    let kept = kept_processors(tables, &pool.id);
    if let Some(newest) = taken_since(kept, label_of(now)) {
        return Err(Fail::Why(Refusal::SampleTooOld(newest)));
    }
    let changes = sample_changes(alloc, now, &pool.id, kept, percentage)?;
    Ok(accept_listed(alloc, tables, now, 200, changes)?)
}

/// The answer to `sample`: the processors' percentage of the pool with this id at `now`, in milliseconds since 1970. Refusals come in
/// this order: `PoolNotFound`, and `SampleTooOld` with the label of the newest sample if that is not below the label of `now`. The only
/// other error is out of memory. It goes once over the samples.
pub fn sample_pool(
    alloc: Global,
    tables: &Tables,
    now: u64,
    id: &Id,
    percentage: Num,
) -> Result<Plan, Fail<Refusal>>
    requires { PoolsAreFitting tables.now.state }
    ensures { IsAnswer now (for_row (with_moment now tables.now.state) PoolNotFound (λ pool. sample_pool (with_moment now tables.now.state) percentage pool) (pool_of (with_moment now tables.now.state) id.now)) tables.now.state result }
{
    match tables.find_pool(id) {
        Some(pool) => sample_found(alloc, tables, now, pool, percentage),
        None => Err(Fail::Why(Refusal::PoolNotFound)),
    }
}
