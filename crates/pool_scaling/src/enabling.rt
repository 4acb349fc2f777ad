//! The event `enable-autoscale`.
ghost use Rattle.std.specs.Prelude.{◌≡◌, Some, IfOk};
ghost use Rattle.std.specs.Option.{option_and_then, option_copied};
ghost use Rattle.bt_rows.specs.declared.refusal.Refusal.TheVariants.{PoolNotFound};
ghost use Rattle.batch_model.specs.Answers.{accept, for_row};
ghost use Rattle.batch_model.specs.Formulas.{formula_refusal};
ghost use Rattle.batch_model.specs.Pools.{is_steady};
ghost use Rattle.batch_model.specs.Rows.{pool_of};
ghost use Rattle.batch_model.specs.Scaling.{autoscale_enabled, enable_autoscale, enabled_now, new_scale, rescaled, scale_of, too_soon};
ghost use Rattle.batch_model.specs.WellFormed.{KeysAreDistinct};
ghost use Rattle.machine_plans.specs.Plans.{IsAnswer, IsPlanOf, with_moment};
ghost use Rattle.pool_scaling.specs.Evaluations.{IsChecked};
ghost use Rattle.pool_scaling.specs.Rows.{IsGivenRow, given_row};

use crate::evaluation::check_formula;
use bt_base::{Duplicate, Fail, Id, NoMemory, Shared, Text};
use bt_rows::event::ScaleSpec;
use bt_rows::limits::DEFAULT_INTERVAL;
use bt_rows::plan::Plan;
use bt_rows::pool::{Alloc, PoolRow};
use bt_rows::refusal::Refusal;
use bt_rows::scale::ScaleRow;
use bt_rows::tables::{Change, Tables};
use machine_plans::accept_two;
use std::alloc::Global;

/// The least time in milliseconds from one call that enables automatic scaling of a pool to the next, 30 seconds (Azure: Enable Pool Auto
/// Scale).
const LEAST_PAUSE: u64 = 30_000;

/// Whether the pool's number of nodes is not changing.
pub fn is_steady(alloc: Alloc) -> bool
    ensures { result ≡ is_steady alloc }
{
    alloc == Alloc::Steady
}

/// The refusal if automatic scaling was enabled less than 30 seconds before `now`.
fn too_soon(now: u64, enabled: Option<u64>) -> Option<Refusal>
    ensures { result ≡ option_and_then (too_soon now) enabled }
{
    match enabled {
        Some(since) if now.saturating_sub(since) < LEAST_PAUSE => {
            Some(Refusal::AutoscaleTooSoon(since))
        }
        _ => None,
    }
}

/// Refuses a given text that is not a formula.
fn check_given(alloc: Global, formula: &Option<Text>) -> Result<(), Fail<Refusal>>
    ensures { IsChecked (option_and_then formula_refusal formula.now) result }
{
    match formula {
        Some(formula) => check_formula(alloc, formula.as_str()),
        None => Ok(()),
    }
}

/// How a pool scales that did not, by a formula that is to be evaluated at `now`.
pub fn new_scale(now: u64, pool: &Id, formula: &Text, interval: u64) -> Result<ScaleRow, NoMemory>
    ensures { IfOk result (λ row. row ≡ new_scale now pool.now formula.now interval) }
{
    Ok(ScaleRow {
        pool: pool.copy()?,
        formula: formula.copy()?,
        interval,
        next: now,
        last: None,
    })
}

/// How a pool scales that did before, with the given parts in place of the old ones.
fn rescaled(now: u64, spec: &ScaleSpec, old: &ScaleRow) -> Result<ScaleRow, NoMemory>
    ensures { IfOk result (λ row. row ≡ rescaled now spec.now old.now) }
{
    let mut row = old.copy()?;
    if let Some(formula) = &spec.formula {
        row.formula = formula.copy()?;
    }
    row.interval = spec.interval.unwrap_or(old.interval);
    row.next = now;
    Ok(row)
}

/// How the pool scales from `now` on. It is refused if no formula is given, and none is there.
fn given_row(
    now: u64,
    spec: &ScaleSpec,
    pool: &Id,
    old: Option<&ScaleRow>,
) -> Result<ScaleRow, Fail<Refusal>>
    ensures { IsGivenRow (given_row now spec.now pool.now (option_copied old.entry)) result }
{
    match (old, &spec.formula) {
        (Some(old), _) => Ok(rescaled(now, spec, old)?),
        (None, Some(formula)) => {
            let interval = spec.interval.unwrap_or(DEFAULT_INTERVAL);
            Ok(new_scale(now, pool, formula, interval)?)
        }
        (None, None) => Err(Fail::Why(Refusal::PoolDoesNotScale)),
    }
}

/// The pool, for which automatic scaling is enabled at `now`.
fn enabled_now(now: u64, pool: &PoolRow) -> Result<PoolRow, NoMemory>
    ensures { IfOk result (λ row. row ≡ enabled_now now pool.now) }
{
    let mut row = pool.copy()?;
    row.enabled = Some(now);
    Ok(row)
}

/// The plan by which the pool scales as the row says.
fn put_enabled(
    alloc: Global,
    tables: &Tables,
    now: u64,
    spec: &ScaleSpec,
    pool: &PoolRow,
    scale: ScaleRow,
) -> Result<Plan, NoMemory>
    requires keys { KeysAreDistinct tables.now.state }
    requires there { pool_of tables.now.state pool.now.id ≡ Some pool.now }
    requires given { given_row now spec.now pool.now.id (scale_of tables.now.state pool.now.id) ≡ Some scale }
    ensures { IfOk result (IsPlanOf (accept 200 (autoscale_enabled (with_moment now tables.now.state) spec.now pool.now)) tables.now.state) }
{
    let scale = Shared::new(alloc, scale)?;
    let row = Shared::new(alloc, enabled_now(now, pool)?)?;
    accept_two(
        alloc,
        tables,
        now,
        200,
        Change::PutScale(scale),
        Change::PutPool(row),
    )
}

/// The answer to `enable-autoscale` of the pool that was found.
fn enable_found(
    alloc: Global,
    tables: &Tables,
    now: u64,
    spec: &ScaleSpec,
    pool: &PoolRow,
) -> Result<Plan, Fail<Refusal>>
    requires keys { KeysAreDistinct tables.now.state }
    requires there { pool_of tables.now.state pool.now.id ≡ Some pool.now }
    ensures { IsAnswer now (enable_autoscale (with_moment now tables.now.state) spec.now pool.now) tables.now.state result }
{
    if pool.deleting {
        return Err(Fail::Why(Refusal::PoolBeingDeleted));
    }
    if !is_steady(pool.alloc) {
        return Err(Fail::Why(Refusal::PoolBeingResized));
    }
    if let Some(refusal) = too_soon(now, pool.enabled) {
        return Err(Fail::Why(refusal));
    }
    check_given(alloc, &spec.formula)?;
    let scale = given_row(now, spec, &pool.id, tables.find_scale(&pool.id))?;
    Ok(put_enabled(alloc, tables, now, spec, pool, scale)?)
}

/// The answer to `enable-autoscale` at `now`, in milliseconds since 1970: `PoolNotFound`, `PoolBeingDeleted`, `PoolBeingResized`,
/// `AutoscaleTooSoon`, `PoolDoesNotScale` if no formula is given and none is there, `FormulaRefused`, or the pool scales by the given parts,
/// and its formula is to be evaluated now. The only other error is out of memory.
pub fn enable_autoscale(
    alloc: Global,
    tables: &Tables,
    now: u64,
    id: &Id,
    spec: &ScaleSpec,
) -> Result<Plan, Fail<Refusal>>
    requires { KeysAreDistinct tables.now.state }
    ensures { IsAnswer now (for_row (with_moment now tables.now.state) PoolNotFound (enable_autoscale (with_moment now tables.now.state) spec.now) (pool_of (with_moment now tables.now.state) id.now)) tables.now.state result }
{
    match tables.find_pool(id) {
        Some(pool) => enable_found(alloc, tables, now, spec, pool),
        None => Err(Fail::Why(Refusal::PoolNotFound)),
    }
}
