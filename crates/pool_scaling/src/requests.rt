//! The events `disable-autoscale` and `evaluate-autoscale`.
ghost use Rattle.std.specs.Prelude.{◌≡◌, ◌≤◌, Some, IfOk};
ghost use Rattle.bt_base.specs.Moments.{last_moment};
ghost use Rattle.bt_rows.specs.declared.refusal.Refusal.TheVariants.{PoolNotFound};
ghost use Rattle.bt_rows.specs.declared.reply.Reply.TheVariants.{Results};
ghost use Rattle.formula_trees.specs.View.{statements_of};
ghost use Rattle.formula_eval.specs.Statements.{evaluated};
ghost use Rattle.batch_model.specs.Answers.{accept, for_row};
ghost use Rattle.batch_model.specs.Formulas.{or_error, pool_metrics, ran_text, start_targets};
ghost use Rattle.batch_model.specs.Rows.{pool_of};
ghost use Rattle.batch_model.specs.Scaling.{disable_autoscale, drop_scale, evaluate_autoscale};
ghost use Rattle.batch_model.specs.WellFormed.{KeysAreDistinct, scales};
ghost use Rattle.machine_plans.specs.Plans.{IsAnswer, IsPlanOf, with_moment};
ghost use Rattle.pool_samples.specs.Conditions.{CanSample};

use crate::evaluation::{evaluate_formula, formula_of, moment_of};
use bt_base::{Duplicate, Fail, Id, NoMemory};
use bt_rows::plan::Plan;
use bt_rows::pool::PoolRow;
use bt_rows::refusal::Refusal;
use bt_rows::reply::Reply;
use bt_rows::tables::{Change, Tables};
use formula_types::Formula;
use machine_index::IndexedTables;
use machine_plans::{accept_one, reply_listed};
use std::alloc::Global;

/// Whether the pool scales automatically.
pub fn scales(tables: &Tables, pool: &Id) -> bool
    ensures { result ≡ scales tables.now.state pool.now }
{
    tables.find_scale(pool).is_some()
}

/// The plan by which the pool no longer scales automatically.
fn drop_found(alloc: Global, tables: &Tables, now: u64, pool: &PoolRow) -> Result<Plan, NoMemory>
    requires { KeysAreDistinct tables.now.state }
    ensures { IfOk result (IsPlanOf (accept 200 (drop_scale pool.now.id (with_moment now tables.now.state))) tables.now.state) }
{
    accept_one(alloc, tables, now, 200, Change::DropScale(pool.id.copy()?))
}

/// The answer to `disable-autoscale` of the pool that was found.
fn disable_found(
    alloc: Global,
    tables: &Tables,
    now: u64,
    pool: &PoolRow,
) -> Result<Plan, Fail<Refusal>>
    requires { KeysAreDistinct tables.now.state }
    ensures { IsAnswer now (disable_autoscale (with_moment now tables.now.state) pool.now) tables.now.state result }
{
    if pool.deleting {
        return Err(Fail::Why(Refusal::PoolBeingDeleted));
    }
    if !scales(tables, &pool.id) {
        return Err(Fail::Why(Refusal::PoolDoesNotScale));
    }
    Ok(drop_found(alloc, tables, now, pool)?)
}

/// The answer to `disable-autoscale` at `now`, in milliseconds since 1970: `PoolNotFound`, `PoolBeingDeleted`, `PoolDoesNotScale`, or the
/// pool no longer scales automatically, and keeps its targets. The only other error is out of memory.
pub fn disable_autoscale(
    alloc: Global,
    tables: &Tables,
    now: u64,
    id: &Id,
) -> Result<Plan, Fail<Refusal>>
    requires { KeysAreDistinct tables.now.state }
    ensures { IsAnswer now (for_row (with_moment now tables.now.state) PoolNotFound (disable_autoscale (with_moment now tables.now.state)) (pool_of (with_moment now tables.now.state) id.now)) tables.now.state result }
{
    match tables.find_pool(id) {
        Some(pool) => disable_found(alloc, tables, now, pool),
        None => Err(Fail::Why(Refusal::PoolNotFound)),
    }
}

/// The plan that shows what the formula gives over the pool.
fn show(
    alloc: Global,
    indexed: &IndexedTables,
    now: u64,
    pool: &PoolRow,
    formula: &Formula,
) -> Result<Plan, NoMemory>
    requires moment { now ≤ last_moment }
    requires sample { CanSample indexed.now.state }
    ensures { IfOk result (IsPlanOf (record { reply = Results (ran_text (or_error (evaluated formula.now.text (statements_of formula.now.statements.items) (pool_metrics indexed.now.state pool.now) now (start_targets pool.now)))); state = with_moment now indexed.now.state }) indexed.now.state) }
{
    let ran = evaluate_formula(alloc, indexed, moment_of(now), pool, formula)?;
    reply_listed(
        alloc,
        indexed.tables(),
        now,
        Reply::Results(ran.text.copy()?),
        Vec::new(alloc),
    )
}

/// The answer to `evaluate-autoscale` of the pool that was found.
fn evaluate_found(
    alloc: Global,
    indexed: &IndexedTables,
    now: u64,
    text: &str,
    pool: &PoolRow,
) -> Result<Plan, Fail<Refusal>>
    requires moment { now ≤ last_moment }
    requires sample { CanSample indexed.now.state }
    ensures { IsAnswer now (evaluate_autoscale (with_moment now indexed.now.state) text.now pool.now) indexed.now.state result }
{
    if pool.deleting {
        return Err(Fail::Why(Refusal::PoolBeingDeleted));
    }
    if !scales(indexed.tables(), &pool.id) {
        return Err(Fail::Why(Refusal::PoolDoesNotScale));
    }
    let formula = formula_of(alloc, text)?;
    Ok(show(alloc, indexed, now, pool, &formula)?)
}

/// The answer to `evaluate-autoscale` at `now`, in milliseconds since 1970: `PoolNotFound`, `PoolBeingDeleted`, `PoolDoesNotScale`,
/// `FormulaRefused`, or the results of the formula over the pool, or its fault. It changes the last moment alone. The only other error is
/// out of memory.
pub fn evaluate_autoscale(
    alloc: Global,
    indexed: &IndexedTables,
    now: u64,
    id: &Id,
    text: &str,
) -> Result<Plan, Fail<Refusal>>
    requires moment { now ≤ last_moment }
    requires sample { CanSample indexed.now.state }
    ensures { IsAnswer now (for_row (with_moment now indexed.now.state) PoolNotFound (evaluate_autoscale (with_moment now indexed.now.state) text.now) (pool_of (with_moment now indexed.now.state) id.now)) indexed.now.state result }
{
    match indexed.tables().find_pool(id) {
        Some(pool) => evaluate_found(alloc, indexed, now, text, pool),
        None => Err(Fail::Why(Refusal::PoolNotFound)),
    }
}
