//! U12, the due step that evaluates the formula of a steady pool whose moment has come.
ghost use Rattle.std.specs.Prelude.{◌≡◌, ◌≤◌, true, false, Some, IfOk, find};
ghost use Rattle.std.specs.Option.{option_copied, option_map_or};
ghost use Rattle.bt_base.specs.Moments.{last_moment};
ghost use Rattle.bt_rows.specs.Ranges.{is_interval};
ghost use Rattle.batch_model.specs.Formulas.{formula_ran};
ghost use Rattle.batch_model.specs.Rows.{pool_of};
ghost use Rattle.batch_model.specs.Scaling.{evaluated_now, is_due, is_scaling, pool_after, pool_scaled, resized_unless_reached, retargeted_to, scale_first, scale_of, scale_pool, scaled_after};
ghost use Rattle.batch_model.specs.WellFormed.{KeysAreDistinct, RowsAreValid};
ghost use Rattle.machine_plans.specs.Plans.{IsPlanOf, IsRule, answer_of_step};
ghost use Rattle.pool_samples.specs.Conditions.{CanSample};

use crate::enabling::is_steady;
use crate::evaluation::{Ran, evaluate_text, moment_of};
use bt_base::{Dealloc, Duplicate, Id, NoMemory, Shared, Text};
use bt_rows::due::Due;
use bt_rows::plan::Plan;
use bt_rows::pool::{Alloc, PoolRow};
use bt_rows::scale::ScaleRow;
use bt_rows::tables::{Change, Tables};
use formula_eval::Targets;
use machine_index::IndexedTables;
use machine_plans::step_two;
use std::alloc::Global;
use table_scans::staying_count;

/// Whether the pool has a formula whose moment has come.
fn has_due(tables: &Tables, pool: &Id) -> bool
    ensures { result ≡ option_map_or (is_due tables.now.state.moment) (scale_of tables.now.state pool.now) false }
{
    match tables.find_scale(pool) {
        None => false,
        Some(scale) => scale.next <= tables.moment(),
    }
}

/// Whether the pool is steady and not being deleted, and has such a formula.
fn is_scaling(tables: &Tables, pool: &PoolRow) -> bool
    ensures { result ≡ is_scaling tables.now.state pool.now }
{
    is_steady(pool.alloc) && !pool.deleting && has_due(tables, &pool.id)
}

/// The first such pool.
fn first_scaling<'a>(tables: &'a Tables) -> Option<&'a PoolRow>
    ensures { option_copied result ≡ find (is_scaling tables.now.state) tables.now.state.pools }
{
    tables.pools().find(|pool| is_scaling(tables, pool))
}

/// How the pool scales after an evaluation at `now`, in milliseconds since 1970, which has this text: the next one is one interval later.
fn evaluated_now(now: u64, text: &Text, scale: &ScaleRow) -> Result<ScaleRow, NoMemory>
    requires moment { now ≤ last_moment }
    requires interval { is_interval scale.now.interval ≡ true }
    ensures { IfOk result (λ row. row ≡ evaluated_now now text.now scale.now) }
{
    let mut row = scale.copy()?;
    row.next = now + scale.interval;
    row.last = Some(text.copy()?);
    Ok(row)
}

/// The pool, with these targets and this option.
fn retargeted_to(targets: Targets, option: Dealloc, pool: &PoolRow) -> Result<PoolRow, NoMemory>
    ensures { IfOk result (λ row. row ≡ retargeted_to (targets, option) pool.now) }
{
    let mut row = pool.copy()?;
    row.dedicated = targets.dedicated;
    row.low = targets.low;
    row.option = option;
    Ok(row)
}

/// The pool, which resizes unless it has as many nodes as its target.
fn resized_unless_reached(tables: &Tables, pool: PoolRow) -> PoolRow
    ensures { result ≡ resized_unless_reached tables.now.state pool }
{
    let mut row = pool;
    if staying_count(tables, &row.id) == row.dedicated as usize {
        return row;
    }
    row.alloc = Alloc::Resizing;
    row.began = tables.moment();
    row.timeout = row.usual_timeout;
    row.error = None;
    row
}

/// The pool after an evaluation that gave these targets and this option; a fault, which gives none, leaves it.
fn pool_after(
    tables: &Tables,
    pool: &PoolRow,
    given: Option<(Targets, Dealloc)>,
) -> Result<PoolRow, NoMemory>
    ensures { IfOk result (λ row. row ≡ pool_after tables.now.state pool.now given) }
{
    match given {
        None => pool.copy(),
        Some((targets, option)) => {
            let row = retargeted_to(targets, option, pool)?;
            Ok(resized_unless_reached(tables, row))
        }
    }
}

/// The plan of the step after an evaluation.
fn plan_scale(
    alloc: Global,
    tables: &Tables,
    pool: &PoolRow,
    scale: &ScaleRow,
    ran: &Ran,
) -> Result<Plan, NoMemory>
    requires keys { KeysAreDistinct tables.now.state }
    requires rows { RowsAreValid tables.now.state }
    requires there { pool_of tables.now.state pool.now.id ≡ Some pool.now }
    requires scales { scale_of tables.now.state pool.now.id ≡ Some scale.now }
    ensures { IfOk result (IsPlanOf (answer_of_step (scaled_after tables.now.state pool.now scale.now ran.now.text ran.now.given)) tables.now.state) }
{
    let next = Shared::new(alloc, evaluated_now(tables.moment(), &ran.text, scale)?)?;
    let row = Shared::new(alloc, pool_after(tables, pool, ran.given)?)?;
    let due = Due::PoolScaled(pool.id.copy()?, ran.text.copy()?);
    step_two(alloc, due, Change::PutScale(next), Change::PutPool(row))
}

/// The plan of the step by which the pool's formula is evaluated.
fn pool_scaled(
    alloc: Global,
    indexed: &IndexedTables,
    pool: &PoolRow,
    scale: &ScaleRow,
) -> Result<Plan, NoMemory>
    requires sample { CanSample indexed.now.state }
    requires there { pool_of indexed.now.state pool.now.id ≡ Some pool.now }
    requires scales { scale_of indexed.now.state pool.now.id ≡ Some scale.now }
    ensures { IfOk result (IsPlanOf (answer_of_step (pool_scaled indexed.now.state pool.now scale.now)) indexed.now.state) }
{
    let now = moment_of(indexed.tables().moment());
    let ran = evaluate_text(alloc, indexed, now, pool, scale.formula.as_str())?;
    plan_scale(alloc, indexed.tables(), pool, scale, &ran)
}

/// The plan of the step by which the pool's formula is evaluated, if it has one.
fn scale_pool(
    alloc: Global,
    indexed: &IndexedTables,
    pool: &PoolRow,
) -> Result<Option<Plan>, NoMemory>
    requires sample { CanSample indexed.now.state }
    requires there { pool_of indexed.now.state pool.now.id ≡ Some pool.now }
    ensures { IfOk result (IsRule (scale_pool indexed.now.state pool.now) indexed.now.state) }
{
    match indexed.tables().find_scale(&pool.id) {
        None => Ok(None),
        Some(scale) => Ok(Some(pool_scaled(alloc, indexed, pool, scale)?)),
    }
}

/// The plan by which the formula of the first steady pool whose moment has come is evaluated; None if there is no such pool. Results become
/// the pool's targets and option, and it resizes unless it has as many nodes as its target; a fault leaves it. The only error is out of
/// memory.
pub fn scale_first(alloc: Global, indexed: &IndexedTables) -> Result<Option<Plan>, NoMemory>
    requires { CanSample indexed.now.state }
    ensures { IfOk result (IsRule (scale_first indexed.now.state) indexed.now.state) }
{
    match first_scaling(indexed.tables()) {
        None => Ok(None),
        Some(pool) => scale_pool(alloc, indexed, pool),
    }
}
