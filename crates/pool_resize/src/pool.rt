//! Events of pools.
ghost use Rattle.std.specs.Prelude.{◌≡◌, IfOk, is_some, false};
ghost use Rattle.batch_model.specs.Events.{accept, add_pool, pool_added};
ghost use Rattle.batch_model.specs.Pools.{first_alloc, new_pool};
ghost use Rattle.batch_model.specs.Rows.{pool_of, add_pool_row};
ghost use Rattle.batch_model.specs.Scaling.{add_scale_row, given_refusal};
ghost use Rattle.batch_model.specs.WellFormed.{PoolsAreFitting};
ghost use Rattle.machine_plans.specs.Plans.{IsAnswer, IsPlanOf, with_moment};
ghost use Rattle.pool_scaling.specs.Evaluations.{IsChecked};

use bt_base::{Duplicate, Fail, NoMemory, Shared};
use bt_rows::event::{PoolSpec, Scaling};
use bt_rows::limits::POOL_LIMIT;
use bt_rows::plan::Plan;
use bt_rows::pool::{Alloc, Dealloc, PoolRow};
use bt_rows::refusal::{Refusal, Table};
use bt_rows::scale::ScaleRow;
use bt_rows::tables::{Change, Tables};
use machine_plans::{accept_one, accept_two};
use pool_scaling::{check_formula, new_scale};
use std::alloc::Global;

/// How a new pool stands to its target of dedicated nodes.
fn first_alloc(dedicated: u32) -> Alloc
    ensures { result ≡ first_alloc dedicated }
{
    if dedicated == 0 {
        Alloc::Steady
    } else {
        Alloc::Resizing
    }
}

/// A pool that is added at `now`.
fn new_pool(now: u64, spec: &PoolSpec) -> Result<PoolRow, NoMemory>
    ensures { IfOk result (λ pool. pool ≡ new_pool now spec.now) }
{
    Ok(PoolRow {
        id: spec.id.copy()?,
        deleting: false,
        alloc: first_alloc(spec.dedicated),
        slots: spec.slots,
        fill: spec.fill,
        inter: spec.inter,
        start: spec.start.clone()?,
        dedicated: spec.dedicated,
        low: spec.low,
        option: Dealloc::Requeue,
        usual_timeout: spec.timeout,
        timeout: spec.timeout,
        began: now,
        error: None,
        enabled: None,
    })
}

/// Refuses how a new pool is to scale, if its formula is not one.
fn check_given(alloc: Global, scale: &Option<Scaling>) -> Result<(), Fail<Refusal>>
    ensures { IsChecked (given_refusal scale.now) result }
{
    match scale {
        Some(scaling) => check_formula(alloc, scaling.formula.as_str()),
        None => Ok(()),
    }
}

/// The plan that adds a pool whose id no pool has.
fn put_new_pool(
    alloc: Global,
    tables: &Tables,
    now: u64,
    pool: Shared<PoolRow>,
) -> Result<Plan, NoMemory>
    requires { is_some (pool_of tables.now.state pool.id) ≡ false }
    ensures { IfOk result (IsPlanOf (accept 201 (add_pool_row pool (with_moment now tables.now.state))) tables.now.state) }
{
    accept_one(alloc, tables, now, 201, Change::PutPool(pool))
}

/// The plan that adds a pool whose id no pool has, and how it scales.
fn put_scaling_pool(
    alloc: Global,
    tables: &Tables,
    now: u64,
    pool: Shared<PoolRow>,
    scale: Shared<ScaleRow>,
) -> Result<Plan, NoMemory>
    requires new { is_some (pool_of tables.now.state pool.id) ≡ false }
    requires named { scale.pool ≡ pool.id }
    requires fitting { PoolsAreFitting tables.now.state }
    ensures { IfOk result (IsPlanOf (accept 201 (add_scale_row scale (add_pool_row pool (with_moment now tables.now.state)))) tables.now.state) }
{
    accept_two(
        alloc,
        tables,
        now,
        201,
        Change::PutPool(pool),
        Change::PutScale(scale),
    )
}

/// The plan that adds a pool whose id no pool has. It scales as it is told, if it is.
fn put_given(alloc: Global, tables: &Tables, now: u64, spec: &PoolSpec) -> Result<Plan, NoMemory>
    requires new { is_some (pool_of tables.now.state spec.now.id) ≡ false }
    requires fitting { PoolsAreFitting tables.now.state }
    ensures { IfOk result (IsPlanOf (accept 201 (pool_added (with_moment now tables.now.state) spec.now)) tables.now.state) }
{
    let pool = Shared::new(alloc, new_pool(now, spec)?)?;
    match &spec.scale {
        None => put_new_pool(alloc, tables, now, pool),
        Some(scaling) => {
            let row = new_scale(now, &spec.id, &scaling.formula, scaling.interval)?;
            put_scaling_pool(alloc, tables, now, pool, Shared::new(alloc, row)?)
        }
    }
}

/// The answer to `add-pool`.
pub fn add_pool(
    alloc: Global,
    tables: &Tables,
    now: u64,
    spec: &PoolSpec,
) -> Result<Plan, Fail<Refusal>>
    requires { PoolsAreFitting tables.now.state }
    ensures { IsAnswer now (add_pool (with_moment now tables.now.state) spec.now) tables.now.state result }
{
    if tables.find_pool(&spec.id).is_some() {
        return Err(Fail::Why(Refusal::PoolExists));
    }
    if tables.pool_count() as u64 >= POOL_LIMIT {
        return Err(Fail::Why(Refusal::TableFull(Table::Pools, POOL_LIMIT)));
    }
    check_given(alloc, &spec.scale)?;
    Ok(put_given(alloc, tables, now, spec)?)
}
