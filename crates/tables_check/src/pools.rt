//! Pools that are being deleted, and what formulas and samples name.
ghost use Rattle.std.specs.Prelude.{◌≡◌, ◌&&◌, IfOk};
ghost use Rattle.std.specs.List.{list_all};
ghost use Rattle.batch_model.specs.Variants.{ScaleRow as Scale, SampleRow as Sample};
ghost use Rattle.batch_model.specs.Pools.{is_resizing};
ghost use Rattle.batch_model.specs.WellFormed.{has_pool_row, scales, is_deleting_whole, has_label, are_labels_out_of_order, is_covered, has_kept};
ghost use Rattle.row_keys.specs.Passes.{are_distinct};
ghost use Rattle.tables_check.specs.Rules.{pools_are_fitting};

use crate::labels::{are_labels_rising, are_samples_covered, are_samples_few, has_label};
use bt_base::{Id, NoMemory};
use bt_rows::pool::{Alloc, PoolRow};
use bt_rows::tables::Tables;
use std::alloc::Global;

/// Whether the pool has a row.
pub fn has_pool_row(tables: &Tables, pool: &Id) -> bool
    ensures { result ≡ has_pool_row tables.now.state pool.now }
{
    match tables.find_pool(pool) {
        None => false,
        Some(_row) => true,
    }
}

/// Whether the pool scales automatically.
fn scales(tables: &Tables, pool: &Id) -> bool
    ensures { result ≡ scales tables.now.state pool.now }
{
    match tables.find_scale(pool) {
        None => false,
        Some(_row) => true,
    }
}

/// Whether the pool's number of nodes is still to reach its target.
fn is_resizing(alloc: Alloc) -> bool
    ensures { result ≡ is_resizing alloc }
{
    alloc == Alloc::Resizing
}

/// Whether the pool resizes to nothing and does not scale, if it is being deleted.
pub fn is_deleting_whole(tables: &Tables, pool: &PoolRow) -> bool
    ensures { result ≡ is_deleting_whole tables.now.state pool.now }
{
    !pool.deleting
        || (is_resizing(pool.alloc)
            && pool.dedicated == 0
            && pool.low == 0
            && !scales(tables, &pool.id))
}

/// Whether pools that are being deleted resize to nothing and do not scale.
fn are_deleting_whole(tables: &Tables) -> bool
    ensures { result ≡ list_all (is_deleting_whole tables.now.state) tables.now.state.pools }
{
    tables.pools().all(|pool| is_deleting_whole(tables, pool))
}

/// Whether the pools that scale have rows.
fn have_scales_pools(tables: &Tables) -> bool
    ensures { result ≡ list_all (λ (scale : Scale). has_pool_row tables.now.state scale.pool) tables.now.state.scales }
{
    tables
        .scales()
        .all(|scale| has_pool_row(tables, &scale.pool))
}

/// Whether the pools of samples have rows.
fn have_samples_pools(tables: &Tables) -> bool
    ensures { result ≡ list_all (λ (sample : Sample). has_pool_row tables.now.state sample.pool) tables.now.state.samples }
{
    tables
        .samples()
        .all(|sample| has_pool_row(tables, &sample.pool))
}

/// Whether pools that are being deleted resize to nothing, and the pools that formulas and samples name have rows.
fn are_pools_there(tables: &Tables) -> bool
    ensures { result ≡ (list_all (is_deleting_whole tables.now.state) tables.now.state.pools && (list_all (λ (scale : Scale). has_pool_row tables.now.state scale.pool) tables.now.state.scales && list_all (λ (sample : Sample). has_pool_row tables.now.state sample.pool) tables.now.state.samples)) }
{
    let deleting = are_deleting_whole(tables);
    let scales = have_scales_pools(tables);
    let samples = have_samples_pools(tables);
    deleting & (scales & samples)
}

/// Whether labels are multiples of 30 seconds.
fn have_labels(tables: &Tables) -> bool
    ensures { result ≡ list_all has_label tables.now.state.samples }
{
    tables.samples().all(|sample| has_label(sample))
}

/// Whether labels are multiples of 30 seconds that rise, and samples covered and few.
fn are_samples_fitting(alloc: Global, tables: &Tables) -> Result<bool, NoMemory>
    ensures { IfOk result (λ yes. yes ≡ ((list_all has_label tables.now.state.samples && are_distinct are_labels_out_of_order tables.now.state.samples) && (list_all (is_covered tables.now.state) tables.now.state.samples && list_all (has_kept tables.now.state) tables.now.state.samples))) }
{
    let labels = have_labels(tables);
    let rising = are_labels_rising(alloc, tables)?;
    let covered = are_samples_covered(alloc, tables)?;
    let few = are_samples_few(alloc, tables)?;
    Ok((labels & rising) & (covered & few))
}

/// Whether pools that are being deleted resize to nothing and do not scale, and formulas and samples name pools that are there, with
/// labels that rise.
pub fn are_pools_fitting(alloc: Global, tables: &Tables) -> Result<bool, NoMemory>
    ensures { IfOk result (λ yes. yes ≡ pools_are_fitting tables.now.state) }
{
    let there = are_pools_there(tables);
    let samples = are_samples_fitting(alloc, tables)?;
    Ok(there & samples)
}
