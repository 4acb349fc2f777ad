//! The whole test.
ghost use Rattle.std.specs.Prelude.{◌≡◌, ◌&&◌, true, IfOk};
ghost use Rattle.batch_model.specs.WellFormed.{IsWellFormed};
ghost use Rattle.tables_check.specs.Rules.{rows_are_valid, counts_are_in_range, counters_are_above, tasks_are_fitting, is_well_formed};

use crate::distinct::are_keys_distinct;
use crate::named::are_named_rows_there;
use crate::numbers::{are_counters_above, are_counts_in_range};
use crate::pools::are_pools_fitting;
use crate::quiet::place_quiet_jobs_nothing;
use crate::tries::are_tries_below;
use crate::values::{are_rows_valid, are_tasks_fitting};
use bt_base::NoMemory;
use bt_rows::tables::Tables;
use std::alloc::Global;

/// Whether the rows pass the tests of single rows, and the counters those of numbers.
fn pass_rows(tables: &Tables) -> bool
    ensures { result ≡ (rows_are_valid tables.now.state && (counts_are_in_range tables.now.state && (counters_are_above tables.now.state && tasks_are_fitting tables.now.state))) }
{
    let rows = are_rows_valid(tables);
    let counts = are_counts_in_range(tables);
    let counters = are_counters_above(tables);
    let fitting = are_tasks_fitting(tables);
    rows & (counts & (counters & fitting))
}

/// The test, rule by rule.
fn pass_all(alloc: Global, tables: &Tables) -> Result<bool, NoMemory>
    ensures { IfOk result (λ passes. passes ≡ is_well_formed tables.now.state) }
{
    let rows = pass_rows(tables);
    let keys = are_keys_distinct(alloc, tables)?;
    let tries = are_tries_below(alloc, tables)?;
    let named = are_named_rows_there(alloc, tables)?;
    let quiet = place_quiet_jobs_nothing(alloc, tables)?;
    let pools = are_pools_fitting(alloc, tables)?;
    Ok((keys & rows) & (tries & (named & (quiet & pools))))
}

/// Whether the tables are well formed: whether they may be loaded from a store. The answer is true exactly if they are. The only error
/// is out of memory.
pub fn well_formed(alloc: Global, tables: &Tables) -> Result<bool, NoMemory>
    ensures yes { IfOk result (λ yes. yes ≡ true → IsWellFormed tables.now.state) }
    ensures no { IfOk result (λ yes. IsWellFormed tables.now.state → yes ≡ true) }
{
    let passes = pass_all(alloc, tables)?;
    Ok(passes)
}
