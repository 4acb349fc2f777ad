//! No two rows of a kind have the same key. Of tasks and runs this is a fact of the tables.
ghost use Rattle.std.specs.Prelude.{◌≡◌, ◌&&◌, true, IfOk};
ghost use Rattle.bt_rows.specs.Keys.{same_pool, same_node, same_job, same_task, same_run, same_prep, same_sample, same_scale};
ghost use Rattle.row_keys.specs.Passes.{are_distinct};
ghost use Rattle.tables_check.specs.Rules.{keys_are_distinct};

use bt_base::NoMemory;
use bt_rows::tables::Tables;
use row_keys::are_own_keys_distinct;
use std::alloc::Global;

/// Tells callers that no two tasks and no two runs have the same key. It does nothing at run time.
pub fn known_keys(tables: &Tables)
    ensures tasks { are_distinct same_task tables.now.state.tasks ≡ true }
    ensures runs { are_distinct same_run tables.now.state.runs ≡ true }
{
    tables.keys_known();
    tables.places_known();
}

/// Whether no two pools, nodes or jobs have the same key.
fn are_first_distinct(alloc: Global, tables: &Tables) -> Result<bool, NoMemory>
    ensures { IfOk result (λ yes. yes ≡ (are_distinct same_pool tables.now.state.pools && (are_distinct same_node tables.now.state.nodes && are_distinct same_job tables.now.state.jobs))) }
{
    let pools = are_own_keys_distinct(alloc, tables.pools())?;
    let nodes = are_own_keys_distinct(alloc, tables.nodes())?;
    let jobs = are_own_keys_distinct(alloc, tables.jobs())?;
    Ok(pools & (nodes & jobs))
}

/// Whether no two preparations, samples or scalings have the same key.
fn are_last_distinct(alloc: Global, tables: &Tables) -> Result<bool, NoMemory>
    ensures { IfOk result (λ yes. yes ≡ (are_distinct same_prep tables.now.state.preps && (are_distinct same_sample tables.now.state.samples && are_distinct same_scale tables.now.state.scales))) }
{
    let preps = are_own_keys_distinct(alloc, tables.preps())?;
    let samples = are_own_keys_distinct(alloc, tables.samples())?;
    let scales = are_own_keys_distinct(alloc, tables.scales())?;
    Ok(preps & (samples & scales))
}

/// Whether no two rows of a kind have the same key.
pub fn are_keys_distinct(alloc: Global, tables: &Tables) -> Result<bool, NoMemory>
    ensures { IfOk result (λ yes. yes ≡ keys_are_distinct tables.now.state) }
{
    known_keys(tables);
    let first = are_first_distinct(alloc, tables)?;
    let last = are_last_distinct(alloc, tables)?;
    Ok(first & last)
}
