//! Failures of start tasks and of preparations: with the unended runs they are fewer than the runs that were made.
ghost use Rattle.std.specs.Prelude.{◌≡◌, ◌+◌, nat_lt, IfOk};
ghost use Rattle.std.specs.List.{list_all};
ghost use Rattle.kept_table.specs.Keys.{number_text, number_id_text};
ghost use Rattle.row_keys.specs.Numbers.{count_at};
ghost use Rattle.batch_model.specs.Variants.{NodeRow as Node, PrepRow as Prep};
ghost use Rattle.batch_model.specs.WellFormed.{has_few_tries, has_few_preparations};
ghost use Rattle.tables_check.specs.Rules.{tries_are_below};

use crate::keys::{PreparationOnNode, StartOnNode};
use bt_base::NoMemory;
use bt_rows::node::NodeRow;
use bt_rows::prep::PrepRow;
use bt_rows::tables::Tables;
use kept_table::KeyText;
use row_keys::{KeyNumbers, count_keys};
use std::alloc::Global;

/// Whether the sum is below the limit.
fn is_sum_below(a: u64, b: u64, limit: u64) -> bool
    ensures { result ≡ nat_lt (a + b) limit }
{
    match a.checked_add(b) {
        None => false,
        Some(sum) => sum < limit,
    }
}

/// Whether the node's failures and unended start runs are together fewer than the runs that were made.
pub fn has_few_starts(starts: &KeyNumbers, node: &NodeRow, next_run: u64) -> bool
    ensures { result ≡ nat_lt (node.now.tries + count_at starts.now (number_text node.now.number)) next_run }
{
    let text = KeyText::of_number(node.number);
    is_sum_below(node.tries, starts.count(text.as_slice()), next_run)
}

/// Whether each node's failures and unended start runs are together fewer than the runs that were made.
fn have_few_starts(starts: &KeyNumbers, tables: &Tables) -> bool
    ensures { result ≡ list_all (λ (node : Node). nat_lt (node.tries + count_at starts.now (number_text node.number)) tables.now.state.next_run) tables.now.state.nodes }
{
    let next_run = tables.next_run();
    tables
        .nodes()
        .all(|node| has_few_starts(starts, node, next_run))
}

/// Whether each node's failures and unended start runs are together fewer than the runs that were made.
fn have_nodes_few_tries(alloc: Global, tables: &Tables) -> Result<bool, NoMemory>
    ensures { IfOk result (λ yes. yes ≡ list_all (has_few_tries tables.now.state) tables.now.state.nodes) }
{
    let starts = count_keys::<StartOnNode>(alloc, tables.runs())?;
    let few = have_few_starts(&starts, tables);
    Ok(few)
}

/// Whether the preparation's failures and unended runs are together fewer than the runs that were made.
pub fn has_few_runs(runs: &KeyNumbers, prep: &PrepRow, next_run: u64) -> bool
    ensures { result ≡ nat_lt (prep.now.tries + count_at runs.now (number_id_text prep.now.node prep.now.job)) next_run }
{
    let text = KeyText::of_number_and_id(prep.node, &prep.job);
    is_sum_below(prep.tries, runs.count(text.as_slice()), next_run)
}

/// Whether each preparation's failures and unended runs are together fewer than the runs that were made.
fn have_few_runs(runs: &KeyNumbers, tables: &Tables) -> bool
    ensures { result ≡ list_all (λ (prep : Prep). nat_lt (prep.tries + count_at runs.now (number_id_text prep.node prep.job)) tables.now.state.next_run) tables.now.state.preps }
{
    let next_run = tables.next_run();
    tables
        .preps()
        .all(|prep| has_few_runs(runs, prep, next_run))
}

/// Whether each preparation's failures and unended runs are together fewer than the runs that were made.
fn have_preps_few_tries(alloc: Global, tables: &Tables) -> Result<bool, NoMemory>
    ensures { IfOk result (λ yes. yes ≡ list_all (has_few_preparations tables.now.state) tables.now.state.preps) }
{
    let runs = count_keys::<PreparationOnNode>(alloc, tables.runs())?;
    let few = have_few_runs(&runs, tables);
    Ok(few)
}

/// Whether failures of start tasks and of preparations, with their unended runs, are fewer than the runs that were made.
pub fn are_tries_below(alloc: Global, tables: &Tables) -> Result<bool, NoMemory>
    ensures { IfOk result (λ yes. yes ≡ tries_are_below tables.now.state) }
{
    let nodes = have_nodes_few_tries(alloc, tables)?;
    let preps = have_preps_few_tries(alloc, tables)?;
    Ok(nodes & preps)
}
