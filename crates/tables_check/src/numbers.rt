//! Numbers of rows, and the counters of nodes and runs.
ghost use Rattle.std.specs.Prelude.{◌≡◌, ◌&&◌, nat_le, nat_lt, length};
ghost use Rattle.std.specs.List.{list_all};
ghost use Rattle.batch_model.specs.Limits.{pool_limit, job_limit, task_limit};
ghost use Rattle.batch_model.specs.Variants.{NodeRow as Node, RunRow as Run, PrepRow as Prep};
ghost use Rattle.tables_check.specs.Rules.{counts_are_in_range, counters_are_above};

use bt_rows::limits::{JOB_LIMIT, NUMBER_LIMIT, POOL_LIMIT, TASK_LIMIT};
use bt_rows::tables::Tables;

/// The greatest number of the next node: after it none is made.
const LAST_NEXT_NODE: u64 = NUMBER_LIMIT + 1;

/// The greatest number of the next run: one placing makes at most 64 runs, the last one included.
const LAST_NEXT_RUN: u64 = NUMBER_LIMIT + 64;

/// Whether there are at most 64 pools, 10,000 jobs and 1,000,000 tasks.
pub fn are_few(tables: &Tables) -> bool
    ensures { result ≡ (nat_le (length tables.now.state.pools) pool_limit && (nat_le (length tables.now.state.jobs) job_limit && nat_le (length tables.now.state.tasks) task_limit)) }
{
    let pools = tables.pool_count() as u64 <= POOL_LIMIT;
    let jobs = tables.job_count() as u64 <= JOB_LIMIT;
    let tasks = tables.task_count() as u64 <= TASK_LIMIT;
    pools & (jobs & tasks)
}

/// Whether the numbers of rows and the counters are in their ranges.
pub fn are_counts_in_range(tables: &Tables) -> bool
    ensures { result ≡ counts_are_in_range tables.now.state }
{
    let few = are_few(tables);
    let node = tables.next_node();
    let run = tables.next_run();
    few & (((1 <= node) & (node <= LAST_NEXT_NODE)) & ((1 <= run) & (run <= LAST_NEXT_RUN)))
}

/// Whether the numbers of the runs are below the number of the next one.
fn are_runs_below(tables: &Tables) -> bool
    ensures { result ≡ list_all (λ (run : Run). nat_lt run.number tables.now.state.next_run) tables.now.state.runs }
{
    let next_run = tables.next_run();
    tables.runs().all(|run| run.number < next_run)
}

/// Whether the numbers of the nodes are below the number of the next one.
fn are_nodes_below(tables: &Tables) -> bool
    ensures { result ≡ list_all (λ (node : Node). nat_lt node.number tables.now.state.next_node) tables.now.state.nodes }
{
    let next_node = tables.next_node();
    tables.nodes().all(|node| node.number < next_node)
}

/// Whether the numbers of the nodes that runs name are below the number of the next one.
fn are_nodes_of_runs_below(tables: &Tables) -> bool
    ensures { result ≡ list_all (λ (run : Run). nat_lt run.node tables.now.state.next_node) tables.now.state.runs }
{
    let next_node = tables.next_node();
    tables.runs().all(|run| run.node < next_node)
}

/// Whether the numbers of the nodes that preparations name are below the number of the next one.
fn are_nodes_of_preps_below(tables: &Tables) -> bool
    ensures { result ≡ list_all (λ (prep : Prep). nat_lt prep.node tables.now.state.next_node) tables.now.state.preps }
{
    let next_node = tables.next_node();
    tables.preps().all(|prep| prep.node < next_node)
}

/// Whether the numbers of runs and of nodes, also those that rows name, are below the numbers of the next ones.
pub fn are_counters_above(tables: &Tables) -> bool
    ensures { result ≡ counters_are_above tables.now.state }
{
    let runs = are_runs_below(tables);
    let nodes = are_nodes_below(tables);
    let nodes_of_runs = are_nodes_of_runs_below(tables);
    let nodes_of_preps = are_nodes_of_preps_below(tables);
    (runs & nodes) & (nodes_of_runs & nodes_of_preps)
}
