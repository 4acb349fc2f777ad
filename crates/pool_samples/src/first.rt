//! U1, the due step that samples a pool that scales automatically, once in each half minute.
ghost use Rattle.std.specs.Prelude.{◌≡◌, ◌++◌, true, IfOk, OnOk, find};
ghost use Rattle.std.specs.Option.{option_copied};
ghost use Rattle.bt_rows.specs.Changes.{apply_changes};
ghost use Rattle.batch_model.specs.Metrics.{add_samples, sampled_metrics};
ghost use Rattle.batch_model.specs.Scaling.{is_to_sample, lacks_sample, pool_sampled, sample_first};
ghost use Rattle.batch_model.specs.WellFormed.{scales};
ghost use Rattle.machine_plans.specs.Plans.{IsPlanOf, IsRule, answer_of_step};
ghost use Rattle.pool_samples.specs.Changes.{all_added, metric_added};
ghost use Rattle.pool_samples.specs.Conditions.{CanSample};

use crate::kept::{Kept, METRICS, kept_of, kept_samples};
use crate::metrics::{PoolMetrics, pool_metrics};
use crate::sampling::{label_of, push_sample, sample_at};
use bt_base::{Duplicate, Id, List, Metric, NoMemory};
use bt_rows::due::Due;
use bt_rows::plan::Plan;
use bt_rows::pool::PoolRow;
use bt_rows::reply::Reply;
use bt_rows::tables::{Change, Tables};
use machine_index::IndexedTables;
use std::alloc::Global;

/// The metrics that are sampled: all but that of the processors.
const SAMPLED: [Metric; 9] = [
    Metric::ActiveTasks,
    Metric::RunningTasks,
    Metric::PendingTasks,
    Metric::SucceededTasks,
    Metric::FailedTasks,
    Metric::TaskSlotsPerNode,
    Metric::CurrentDedicatedNodes,
    Metric::CurrentLowPriorityNodes,
    Metric::PreemptedNodeCount,
];

/// Whether the pool scales automatically.
#[tactic(auto, using(crate::proofs::Lacking::scale_found))]
fn scales(tables: &Tables, pool: &Id) -> bool
    ensures { result ≡ scales tables.now.state pool.now }
{
    tables.find_scale(pool).is_some()
}

/// Whether the pool has no sample of its active tasks with the label of now. The sample is found by its key: no label is above that of
/// now, so a newest one that is not below it is the same.
fn lacks_sample(tables: &Tables, pool: &PoolRow) -> bool
    requires { CanSample tables.now.state }
    ensures { result ≡ lacks_sample tables.now.state pool.now }
{
    let label = label_of(tables.moment());
    tables
        .find_sample(&pool.id, Metric::ActiveTasks, label)
        .is_none()
}

/// Whether the pool scales automatically, is not being deleted, and lacks samples of now.
fn is_to_sample(tables: &Tables, pool: &PoolRow) -> bool
    requires { CanSample tables.now.state }
    ensures { result ≡ is_to_sample tables.now.state pool.now }
{
    !pool.deleting && (scales(tables, &pool.id) && lacks_sample(tables, pool))
}

/// The first such pool. A pool that does not scale costs one search by a key, and another pool two.
fn first_to_sample<'a>(tables: &'a Tables) -> Option<&'a PoolRow>
    requires { CanSample tables.now.state }
    ensures { option_copied result ≡ find (is_to_sample tables.now.state) tables.now.state.pools }
{
    tables.pools().find(|pool| is_to_sample(tables, pool))
}

/// Adds the changes by which a sample of the pool's metric is added, taken at `moment`, in milliseconds since 1970.
fn push_metric(
    changes: &mut Vec<Change>,
    moment: u64,
    pool: &Id,
    kept: &[Kept; METRICS],
    values: &PoolMetrics,
    metric: Metric,
) -> Result<(), NoMemory>
    ensures { OnOk result (changes.new.items ≡ changes.old.items ++ metric_added kept.now moment pool.now values.now metric) }
{
    let sample = sample_at(moment, pool, metric, values.value(metric))?;
    push_sample(changes, kept_of(kept, metric), sample)
}

/// The same for each of these metrics.
fn push_metrics(
    changes: &mut Vec<Change>,
    moment: u64,
    pool: &Id,
    kept: &[Kept; METRICS],
    values: &PoolMetrics,
    metrics: &[Metric],
) -> Result<(), NoMemory>
    ensures { OnOk result (changes.new.items ≡ changes.old.items ++ all_added kept.now moment pool.now values.now metrics.now) }
{
    for metric in metrics {
        push_metric(changes, moment, pool, kept, values, *metric)?;
    }
    Ok(())
}

/// The changes by which samples of the pool are added now.
fn sample_changes(
    alloc: Global,
    indexed: &IndexedTables,
    pool: &PoolRow,
) -> Result<Vec<Change>, NoMemory>
    requires able { CanSample indexed.now.state }
    requires lacks { lacks_sample indexed.now.state pool.now ≡ true }
    ensures { IfOk result (λ changes. apply_changes changes.items indexed.now.state ≡ add_samples indexed.now.state pool.now sampled_metrics indexed.now.state) }
{
    let tables = indexed.tables();
    let values = pool_metrics(indexed, pool);
    let kept = kept_samples(tables, &pool.id);
    let mut changes = Vec::new(alloc);
    push_metrics(
        &mut changes,
        tables.moment(),
        &pool.id,
        &kept,
        &values,
        &SAMPLED,
    )?;
    Ok(changes)
}

/// The plan that samples the pool now.
fn pool_sampled(alloc: Global, indexed: &IndexedTables, pool: &PoolRow) -> Result<Plan, NoMemory>
    requires able { CanSample indexed.now.state }
    requires lacks { lacks_sample indexed.now.state pool.now ≡ true }
    ensures { IfOk result (IsPlanOf (answer_of_step (pool_sampled indexed.now.state pool.now)) indexed.now.state) }
{
    let due = Due::Sampled(pool.id.copy()?, label_of(indexed.tables().moment()));
    let changes = sample_changes(alloc, indexed, pool)?;
    Ok(Plan {
        reply: Reply::Step(due),
        changes: List::of_vec(changes),
    })
}

/// The plan that samples the first pool that is to be sampled: it scales automatically, is not being deleted, and has no samples with
/// the label of now. None if there is none. It goes over the pools, and finds what it looks for by keys; only if there is such a pool it
/// goes over the tasks, the nodes and the samples, once over each. The only error is out of memory.
pub fn sample_first(alloc: Global, indexed: &IndexedTables) -> Result<Option<Plan>, NoMemory>
    requires { CanSample indexed.now.state }
    ensures { IfOk result (IsRule (sample_first indexed.now.state) indexed.now.state) }
{
    match first_to_sample(indexed.tables()) {
        None => Ok(None),
        Some(pool) => Ok(Some(pool_sampled(alloc, indexed, pool)?)),
    }
}
