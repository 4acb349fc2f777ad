//! The metrics of a pool, as formulas read them: samples and current values.
ghost use Rattle.std.specs.Prelude.{◌≡◌, IfOk};
ghost use Rattle.batch_model.specs.Formulas.{newest_value, pool_metrics};
ghost use Rattle.batch_model.specs.WellFormed.{PoolsAreFitting};
ghost use Rattle.pool_samples.specs.Conditions.{CanSample};
ghost use Rattle.pool_scaling.specs.Gathering.{sampled, with_row, with_rows, with_values};

use bt_base::{Id, Metric, NoMemory, Num};
use bt_rows::pool::PoolRow;
use bt_rows::sample::SampleRow;
use bt_rows::tables::Tables;
use bt_samples::History;
use formula_metrics::Metrics;
use machine_index::IndexedTables;
use pool_samples::{PoolMetrics, pool_metrics};
use std::alloc::Global;

/// Adds the sample, if it is of the pool.
fn push_sample(metrics: &mut Metrics, pool: &Id, sample: &SampleRow)
    ensures { metrics.new ≡ with_row pool.now sample.now metrics.old }
{
    if sample.pool.same(pool) {
        let _taken = metrics.push(sample.metric, sample.label, sample.value);
    }
}

/// Adds each sample of the pool.
fn push_samples(metrics: &mut Metrics, tables: &Tables, pool: &Id)
    ensures { metrics.new ≡ with_rows pool.now tables.now.state.samples metrics.old }
{
    for sample in tables.samples() {
        push_sample(metrics, pool, sample);
    }
}

/// The samples of each metric of the pool, without current values. It goes once over the samples.
#[tactic(auto, using(crate::proofs::Gathered::gathered))]
fn sampled(alloc: Global, tables: &Tables, pool: &Id) -> Result<Metrics, NoMemory>
    requires { PoolsAreFitting tables.now.state }
    ensures { IfOk result (λ metrics. metrics ≡ sampled tables.now.state pool.now) }
{
    let mut metrics = Metrics::new(alloc)?;
    push_samples(&mut metrics, tables, pool);
    Ok(metrics)
}

/// The value of the newest sample, if there is one.
#[tactic(auto, using(crate::proofs::Gathered::newest_first))]
fn newest_value(history: &History) -> Result<Option<Num>, NoMemory>
    ensures { IfOk result (λ value. value ≡ newest_value history.now) }
{
    let newest = history.last(1)?;
    Ok(newest.first().copied())
}

/// Sets the current values of all metrics but that of the processors.
fn set_values(metrics: &mut Metrics, values: &PoolMetrics)
    ensures { metrics.new ≡ with_values values.now metrics.old }
{
    metrics.set_current(Metric::ActiveTasks, Some(values.value(Metric::ActiveTasks)));
    metrics.set_current(
        Metric::RunningTasks,
        Some(values.value(Metric::RunningTasks)),
    );
    metrics.set_current(
        Metric::PendingTasks,
        Some(values.value(Metric::PendingTasks)),
    );
    metrics.set_current(
        Metric::SucceededTasks,
        Some(values.value(Metric::SucceededTasks)),
    );
    metrics.set_current(Metric::FailedTasks, Some(values.value(Metric::FailedTasks)));
    metrics.set_current(
        Metric::TaskSlotsPerNode,
        Some(values.value(Metric::TaskSlotsPerNode)),
    );
    metrics.set_current(
        Metric::CurrentDedicatedNodes,
        Some(values.value(Metric::CurrentDedicatedNodes)),
    );
    metrics.set_current(
        Metric::CurrentLowPriorityNodes,
        Some(values.value(Metric::CurrentLowPriorityNodes)),
    );
    metrics.set_current(
        Metric::PreemptedNodeCount,
        Some(values.value(Metric::PreemptedNodeCount)),
    );
}

/// The metrics of the pool. The only error is out of memory.
#[tactic(auto, using(crate::proofs::Gathered::all_set))]
pub fn metrics_of(
    alloc: Global,
    indexed: &IndexedTables,
    pool: &PoolRow,
) -> Result<Metrics, NoMemory>
    requires { CanSample indexed.now.state }
    ensures { IfOk result (λ metrics. metrics ≡ pool_metrics indexed.now.state pool.now) }
{
    let mut metrics = sampled(alloc, indexed.tables(), &pool.id)?;
    let newest = newest_value(&metrics.cpu_percent.history)?;
    metrics.set_current(Metric::CpuPercent, newest);
    set_values(&mut metrics, &pool_metrics(indexed, pool));
    Ok(metrics)
}
