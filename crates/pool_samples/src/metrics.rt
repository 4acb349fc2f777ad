//! The values of a pool's metrics now.
ghost use Rattle.std.specs.Prelude.{◌≡◌, ◌≤◌, ◌^◌, ◌<◌, length};
ghost use Rattle.batch_model.specs.Limits.{seat_limit};
ghost use Rattle.batch_model.specs.Metrics.{node_count};
ghost use Rattle.pool_samples.specs.Conditions.{CanSample};
ghost use Rattle.pool_samples.specs.Counts.{count_of, metrics_of, value_of};

use crate::counts::count_tasks;
use bt_base::{Id, Metric, Num};
use bt_rows::pool::PoolRow;
use bt_rows::tables::Tables;
use machine_index::IndexedTables;
use table_scans::is_in_pool;

/// The counts that the metrics of a pool are made of.
#[derive(Clone, Copy)]
pub struct PoolMetrics {
    /// Instances of ready tasks of active jobs in the pool.
    pub active: u32,
    /// Placed tasks of jobs in the pool.
    pub running: u32,
    /// Tasks of jobs in the pool that are completed with success.
    pub succeeded: u32,
    /// Tasks of jobs in the pool that are completed without success.
    pub failed: u32,
    /// Nodes, those that are leaving among them.
    pub nodes: u32,
    /// The slots of each node, 1 to 8.
    pub slots: u8,
}

impl PoolMetrics {
    /// The count that the metric is. Of `CpuPercent` no value is known but by samples, so it is 0 here.
    fn count(&self, metric: Metric) -> u64
        ensures count { result ≡ count_of self.now metric }
        ensures bound { result < 2 ^ 33 }
    {
        match metric {
            Metric::CpuPercent => 0,
            Metric::ActiveTasks => u64::from(self.active),
            Metric::RunningTasks => u64::from(self.running),
            Metric::PendingTasks => u64::from(self.active) + u64::from(self.running),
            Metric::SucceededTasks => u64::from(self.succeeded),
            Metric::FailedTasks => u64::from(self.failed),
            Metric::TaskSlotsPerNode => u64::from(self.slots),
            Metric::CurrentDedicatedNodes => u64::from(self.nodes),
            Metric::CurrentLowPriorityNodes => 0,
            Metric::PreemptedNodeCount => 0,
        }
    }

    /// The value of the metric; that of `CpuPercent`, which is known by samples alone, is 0 here.
    pub fn value(&self, metric: Metric) -> Num
        ensures { result ≡ value_of self.now metric }
    {
        let millionths = 1_000_000 * self.count(metric);
        match Num::of_millionths(millionths as i64) {
            Some(value) => value,
            None => unreachable!(),
        }
    }
}

/// How many nodes the pool has.
#[tactic(auto, using(crate::proofs::MetricValues::few_counted))]
fn node_count(tables: &Tables, pool: &Id) -> u32
    requires { length tables.now.state.nodes ≤ seat_limit }
    ensures { result ≡ node_count tables.now.state pool.now }
{
    let _few = tables.node_count();
    tables.nodes().filter(|node| is_in_pool(pool, node)).count() as u32
}

/// The values of the pool's metrics now. It goes once over the tasks and once over the nodes, and does not allocate.
pub fn pool_metrics(indexed: &IndexedTables, pool: &PoolRow) -> PoolMetrics
    requires { CanSample indexed.now.state }
    ensures { result ≡ metrics_of indexed.now.state pool.now }
{
    let counts = count_tasks(indexed, &pool.id);
    PoolMetrics {
        active: counts.active,
        running: counts.running,
        succeeded: counts.succeeded,
        failed: counts.failed,
        nodes: node_count(indexed.tables(), &pool.id),
        slots: pool.slots,
    }
}
