//! Current values and samples of metrics.
ghost use Rattle.std.specs.Prelude.{◌≡◌, IfOk};
ghost use Rattle.bt_samples.specs.Histories.{push_answer};
ghost use Rattle.formula_metrics.specs.Parts.{blank, blank_metrics, part_of, with_part, with_current, with_sample};

use bt_base::{NoMemory, Num};
use bt_samples::{History, SampleTooOld};
use formula_trees::Metric;
use std::alloc::Global;

/// One metric: its value now, if it has one, and its last samples.
#[derive(Debug)]
pub struct MetricPart {
    /// Its value now; None if it has none.
    pub current: Option<Num>,
    /// Its last samples, 2,880 at most.
    pub history: History,
}

impl Drop for MetricPart {
    fn drop(self) {
        let MetricPart {
            current: _current,
            history: _history,
        } = self;
    }
}

/// The metrics of a pool.
#[derive(Debug)]
pub struct Metrics {
    /// `$CPUPercent`.
    pub cpu_percent: MetricPart,
    /// `$ActiveTasks`.
    pub active_tasks: MetricPart,
    /// `$RunningTasks`.
    pub running_tasks: MetricPart,
    /// `$PendingTasks`.
    pub pending_tasks: MetricPart,
    /// `$SucceededTasks`.
    pub succeeded_tasks: MetricPart,
    /// `$FailedTasks`.
    pub failed_tasks: MetricPart,
    /// `$TaskSlotsPerNode`.
    pub task_slots_per_node: MetricPart,
    /// `$CurrentDedicatedNodes`.
    pub current_dedicated_nodes: MetricPart,
    /// `$CurrentLowPriorityNodes`.
    pub current_low_priority_nodes: MetricPart,
    /// `$PreemptedNodeCount`.
    pub preempted_node_count: MetricPart,
}

impl Drop for Metrics {
    fn drop(self) {
        let Metrics {
            cpu_percent: _cpu_percent,
            active_tasks: _active_tasks,
            running_tasks: _running_tasks,
            pending_tasks: _pending_tasks,
            succeeded_tasks: _succeeded_tasks,
            failed_tasks: _failed_tasks,
            task_slots_per_node: _task_slots_per_node,
            current_dedicated_nodes: _current_dedicated_nodes,
            current_low_priority_nodes: _current_low_priority_nodes,
            preempted_node_count: _preempted_node_count,
        } = self;
    }
}

impl MetricPart {
    /// A metric without a current value and without samples. It allocates the memory of all samples that are ever kept.
    pub fn new(alloc: Global) -> Result<MetricPart, NoMemory>
        ensures { IfOk result (λ part. part ≡ blank) }
    {
        Ok(MetricPart {
            current: None,
            history: History::new(alloc)?,
        })
    }
}

impl Metrics {
    /// Metrics without current values and without samples. It allocates the memory of all samples that are ever kept.
    pub fn new(alloc: Global) -> Result<Metrics, NoMemory>
        ensures { IfOk result (λ metrics. metrics ≡ blank_metrics) }
    {
        Ok(Metrics {
            cpu_percent: MetricPart::new(alloc)?,
            active_tasks: MetricPart::new(alloc)?,
            running_tasks: MetricPart::new(alloc)?,
            pending_tasks: MetricPart::new(alloc)?,
            succeeded_tasks: MetricPart::new(alloc)?,
            failed_tasks: MetricPart::new(alloc)?,
            task_slots_per_node: MetricPart::new(alloc)?,
            current_dedicated_nodes: MetricPart::new(alloc)?,
            current_low_priority_nodes: MetricPart::new(alloc)?,
            preempted_node_count: MetricPart::new(alloc)?,
        })
    }

    /// One of the metrics. It does not allocate.
    pub fn part(&self, metric: Metric) -> &MetricPart
        ensures { result.now ≡ part_of self.now metric }
    {
        match metric {
            Metric::CpuPercent => &self.cpu_percent,
            Metric::ActiveTasks => &self.active_tasks,
            Metric::RunningTasks => &self.running_tasks,
            Metric::PendingTasks => &self.pending_tasks,
            Metric::SucceededTasks => &self.succeeded_tasks,
            Metric::FailedTasks => &self.failed_tasks,
            Metric::TaskSlotsPerNode => &self.task_slots_per_node,
            Metric::CurrentDedicatedNodes => &self.current_dedicated_nodes,
            Metric::CurrentLowPriorityNodes => &self.current_low_priority_nodes,
            Metric::PreemptedNodeCount => &self.preempted_node_count,
        }
    }

    /// Sets a metric's value now, or removes it. It does not allocate.
    pub fn set_current(&mut self, metric: Metric, current: Option<Num>)
        ensures { self.new ≡ with_part self.old metric (with_current (part_of self.old metric) current) }
    {
        match metric {
            Metric::CpuPercent => self.cpu_percent.current = current,
            Metric::ActiveTasks => self.active_tasks.current = current,
            Metric::RunningTasks => self.running_tasks.current = current,
            Metric::PendingTasks => self.pending_tasks.current = current,
            Metric::SucceededTasks => self.succeeded_tasks.current = current,
            Metric::FailedTasks => self.failed_tasks.current = current,
            Metric::TaskSlotsPerNode => self.task_slots_per_node.current = current,
            Metric::CurrentDedicatedNodes => self.current_dedicated_nodes.current = current,
            Metric::CurrentLowPriorityNodes => self.current_low_priority_nodes.current = current,
            Metric::PreemptedNodeCount => self.preempted_node_count.current = current,
        }
    }

    /// Adds a metric's newest sample, and removes the oldest past 2,880. `SampleTooOld` exactly if the label, in milliseconds since
    /// 1970, is not above the newest; then nothing changes. It does not allocate.
    pub fn push(&mut self, metric: Metric, label: u64, value: Num) -> Result<(), SampleTooOld>
        ensures answer { result ≡ push_answer (part_of self.old metric).history label }
        ensures samples { self.new ≡ with_part self.old metric (with_sample (part_of self.old metric) label value) }
    {
        match metric {
            Metric::CpuPercent => self.cpu_percent.history.push(label, value),
            Metric::ActiveTasks => self.active_tasks.history.push(label, value),
            Metric::RunningTasks => self.running_tasks.history.push(label, value),
            Metric::PendingTasks => self.pending_tasks.history.push(label, value),
            Metric::SucceededTasks => self.succeeded_tasks.history.push(label, value),
            Metric::FailedTasks => self.failed_tasks.history.push(label, value),
            Metric::TaskSlotsPerNode => self.task_slots_per_node.history.push(label, value),
            Metric::CurrentDedicatedNodes => self
                .current_dedicated_nodes
                .history
                .push(label, value),
            Metric::CurrentLowPriorityNodes => self
                .current_low_priority_nodes
                .history
                .push(label, value),
            Metric::PreemptedNodeCount => self.preempted_node_count.history.push(label, value),
        }
    }
}
