//! Metrics of a pool.

/// A metric of a pool, which autoscale formulas read by the name given here (Azure Batch documentation of autoscale
/// formulas).
#[derive(Clone, Copy, PartialEq, Eq, Debug)]
pub enum Metric {
    /// `$CPUPercent`
    CpuPercent,
    /// `$ActiveTasks`
    ActiveTasks,
    /// `$RunningTasks`
    RunningTasks,
    /// `$PendingTasks`
    PendingTasks,
    /// `$SucceededTasks`
    SucceededTasks,
    /// `$FailedTasks`
    FailedTasks,
    /// `$TaskSlotsPerNode`
    TaskSlotsPerNode,
    /// `$CurrentDedicatedNodes`
    CurrentDedicatedNodes,
    /// `$CurrentLowPriorityNodes`
    CurrentLowPriorityNodes,
    /// `$PreemptedNodeCount`
    PreemptedNodeCount,
}
