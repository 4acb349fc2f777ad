//! Routes.

/// What a path names (Azure Batch REST reference, in this project's profile).
#[derive(Clone, Copy, Debug, PartialEq, Eq)]
pub enum Route {
    /// `/pools`
    Pools,
    /// `/pools/{pool}`
    Pool,
    /// `/pools/{pool}/resize`
    PoolResize,
    /// `/pools/{pool}/stopresize`
    PoolStopResize,
    /// `/pools/{pool}/enableautoscale`
    PoolEnableAutoscale,
    /// `/pools/{pool}/disableautoscale`
    PoolDisableAutoscale,
    /// `/pools/{pool}/evaluateautoscale`
    PoolEvaluateAutoscale,
    /// `/pools/{pool}/nodes`
    PoolNodes,
    /// `/jobs`
    Jobs,
    /// `/jobs/{job}`
    Job,
    /// `/jobs/{job}/disable`
    JobDisable,
    /// `/jobs/{job}/enable`
    JobEnable,
    /// `/jobs/{job}/terminate`
    JobTerminate,
    /// `/jobs/{job}/addtaskcollection`
    JobAddTasks,
    /// `/jobs/{job}/tasks`
    JobTasks,
    /// `/jobs/{job}/taskcounts`
    JobTaskCounts,
    /// `/jobs/{job}/tasks/{task}`
    Task,
    /// `/jobs/{job}/tasks/{task}/terminate`
    TaskTerminate,
    /// `/jobs/{job}/tasks/{task}/reactivate`
    TaskReactivate,
}
