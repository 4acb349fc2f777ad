//! What a run belongs to.

use bt_base::{Duplicate, Id, NoMemory};
use bt_rows::run::{RunKind, RunRow};

/// What a run is and what it belongs to, for what its child program is told and for what is kept of it. Its number is not part of it.
#[derive(Drop)]
pub struct RunIdentity {
    /// What the run executes.
    pub kind: RunKind,
    /// The id of the node's pool (Azure: nodeInfo.poolId).
    pub pool: Id,
    /// The number of its node.
    pub node: u64,
    /// The id of the job; None for a start task's run.
    pub job: Option<Id>,
    /// The id of the task; None unless the run is a task's own or its coordination.
    pub task: Option<Id>,
}

impl RunIdentity {
    /// What this run is and what it belongs to, as its row spells it. The only error is out of memory.
    pub fn of_run(run: &RunRow) -> Result<RunIdentity, NoMemory> {
        let pool = run.pool.copy()?;
        let job = run.job.clone()?;
        let task = run.task.clone()?;
        Ok(RunIdentity {
            kind: run.kind,
            pool,
            node: run.node,
            job,
            task,
        })
    }
}
