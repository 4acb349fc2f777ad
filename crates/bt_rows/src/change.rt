//! Changes of rows, and copies of changes.
ghost use Rattle.std.specs.Prelude.{◌≡◌, IfOk};
ghost use Rattle.bt_rows.specs.declared.tables.Change.TheVariants.{PutPool, PutNode, PutJob, PutTask, PutRun, PutPrep, PutSample, PutScale};

use crate::job::JobRow;
use crate::node::NodeRow;
use crate::pool::PoolRow;
use crate::prep::PrepRow;
use crate::run::RunRow;
use crate::sample::SampleRow;
use crate::scale::ScaleRow;
use crate::tables::Change;
use crate::task::TaskRow;
use bt_base::{Duplicate, NoMemory, Shared};
use std::alloc::Global;

impl Change {
    /// The change that puts a pool. The only error is out of memory.
    pub fn put_pool(alloc: Global, row: PoolRow) -> Result<Change, NoMemory>
        ensures { IfOk result (λ change. change ≡ PutPool row) }
    {
        Ok(Change::PutPool(Shared::new(alloc, row)?))
    }

    /// The change that puts a node. The only error is out of memory.
    pub fn put_node(alloc: Global, row: NodeRow) -> Result<Change, NoMemory>
        ensures { IfOk result (λ change. change ≡ PutNode row) }
    {
        Ok(Change::PutNode(Shared::new(alloc, row)?))
    }

    /// The change that puts a job. The only error is out of memory.
    pub fn put_job(alloc: Global, row: JobRow) -> Result<Change, NoMemory>
        ensures { IfOk result (λ change. change ≡ PutJob row) }
    {
        Ok(Change::PutJob(Shared::new(alloc, row)?))
    }

    /// The change that puts a task. The only error is out of memory.
    pub fn put_task(alloc: Global, row: TaskRow) -> Result<Change, NoMemory>
        ensures { IfOk result (λ change. change ≡ PutTask row) }
    {
        Ok(Change::PutTask(Shared::new(alloc, row)?))
    }

    /// The change that puts a run. The only error is out of memory.
    pub fn put_run(alloc: Global, row: RunRow) -> Result<Change, NoMemory>
        ensures { IfOk result (λ change. change ≡ PutRun row) }
    {
        Ok(Change::PutRun(Shared::new(alloc, row)?))
    }

    /// The change that puts a preparation. The only error is out of memory.
    pub fn put_prep(alloc: Global, row: PrepRow) -> Result<Change, NoMemory>
        ensures { IfOk result (λ change. change ≡ PutPrep row) }
    {
        Ok(Change::PutPrep(Shared::new(alloc, row)?))
    }

    /// The change that puts a sample. The only error is out of memory.
    pub fn put_sample(alloc: Global, row: SampleRow) -> Result<Change, NoMemory>
        ensures { IfOk result (λ change. change ≡ PutSample row) }
    {
        Ok(Change::PutSample(Shared::new(alloc, row)?))
    }

    /// The change that puts the scaling of a pool. The only error is out of memory.
    pub fn put_scale(alloc: Global, row: ScaleRow) -> Result<Change, NoMemory>
        ensures { IfOk result (λ change. change ≡ PutScale row) }
    {
        Ok(Change::PutScale(Shared::new(alloc, row)?))
    }
}

impl Duplicate for Change {
    fn copy(&self) -> Result<Change, NoMemory> {
        match self {
            Change::PutPool(row) => Ok(Change::PutPool(row.copy()?)),
            Change::DropPool(key) => Ok(Change::DropPool(key.copy()?)),
            Change::PutNode(row) => Ok(Change::PutNode(row.copy()?)),
            Change::DropNode(number) => Ok(Change::DropNode(*number)),
            Change::PutJob(row) => Ok(Change::PutJob(row.copy()?)),
            Change::DropJob(key) => Ok(Change::DropJob(key.copy()?)),
            Change::PutTask(row) => Ok(Change::PutTask(row.copy()?)),
            Change::DropTask(key) => Ok(Change::DropTask(key.copy()?)),
            Change::PutRun(row) => Ok(Change::PutRun(row.copy()?)),
            Change::DropRun(number) => Ok(Change::DropRun(*number)),
            Change::PutPrep(row) => Ok(Change::PutPrep(row.copy()?)),
            Change::DropPrep(key) => Ok(Change::DropPrep(key.copy()?)),
            Change::PutSample(row) => Ok(Change::PutSample(row.copy()?)),
            Change::DropSample(key) => Ok(Change::DropSample(key.copy()?)),
            Change::PutScale(row) => Ok(Change::PutScale(row.copy()?)),
            Change::DropScale(key) => Ok(Change::DropScale(key.copy()?)),
            Change::Counters(node, run) => Ok(Change::Counters(*node, *run)),
            Change::Now(moment) => Ok(Change::Now(*moment)),
        }
    }
}
