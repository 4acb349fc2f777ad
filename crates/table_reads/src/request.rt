//! Reads, as they are asked for.

use bt_base::Id;

/// The greatest number of elements of a list that one read shows (Azure Batch REST reference: maxresults).
pub const MAX_RESULTS: u32 = 1_000;

/// How much of a list is shown.
pub struct Listing {
    /// The greatest number of elements, 1 to `MAX_RESULTS` (Azure: maxresults).
    pub count: u32,
    /// The id after whose element the list begins; None for its beginning (this project's own). The id of a node is `node-`
    /// and its number.
    pub after: Option<Id>,
}

impl Drop for Listing {
    fn drop(self) {
        let Listing {
            count: _count,
            after: _after,
        } = self;
    }
}

/// What is asked of the tables (Azure Batch REST reference). Ids are compared without regard to case.
#[derive(Drop)]
pub enum Read {
    /// The pool with this id (Azure: Get Pool).
    GetPool(Id),
    /// The pools (Azure: List Pools).
    ListPools(Listing),
    /// The nodes of the pool with this id (Azure: List Nodes).
    ListNodes(Id, Listing),
    /// The job with this id (Azure: Get Job).
    GetJob(Id),
    /// The jobs (Azure: List Jobs).
    ListJobs(Listing),
    /// The task of the job with the first id that has the second id (Azure: Get Task).
    GetTask(Id, Id),
    /// The tasks of the job with this id (Azure: List Tasks).
    ListTasks(Id, Listing),
    /// How many tasks of the job with this id are in each state (Azure: Get Job Task Counts).
    TaskCounts(Id),
}
