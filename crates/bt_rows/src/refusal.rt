//! Refusals of requests.

use crate::job::JobState;
use crate::member::Member;
pub use bt_base::FormulaFault;

/// A table with a limit on its rows (this project's profile).
#[derive(Clone, Copy, Debug, PartialEq, Eq)]
pub enum Table {
    /// At most 64 pools.
    Pools,
    /// At most 10,000 jobs.
    Jobs,
    /// At most 1,000,000 tasks, of all jobs together.
    Tasks,
}

/// Why a request is refused. Names are those of the error codes of the Azure Batch REST reference where it has one.
#[derive(Clone, Copy, Debug, PartialEq, Eq)]
pub enum Refusal {
    /// The line is not a line of the profile, or its body is not a JSON object.
    UnreadableBody,
    /// This member is missing, of a wrong kind or out of range.
    InvalidPropertyValue(Member),
    /// No pool has the id.
    PoolNotFound,
    /// A pool has the id, but for case.
    PoolExists,
    /// The pool is being deleted.
    PoolBeingDeleted,
    /// The pool is being resized, or its resize is being stopped.
    PoolBeingResized,
    /// The pool scales automatically, so that it is not resized by request.
    PoolScalesAutomatically,
    /// The pool does not scale automatically, or no formula is stated for it.
    PoolDoesNotScale,
    /// Automatic scaling was enabled less than 30 seconds ago: at this moment, in milliseconds since 1970.
    AutoscaleTooSoon(u64),
    /// The formula has this fault.
    FormulaRefused(FormulaFault),
    /// No node has the number.
    NodeNotFound,
    /// The pool is not being resized.
    PoolNotResizing,
    /// No job has the id.
    JobNotFound,
    /// A job has the id, but for case.
    JobExists,
    /// The job's state does not allow the request.
    JobStateRefuses(JobState),
    /// No task of the job has the id.
    TaskNotFound,
    /// A task of the job has the id, but for case.
    TaskExists,
    /// The task is completed.
    TaskCompleted,
    /// The task is not completed, or succeeded, so that it is not made active again.
    TaskNotReactivable,
    /// The task depends on others or states what its dependents do, and the job does not use dependencies.
    DependenciesOff,
    /// The ids that the task depends on have more than 64,000 characters together.
    DependencyListTooLong,
    /// The task states a job action, and the job does none.
    JobActionOff,
    /// The task runs on several nodes, and asks for more than one slot of each.
    InstanceSlots,
    /// The collection has more than 100 tasks.
    CollectionTooLong,
    /// No run has the number.
    RunNotFound,
    /// The run has ended.
    RunAlreadyEnded,
    /// The run's child program was started before.
    RunAlreadyTaken,
    /// The run's child program was not started.
    RunNotTaken,
    /// The run was withdrawn.
    RunWithdrawn,
    /// The run waits for the job's preparation.
    RunWaiting,
    /// The table has as many rows as its limit, which is the number.
    TableFull(Table, u64),
    /// The pool has a sample with this label or a later one; the newest one's label, in milliseconds since 1970.
    SampleTooOld(u64),
    /// The job is terminated once its tasks are completed, which cannot be taken back.
    TerminationEngaged,
}
