//! Replies to events, reads and due steps.

use crate::due::Due;
use crate::job::JobState;
use crate::node::NodeStage;
use crate::pool::{Alloc, ResizeError};
use crate::refusal::Refusal;
use crate::task::How;
use bt_base::{CommandLine, Id, List, Text, Word};

/// The answer to one element of a collection.
#[derive(Drop)]
pub enum Element {
    /// The task with this id was added.
    Added(Id),
    /// The task with this id was not added.
    NotAdded(Id, Refusal),
}

/// A pool as a reply shows it.
pub struct PoolItem {
    /// The id (Azure: id).
    pub id: Id,
    /// Whether the pool is being deleted (Azure: state, which is `deleting` or `active`).
    pub deleting: bool,
    /// Whether the pool is being resized (Azure: allocationState).
    pub alloc: Alloc,
    /// How many dedicated nodes it has now (Azure: currentDedicatedNodes).
    pub current_dedicated: u64,
    /// How many low-priority nodes it has now, which is 0 (Azure: currentLowPriorityNodes).
    pub current_low: u64,
    /// The wanted number of dedicated nodes, 0 to 1,000 (Azure: targetDedicatedNodes).
    pub dedicated: u32,
    /// The wanted number of low-priority nodes, which is 0 (Azure: targetLowPriorityNodes).
    pub low: u32,
    /// The slots of each node, 1 to 8 (Azure: taskSlotsPerNode).
    pub slots: u8,
    /// Whether it scales automatically (Azure: enableAutoScale).
    pub scales: bool,
    /// Why the last resize ended before its target was reached; None if it did not (Azure: resizeErrors).
    pub error: Option<ResizeError>,
}

impl Drop for PoolItem {
    fn drop(self) {
        let PoolItem {
            id: _id,
            deleting: _deleting,
            alloc: _alloc,
            current_dedicated: _current_dedicated,
            current_low: _current_low,
            dedicated: _dedicated,
            low: _low,
            slots: _slots,
            scales: _scales,
            error: _error,
        } = self;
    }
}

/// A node as a reply shows it.
pub struct NodeItem {
    /// The number (in place of Azure's id).
    pub number: u64,
    /// The seat of the machine, from 1 on (this project's own).
    pub seat: u8,
    /// How far it has come, of which its state follows (Azure: state).
    pub stage: NodeStage,
    /// Of a starting node, whether its start task runs; of a usable one, whether it holds slots.
    pub busy: bool,
}

impl Drop for NodeItem {
    fn drop(self) {
        let NodeItem {
            number: _number,
            seat: _seat,
            stage: _stage,
            busy: _busy,
        } = self;
    }
}

/// The state of a node as replies and tables show it (Azure: state of a compute node).
#[derive(Clone, Copy, Debug, PartialEq, Eq)]
pub enum NodeState {
    /// It waits for its start task, which does not run yet (Azure: starting).
    Starting,
    /// It waits for its start task, which runs (Azure: waitingforstarttask).
    WaitingForStartTask,
    /// Its start task failed for the last time (Azure: starttaskfailed).
    StartTaskFailed,
    /// It is usable, and no task holds a slot of it (Azure: idle).
    Idle,
    /// A task holds a slot of it (Azure: running).
    Running,
    /// It leaves its pool (Azure: leavingpool).
    LeavingPool,
}

/// A job as a reply shows it.
pub struct JobItem {
    /// The id (Azure: id).
    pub id: Id,
    /// The id of its pool (Azure: poolInfo.poolId).
    pub pool: Id,
    /// The state (Azure: state).
    pub state: JobState,
    /// The priority, -1,000 to 1,000 (Azure: priority).
    pub priority: i32,
    /// The greatest number of placed tasks, 1 to 2,147,483,647, or -1 for no limit (Azure: maxParallelTasks).
    pub parallel: i32,
    /// Why it was terminated; None if it was not (Azure: executionInfo.terminateReason).
    pub reason: Option<Text>,
}

impl Drop for JobItem {
    fn drop(self) {
        let JobItem {
            id: _id,
            pool: _pool,
            state: _state,
            priority: _priority,
            parallel: _parallel,
            reason: _reason,
        } = self;
    }
}

/// The state of a task as a reply shows it (Azure: state of a task).
#[derive(Clone, Copy, Debug, PartialEq, Eq)]
pub enum TaskState {
    /// It is to be placed (Azure: active).
    Active,
    /// It is placed, and waits for the job's preparation (Azure: preparing).
    Preparing,
    /// It is placed, and does not wait (Azure: running).
    Running,
    /// It has ended (Azure: completed).
    Completed,
}

/// A task as a reply shows it.
pub struct TaskItem {
    /// The id (Azure: id).
    pub id: Id,
    /// The command line (Azure: commandLine).
    pub line: CommandLine,
    /// The state (Azure: state).
    pub state: TaskState,
    /// How it was completed; None if it is not (Azure: executionInfo.exitCode).
    pub how: Option<How>,
    /// Whether it succeeded; None if it is not completed (Azure: executionInfo.result).
    pub success: Option<bool>,
    /// How many of its attempts failed (Azure: executionInfo.retryCount).
    pub failures: u64,
}

impl Drop for TaskItem {
    fn drop(self) {
        let TaskItem {
            id: _id,
            line: _line,
            state: _state,
            how: _how,
            success: _success,
            failures: _failures,
        } = self;
    }
}

/// How many tasks of a job are in each state (Azure: taskCounts of Get Job Task Counts).
#[derive(Clone, Copy, Debug, PartialEq, Eq)]
pub struct TaskCounts {
    /// Active tasks (Azure: active).
    pub active: u64,
    /// Placed tasks, with those that are preparing (Azure: running).
    pub running: u64,
    /// Completed tasks (Azure: completed).
    pub completed: u64,
    /// Completed tasks with success (Azure: succeeded).
    pub succeeded: u64,
    /// Completed tasks without success (Azure: failed).
    pub failed: u64,
}

/// What a read shows.
#[derive(Drop)]
pub enum Item {
    /// A pool.
    Pool(PoolItem),
    /// A node.
    Node(NodeItem),
    /// A job.
    Job(JobItem),
    /// A task.
    Task(TaskItem),
    /// The counts of a job's tasks.
    Counts(TaskCounts),
}

/// A queued run, and the words that its child program is started with.
pub struct QueuedRun {
    /// The number of the run.
    pub number: u64,
    /// The words of its command line, of which the first names the program.
    pub words: List<Word>,
}

impl Drop for QueuedRun {
    fn drop(self) {
        let QueuedRun {
            number: _number,
            words: _words,
        } = self;
    }
}

/// The answer to an event, a read or a due step.
#[derive(Drop)]
pub enum Reply {
    /// A status of HTTP alone, 200 to 204.
    Status(u16),
    /// The request was refused, and changed nothing but the moment.
    Refused(Refusal),
    /// One for each element of a collection, in order.
    Elements(List<Element>),
    /// The results text of a formula, or its error.
    Results(Text),
    /// One row.
    One(Item),
    /// The items of a list, and the last one's id if more follow.
    Page(List<Item>, Option<Id>),
    /// What a due step did.
    Step(Due),
}
