//! Due steps: what the service does by itself when a rule applies.

use bt_base::{Id, Text};

/// How a placed task was settled.
#[derive(Clone, Copy, Debug, PartialEq, Eq)]
pub enum Outcome {
    /// It was removed with its runs.
    Deleted,
    /// It is completed, with success.
    Success,
    /// It is completed, without success.
    Failure,
    /// It is active again, with this number of failures.
    Again(u64),
}

/// How a job ended.
#[derive(Clone, Copy, Debug, PartialEq, Eq)]
pub enum JobEnd {
    /// It is completed, and its row stays.
    Kept,
    /// It was deleted: its row is dropped, with its tasks and runs.
    Removed,
}

/// How a resize ended.
#[derive(Clone, Copy, Debug, PartialEq, Eq)]
pub enum ResizeEnd {
    /// The pool was deleted, and its row is dropped.
    Removed,
    /// The pool has as many nodes as its target.
    Reached,
    /// The timeout passed before.
    TimedOut,
    /// The user stopped it before.
    Stopped,
}

/// A due step, with the values that its line prints (this project's profile).
#[derive(Drop)]
pub enum Due {
    /// `U1`: a pool and the label of its samples, in milliseconds since 1970.
    Sampled(Id, u64),
    /// `U2`: a job and its task whose longest time has passed.
    TaskTimedOut(Id, Id),
    /// `U3`: a release run whose longest time has passed.
    ReleaseTimedOut(u64),
    /// `U4`: a job whose longest time has passed.
    JobTimedOut(Id),
    /// `U5`: a job, its task and how it was settled.
    TaskSettled(Id, Id, Outcome),
    /// `U6`: a job that is active again.
    JobEnabled(Id),
    /// `U7`: a job whose tasks are all completed.
    TasksDone(Id),
    /// `U8`: a job that is disabled.
    JobDisabled(Id),
    /// `U9`: a job, a node and the number of the release run there.
    ReleaseMade(Id, u64, u64),
    /// `U10`: a job and how it ended.
    JobEnded(Id, JobEnd),
    /// `U11`: a pool and how its resize ended.
    PoolResized(Id, ResizeEnd),
    /// `U12`: a pool and the text of its formula's results, or of its error.
    PoolScaled(Id, Text),
    /// `U13`: a node that begins to leave.
    NodeLeaves(u64),
    /// `U14`: a node that is dropped.
    NodeDropped(u64),
    /// `U15`: a pool, the number of its new node and the node's seat.
    NodeAdded(Id, u64, u8),
    /// `U16`: a job, its task, the number of the first node and that of the task's first run.
    TaskPlaced(Id, Id, u64, u64),
}
