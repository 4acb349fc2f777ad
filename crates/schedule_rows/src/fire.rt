//! The calls that schedules make.

use batch_desk::Answer;
use bt_base::Id;
use bt_rows::event::Event;

/// The kind of a call that a schedule makes.
#[derive(Clone, Copy, Debug, PartialEq, Eq)]
pub enum FireWord {
    /// `add-job`: its next job is added.
    AddJob,
    /// `add-tasks`: its tasks are added to its last job.
    AddTasks,
    /// `patch-job`: its last job is to be terminated once the tasks are completed.
    PatchJob,
}

/// A call that a schedule is to make.
#[derive(Drop)]
pub struct FireCall {
    /// The id of the job.
    pub job: Id,
    /// The kind of the call.
    pub word: FireWord,
    /// The event.
    pub event: Event,
}

/// A call that a schedule made, with its answer.
#[derive(Drop)]
pub struct Fire {
    /// The id of the job.
    pub job: Id,
    /// The kind of the call.
    pub word: FireWord,
    /// The answer.
    pub answer: Answer,
}
