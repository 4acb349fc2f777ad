//! Jobs.
ghost use Rattle.kept_table.specs.Keys.{id_text};
ghost use Rattle.bt_rows.specs.Keys.{job_has_id, same_job};
ghost use Rattle.bt_rows.specs.Texts.{job_text, job_by_text, same_job_by_text};

use crate::pool::StartTask;
use bt_base::{CommandLine, Duplicate, Id, NoMemory, Text};
use kept_table::{KeyText, Keyed};

/// The state of a job (Azure: state of a job).
#[derive(Clone, Copy, Debug, PartialEq, Eq)]
pub enum JobState {
    /// Its tasks are placed (Azure: active).
    Active,
    /// It is to be disabled, and has placed tasks yet (Azure: disabling).
    Disabling,
    /// None of its tasks is placed until it is enabled (Azure: disabled).
    Disabled,
    /// It was enabled, and is active with the next due step (Azure: enabling).
    Enabling,
    /// It is to be completed, and its tasks and release tasks are ending (Azure: terminating).
    Terminating,
    /// It has ended, and takes no tasks (Azure: completed).
    Completed,
    /// It is to be removed, and its tasks and release tasks are ending (Azure: deleting).
    Deleting,
}

/// What runs when a job ends, on each node where a task of it was started (Azure: jobReleaseTask).
#[derive(Clone)]
pub struct ReleaseTask {
    /// The command line (Azure: commandLine).
    pub line: CommandLine,
    /// The longest time that it may run, in milliseconds, 0 to 900,000 (Azure: maxWallClockTime).
    pub wall: u64,
}

impl Drop for ReleaseTask {
    fn drop(self) {
        let ReleaseTask {
            line: _line,
            wall: _wall,
        } = self;
    }
}

/// A job. Its key is its id.
pub struct JobRow {
    /// The id, unique among jobs but for case (Azure: id).
    pub id: Id,
    /// The id of the pool that its tasks run in, as the pool spells it (Azure: poolInfo.poolId).
    pub pool: Id,
    /// The state (Azure: state).
    pub state: JobState,
    /// The priority, -1,000 to 1,000; a greater number is a higher one (Azure: priority).
    pub priority: i32,
    /// The greatest number of placed tasks, 1 to 2,147,483,647, or -1 for no limit (Azure: maxParallelTasks).
    pub parallel: i32,
    /// How often a task that names no number is tried again after a failure: 0 to 1,000,000, or -1 for no limit (Azure:
    /// constraints.maxTaskRetryCount).
    pub retries: i32,
    /// The longest time from its creation to its end, in milliseconds, 0 to 3,153,600,000,000; None for no limit (Azure:
    /// constraints.maxWallClockTime).
    pub wall: Option<u64>,
    /// Whether its tasks may depend on others (Azure: usesTaskDependencies).
    pub deps: bool,
    /// Whether it is terminated once all its tasks are completed (Azure: onAllTasksComplete, which is `terminatejob` or
    /// `noaction`).
    pub on_all: bool,
    /// Whether the job action of an ended task is done (Azure: onTaskFailure, which is `performexitoptionsjobaction` or
    /// `noaction`).
    pub on_fail: bool,
    /// What runs on a node before its first task of the job; None if there is none (Azure: jobPreparationTask).
    pub prep: Option<StartTask>,
    /// What runs when the job ends; None if there is none (Azure: jobReleaseTask).
    pub release: Option<ReleaseTask>,
    /// When it was added, in milliseconds since 1970 (Azure: creationTime).
    pub created: u64,
    /// Why it was terminated, 1 to 256 bytes; None if it was not (Azure: executionInfo.terminateReason).
    pub reason: Option<Text>,
}

impl Drop for JobRow {
    fn drop(self) {
        let JobRow {
            id: _id,
            pool: _pool,
            state: _state,
            priority: _priority,
            parallel: _parallel,
            retries: _retries,
            wall: _wall,
            deps: _deps,
            on_all: _on_all,
            on_fail: _on_fail,
            prep: _prep,
            release: _release,
            created: _created,
            reason: _reason,
        } = self;
    }
}

impl Duplicate for JobRow {
    fn copy(&self) -> Result<JobRow, NoMemory> {
        let id = self.id.copy()?;
        let pool = self.pool.copy()?;
        let prep = self.prep.clone()?;
        let release = self.release.clone()?;
        let reason = self.reason.clone()?;
        Ok(JobRow {
            id,
            pool,
            state: self.state,
            priority: self.priority,
            parallel: self.parallel,
            retries: self.retries,
            wall: self.wall,
            deps: self.deps,
            on_all: self.on_all,
            on_fail: self.on_fail,
            prep,
            release,
            created: self.created,
            reason,
        })
    }
}

impl Keyed for JobRow {
    type Key = Id;

    ghost has_key = { job_has_id };

    ghost same_key = { same_job };

    ghost key_text = { id_text };

    ghost row_text = { job_text };

    ghost texts_decide = { record { has = job_by_text; same = same_job_by_text } };

    fn key_text(id: &Id) -> KeyText {
        KeyText::of_id(id)
    }

    fn row_text(&self) -> KeyText {
        KeyText::of_id(&self.id)
    }
}
