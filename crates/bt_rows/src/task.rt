//! Tasks.
ghost use Rattle.bt_rows.specs.Keys.{task_has_key, same_task};
ghost use Rattle.bt_rows.specs.Texts.{task_text, task_key_text, task_by_text, same_task_by_text};

use crate::run::Ending;
use crate::settings::Settings;
use bt_base::{CommandLine, Duplicate, Id, NoMemory};
use kept_table::{KeyText, Keyed};
use std::marker::Model;

/// What a task's ending does to its job (Azure: jobAction).
#[derive(Clone, Copy, Debug, PartialEq, Eq)]
pub enum JobAction {
    /// Nothing (Azure: none).
    Nothing,
    /// The job is disabled, and its placed tasks are requeued (Azure: disable).
    Disable,
    /// The job is terminated (Azure: terminate).
    Terminate,
}

/// The exit options that a task states for an ending (Azure: exitOptions).
#[derive(Clone, Copy, Debug, PartialEq, Eq)]
pub struct Given {
    /// What becomes of the job; None if it is not stated (Azure: jobAction).
    pub job: Option<JobAction>,
    /// Whether dependent tasks may go on; None if it is not stated (Azure: dependencyAction, which is `satisfy` or `block`).
    pub satisfies: Option<bool>,
}

/// The exit options that count for an ending, with the defaults of those that the task does not state (Azure: exitOptions).
#[derive(Clone, Copy, Debug, PartialEq, Eq)]
pub struct Options {
    /// What becomes of the job (Azure: jobAction).
    pub job: JobAction,
    /// Whether dependent tasks may go on (Azure: dependencyAction).
    pub satisfies: bool,
}

/// How a task runs on several nodes at once (Azure: multiInstanceSettings).
#[derive(Clone)]
pub struct Multi {
    /// The number of nodes, 1 to 32 (Azure: numberOfInstances).
    pub count: u8,
    /// The command line that each of the nodes runs first (Azure: coordinationCommandLine).
    pub line: CommandLine,
}

impl Drop for Multi {
    fn drop(self) {
        let Multi {
            count: _count,
            line: _line,
        } = self;
    }
}

/// How far a task has come. Its state in replies follows from its stage and its runs (Azure: state of a task).
#[derive(Clone, Copy, Debug, PartialEq, Eq)]
pub enum TaskStage {
    /// It is to be placed (Azure: active).
    Active,
    /// It is placed on a node, or on several (Azure: preparing, or running).
    Placed,
    /// It has ended (Azure: completed).
    Completed,
}

/// How a placed task is to be ended from outside its command line (this project's own).
#[derive(Clone, Copy, Debug, PartialEq, Eq)]
pub enum Want {
    /// It becomes active again, and does not count a failure.
    Requeue,
    /// It completes as terminated.
    Terminate,
    /// It completes since its longest time has passed.
    Wall,
    /// It is removed.
    Delete,
}

/// How a task was completed.
#[derive(Clone, Copy, Debug, PartialEq, Eq)]
pub enum How {
    /// By an ending of its command line.
    Ended(Ending),
    /// By the user, or with its job.
    Terminated,
    /// By the end of its longest time (Azure: constraints.maxWallClockTime).
    Wall,
}

/// The end of a completed task.
#[derive(Clone, Copy, Debug, PartialEq, Eq)]
pub struct Closed {
    /// How it was completed.
    pub how: How,
    /// Whether it succeeded, which is an ending with code 0 (Azure: executionInfo.result).
    pub success: bool,
    /// Whether tasks that depend on it may go on.
    pub satisfies: bool,
    /// When it was completed, in milliseconds since 1970 (Azure: executionInfo.endTime).
    pub at: u64,
}

/// A task of a job. Its key is the job and its id. Contracts see it as the record of all its fields, those of the settings among them. Its
/// small fields stand together, so that it has few gaps.
pub struct TaskRow {
    /// The id of the job, as the job spells it.
    pub job: Id,
    /// The id, unique among the job's tasks but for case (Azure: id).
    pub id: Id,
    /// The command line (Azure: commandLine).
    pub line: CommandLine,
    /// The slots that it holds of its node, 1 to 8 (Azure: requiredSlots).
    pub slots: u8,
    /// How far it has come.
    pub stage: TaskStage,
    /// How it is to be ended from outside its command line; None if it is not (this project's own).
    pub wanted: Option<Want>,
    /// The ending that counts for the present attempt in place of its main command's: that with which a coordination failed, or
    /// `NotStarted` where no run of the main command could be made; None if there is none (this project's own).
    pub fail: Option<Ending>,
    /// What it states beside its id, its command line and its slots.
    pub settings: Settings,
    /// The number of its present attempt, which is how often it was placed.
    pub attempt: u64,
    /// How many of its attempts failed since it was added or reactivated (Azure: executionInfo.retryCount).
    pub failures: u64,
    /// When the present attempt's first child program was started, in milliseconds since 1970; None if none was (Azure:
    /// executionInfo.startTime).
    pub started: Option<u64>,
    /// Its end; None if it is not completed.
    pub closed: Option<Closed>,
}

impl Drop for TaskRow {
    fn drop(self) {
        let TaskRow {
            job: _job,
            id: _id,
            line: _line,
            slots: _slots,
            stage: _stage,
            wanted: _wanted,
            fail: _fail,
            settings: _settings,
            attempt: _attempt,
            failures: _failures,
            started: _started,
            closed: _closed,
        } = self;
    }
}

impl Model for TaskRow {
    ghost use Rattle.bt_rows.specs.Tasks.{TaskFields};

    ghost Value = { TaskFields };

    ghost view = { λ t. record {
      job = t.job;
      id = t.id;
      line = t.line;
      slots = t.slots;
      retries = t.settings.retries;
      wall = t.settings.wall;
      retention = t.settings.retention;
      codes = t.settings.codes;
      ranges = t.settings.ranges;
      launch = t.settings.launch;
      other = t.settings.other;
      needs = t.settings.needs;
      spans = t.settings.spans;
      multi = t.settings.multi;
      stage = t.stage;
      attempt = t.attempt;
      failures = t.failures;
      wanted = t.wanted;
      fail = t.fail;
      started = t.started;
      closed = t.closed;
    } };
}

impl Duplicate for TaskRow {
    fn copy(&self) -> Result<TaskRow, NoMemory> {
        let job = self.job.copy()?;
        let id = self.id.copy()?;
        let line = self.line.copy()?;
        let settings = self.settings.copy()?;
        Ok(TaskRow {
            job,
            id,
            line,
            slots: self.slots,
            stage: self.stage,
            wanted: self.wanted,
            fail: self.fail,
            settings,
            attempt: self.attempt,
            failures: self.failures,
            started: self.started,
            closed: self.closed,
        })
    }
}

/// The key of a task.
pub struct TaskKey {
    /// The id of the job.
    pub job: Id,
    /// The id of the task.
    pub id: Id,
}

impl Drop for TaskKey {
    fn drop(self) {
        let TaskKey { job: _job, id: _id } = self;
    }
}

impl Duplicate for TaskKey {
    fn copy(&self) -> Result<TaskKey, NoMemory> {
        let job = self.job.copy()?;
        let id = self.id.copy()?;
        Ok(TaskKey { job, id })
    }
}

impl Keyed for TaskRow {
    type Key = TaskKey;

    ghost has_key = { task_has_key };

    ghost same_key = { same_task };

    ghost key_text = { task_key_text };

    ghost row_text = { task_text };

    ghost texts_decide = { record { has = task_by_text; same = same_task_by_text } };

    fn key_text(key: &TaskKey) -> KeyText {
        KeyText::of_ids(&key.job, &key.id)
    }

    fn row_text(&self) -> KeyText {
        KeyText::of_ids(&self.job, &self.id)
    }
}
