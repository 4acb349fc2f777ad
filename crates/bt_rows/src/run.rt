//! Runs: executions of command lines on nodes.
ghost use Rattle.kept_table.specs.Keys.{number_text};
ghost use Rattle.bt_rows.specs.Keys.{run_has_number, same_run};
ghost use Rattle.bt_rows.specs.Texts.{run_text, run_by_text, same_run_by_text};

use bt_base::{CommandLine, Duplicate, Id, NoMemory};
use kept_table::{KeyText, Keyed};

/// How a child program ended.
#[derive(Clone, Copy, Debug, PartialEq, Eq)]
pub enum Ending {
    /// With this exit code (Azure: executionInfo.exitCode).
    Code(i32),
    /// Without an exit code, as by a signal (this project's own).
    NoCode,
    /// It could not be started (Azure: a failureInfo from before the start, which `preProcessingError` speaks of).
    NotStarted,
}

/// What a run executes.
#[derive(Clone, Copy, Debug, PartialEq, Eq)]
pub enum RunKind {
    /// The start task of the node's pool (Azure: startTask).
    Start,
    /// The preparation of a job (Azure: jobPreparationTask).
    Prep,
    /// The command line of a task (Azure: commandLine).
    Task,
    /// The coordination command of a task with several instances (Azure: multiInstanceSettings.coordinationCommandLine).
    Coordination,
    /// The release task of a job (Azure: jobReleaseTask).
    Release,
}

/// How far a run has come. It is unended while it waits, is queued, or is taken.
#[derive(Clone, Copy, Debug, PartialEq, Eq)]
pub enum RunState {
    /// It waits for the job's preparation on the node.
    Waiting,
    /// Its child program may be started.
    Queued,
    /// Its child program was started.
    Taken,
    /// Its child program ended like this.
    Ended(Ending),
    /// It was taken back before its child program was started, or the service was opened again while it was unended.
    Withdrawn,
}

/// A run: one execution of a command line on a node. Its key is its number. All of it is this project's own, but for what
/// names a property of Azure.
/// Its small fields stand together, so that it has no gaps.
pub struct RunRow {
    /// The number, 1 to 10^15, in order of making; it is never used again.
    pub number: u64,
    /// The number of its node.
    pub node: u64,
    /// The id of the node's pool (Azure: nodeInfo.poolId).
    pub pool: Id,
    /// The id of the job; None for a start task's run.
    pub job: Option<Id>,
    /// The id of the task; None unless the run is a task's own or its coordination.
    pub task: Option<Id>,
    /// The number of the task's attempt that it belongs to, from 1 on; 0 if it is no task's.
    pub attempt: u64,
    /// The command line that is executed (Azure: commandLine).
    pub line: CommandLine,
    /// When it was made, in milliseconds since 1970.
    pub made: u64,
    /// When its child program was started, in milliseconds since 1970; None if it was not (Azure: executionInfo.startTime).
    pub taken: Option<u64>,
    /// When it ended or was withdrawn, in milliseconds since 1970; None if it is unended (Azure: executionInfo.endTime).
    pub ended: Option<u64>,
    /// How far it has come.
    pub state: RunState,
    /// What it executes.
    pub kind: RunKind,
    /// The slots of the node that it holds, 1 to 8; 0 for a start, preparation or release run, and for the main run of a task
    /// with several instances (Azure: requiredSlots).
    pub slots: u8,
    /// Whether the node was asked to stop the child program.
    pub asked: bool,
}

impl Drop for RunRow {
    fn drop(self) {
        let RunRow {
            number: _number,
            node: _node,
            pool: _pool,
            job: _job,
            task: _task,
            attempt: _attempt,
            line: _line,
            made: _made,
            taken: _taken,
            ended: _ended,
            state: _state,
            kind: _kind,
            slots: _slots,
            asked: _asked,
        } = self;
    }
}

impl Duplicate for RunRow {
    fn copy(&self) -> Result<RunRow, NoMemory> {
        let pool = self.pool.copy()?;
        let job = self.job.clone()?;
        let task = self.task.clone()?;
        let line = self.line.copy()?;
        Ok(RunRow {
            number: self.number,
            kind: self.kind,
            node: self.node,
            pool,
            job,
            task,
            attempt: self.attempt,
            line,
            slots: self.slots,
            state: self.state,
            asked: self.asked,
            made: self.made,
            taken: self.taken,
            ended: self.ended,
        })
    }
}

impl Keyed for RunRow {
    type Key = u64;

    ghost has_key = { run_has_number };

    ghost same_key = { same_run };

    ghost key_text = { number_text };

    ghost row_text = { run_text };

    ghost texts_decide = { record { has = run_by_text; same = same_run_by_text } };

    fn key_text(number: &u64) -> KeyText {
        KeyText::of_number(*number)
    }

    fn row_text(&self) -> KeyText {
        KeyText::of_number(self.number)
    }
}
