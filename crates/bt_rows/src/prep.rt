//! Preparations of jobs on nodes.
ghost use Rattle.bt_rows.specs.Keys.{prep_has_key, same_prep};
ghost use Rattle.bt_rows.specs.Texts.{prep_text, prep_key_text, prep_by_text, same_prep_by_text};

use bt_base::{Duplicate, Id, NoMemory};
use kept_table::{KeyText, Keyed};

/// The state of a preparation (Azure: jobPreparationTaskExecutionInfo.state).
#[derive(Clone, Copy, Debug, PartialEq, Eq)]
pub enum PrepState {
    /// It is queued or runs, also again after a failure (Azure: running).
    Running,
    /// It ended with code 0 (Azure: completed).
    Completed,
    /// It failed for the last time, or was stopped (Azure: completed, with the result `failure`).
    Failed,
}

/// The state of a job's release task on the node (Azure: jobReleaseTaskExecutionInfo.state).
#[derive(Clone, Copy, Debug, PartialEq, Eq)]
pub enum ReleaseState {
    /// It was not made.
    No,
    /// It is queued or runs (Azure: running).
    Running,
    /// It has ended, with any code (Azure: completed).
    Done,
}

/// A job's preparation on a node (Azure: the status of job preparation and release tasks). Its key is the job and the node.
pub struct PrepRow {
    /// The id of the job (Azure: jobId).
    pub job: Id,
    /// The number of the node (in place of Azure's nodeId).
    pub node: u64,
    /// The state of the preparation.
    pub state: PrepState,
    /// How often it has failed (Azure: jobPreparationTaskExecutionInfo.retryCount).
    pub tries: u64,
    /// Whether a task of the job was started on the node, so that the release task runs there (this project's own).
    pub ran: bool,
    /// The state of the release task.
    pub release: ReleaseState,
}

impl Drop for PrepRow {
    fn drop(self) {
        let PrepRow {
            job: _job,
            node: _node,
            state: _state,
            tries: _tries,
            ran: _ran,
            release: _release,
        } = self;
    }
}

/// The key of a preparation.
pub struct PrepKey {
    /// The id of the job.
    pub job: Id,
    /// The number of the node.
    pub node: u64,
}

impl Drop for PrepKey {
    fn drop(self) {
        let PrepKey {
            job: _job,
            node: _node,
        } = self;
    }
}

impl Duplicate for PrepRow {
    fn copy(&self) -> Result<PrepRow, NoMemory> {
        let job = self.job.copy()?;
        Ok(PrepRow {
            job,
            node: self.node,
            state: self.state,
            tries: self.tries,
            ran: self.ran,
            release: self.release,
        })
    }
}

impl Duplicate for PrepKey {
    fn copy(&self) -> Result<PrepKey, NoMemory> {
        let job = self.job.copy()?;
        Ok(PrepKey {
            job,
            node: self.node,
        })
    }
}

impl Keyed for PrepRow {
    type Key = PrepKey;

    ghost has_key = { prep_has_key };

    ghost same_key = { same_prep };

    ghost key_text = { prep_key_text };

    ghost row_text = { prep_text };

    ghost texts_decide = { record { has = prep_by_text; same = same_prep_by_text } };

    fn key_text(key: &PrepKey) -> KeyText {
        KeyText::of_number_and_id(key.node, &key.job)
    }

    fn row_text(&self) -> KeyText {
        KeyText::of_number_and_id(self.node, &self.job)
    }
}
