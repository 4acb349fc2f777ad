//! Runs whose child programs can be started.
ghost use Rattle.std.specs.Prelude.{◌≡◌};

use bt_base::Word;
use bt_rows::reply::QueuedRun;
use child_runs::RunIdentity;
use std::marker::Model;

/// A queued run with the words that its child program is started with, and what the run is and belongs to. Contracts see it as the
/// queued run.
#[derive(Drop)]
pub struct StartableRun {
    queued: QueuedRun,
    identity: RunIdentity,
}

impl Model for StartableRun {
    ghost use Rattle.bt_rows.specs.declared.reply.QueuedRun.{QueuedRun};

    ghost Value = { QueuedRun };

    ghost view = { λ s. s.queued };
}

impl StartableRun {
    /// The queued run, with what it is and belongs to. It does not allocate.
    pub(crate) fn new(queued: QueuedRun, identity: RunIdentity) -> StartableRun
        ensures { result ≡ queued }
    {
        StartableRun { queued, identity }
    }

    /// The number of the run. It does not allocate.
    pub fn number(&self) -> u64
        ensures { result ≡ self.now.number }
    {
        self.queued.number
    }

    /// The words that the child program is started with, of which the first names the program. It does not allocate.
    pub fn words(&self) -> &[Word]
        ensures { result.now ≡ self.now.words }
    {
        self.queued.words.as_slice()
    }

    /// What the run is and belongs to: its kind, pool, node, job and task. It does not allocate.
    pub fn identity(&self) -> &RunIdentity {
        &self.identity
    }
}
