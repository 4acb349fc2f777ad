//! When the waits of a link are over.
use crate::limits::{MAX_CALL_MS, MAX_DRAIN_MS, MAX_STOPPING_MS, WaitLimits};
use byte_streams::Failed;
use std::sync::Arc;
use std::sync::atomic::{AtomicBool, Ordering};
use std::time::{Clock, Duration, Instant};

/// What a link does.
#[derive(Clone, Copy, Debug, PartialEq, Eq)]
enum Stage {
    /// It waits for the first byte of a message.
    Waiting,
    /// It reads a message.
    Reading,
    /// It writes an answer.
    Writing,
}

/// What a link does, and when the time for it is over. A message begins with the first byte that is read of it, and an answer with
/// its first write; a read after a write waits for the next message. Answers that are written with no read between them, as those to
/// messages that came in one read, have the time of one together.
#[derive(Drop)]
pub(crate) struct LinkTimes<R: Clock + Copy + Drop> {
    rt: R,
    limits: WaitLimits,
    stopping: Arc<AtomicBool>,
    stage: Stage,
    deadline: Instant,
    /// Whether the deadline has been brought forward, since the service is stopping.
    is_hurried: bool,
}

/// The moment after so many milliseconds. Fails if the clock cannot be read.
fn moment_in<R: Clock>(rt: &R, ms: u64) -> Result<Instant, Failed> {
    let Ok(now) = Instant::now(rt) else {
        return Err(Failed);
    };
    now.checked_add(Duration::from_millis(ms)).ok_or(Failed)
}

impl<R: Clock + Copy + Drop> LinkTimes<R> {
    /// The times of a connection that begins now. Fails if the clock cannot be read. It does not allocate.
    pub fn new(
        rt: R,
        limits: WaitLimits,
        stopping: Arc<AtomicBool>,
    ) -> Result<LinkTimes<R>, Failed> {
        let deadline = moment_in(&rt, limits.first_byte_ms)?;
        Ok(LinkTimes {
            rt,
            limits,
            stopping,
            stage: Stage::Waiting,
            deadline,
            is_hurried: false,
        })
    }

    fn begin(&mut self, stage: Stage, ms: u64) -> Result<(), Failed> {
        self.deadline = moment_in(&self.rt, ms)?;
        self.stage = stage;
        self.is_hurried = false;
        Ok(())
    }

    /// A read begins. After an answer the link waits for the next message. Fails if the clock cannot be read.
    pub fn begin_read(&mut self) -> Result<(), Failed> {
        match self.stage {
            Stage::Writing => self.begin(Stage::Waiting, self.limits.kept_ms),
            Stage::Waiting | Stage::Reading => Ok(()),
        }
    }

    /// Bytes were read. If they are the first ones of a message, its time begins; if the clock cannot be read then, the message has
    /// what was left for its first byte.
    pub fn have_read(&mut self) {
        if self.stage == Stage::Waiting
            && self.begin(Stage::Reading, self.limits.message_ms).is_err()
        {
            self.stage = Stage::Reading;
        }
    }

    /// The end of the connection begins: what the peer still sends has `MAX_DRAIN_MS`. Fails if the clock cannot be read.
    pub fn begin_end(&mut self) -> Result<(), Failed> {
        self.begin(Stage::Reading, MAX_DRAIN_MS)
    }

    /// A write begins, and with the first one an answer. Fails if the clock cannot be read.
    pub fn begin_write(&mut self) -> Result<(), Failed> {
        match self.stage {
            Stage::Writing => Ok(()),
            Stage::Waiting | Stage::Reading => self.begin(Stage::Writing, self.limits.answer_ms),
        }
    }

    /// Whether the service is stopping while the link waits for a message.
    pub fn is_last(&self) -> bool {
        self.stage == Stage::Waiting && self.stopping.load(Ordering::SeqCst)
    }

    /// How long the next call may wait: what is left of the time, and at most `MAX_CALL_MS`. Once the service is stopping at most
    /// `MAX_STOPPING_MS` is left. Fails if the time is over, or if the clock cannot be read.
    pub fn next_wait(&mut self) -> Result<Duration, Failed> {
        if !self.is_hurried && self.stopping.load(Ordering::SeqCst) {
            self.is_hurried = true;
            self.deadline = self.deadline.min(moment_in(&self.rt, MAX_STOPPING_MS)?);
        }
        let Ok(now) = Instant::now(&self.rt) else {
            return Err(Failed);
        };
        let left = self.deadline.saturating_duration_since(now);
        if left.is_zero() {
            return Err(Failed);
        }
        Ok(left.min(Duration::from_millis(MAX_CALL_MS)))
    }
}
