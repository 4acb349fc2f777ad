//! What answers mean to the schedules that asked.
ghost use Rattle.std.specs.Prelude.{◌≡◌};
ghost use Rattle.schedule_rows.specs.Turns.{outcome_of, reply_outcome, is_made, shows_free};

use batch_desk::Answer;
use bt_rows::job::JobState;
use bt_rows::refusal::Refusal;
use bt_rows::reply::{Item, Reply};

/// The outcome of a call, as far as the next step of a schedule depends on it.
#[derive(Clone, Copy, Debug, PartialEq, Eq)]
pub enum CallOutcome {
    /// The call was made, and its reply is 201.
    Created,
    /// The call was made with another reply, such as a refusal.
    Made,
    /// The call was not made because of a keeper fault or a full journal.
    Missed,
    /// The call was not made because memory ran out.
    OutOfMemory,
}

impl CallOutcome {
    /// Whether the call was made.
    pub fn is_made(self) -> bool
        ensures { result ≡ is_made self }
    {
        match self {
            CallOutcome::Created | CallOutcome::Made => true,
            CallOutcome::Missed | CallOutcome::OutOfMemory => false,
        }
    }
}

/// The outcome of a call that was made, by its reply.
fn reply_outcome(reply: &Reply) -> CallOutcome
    ensures { result ≡ reply_outcome reply.now }
{
    match reply {
        Reply::Status(status) => if *status == 201 {
            CallOutcome::Created
        } else {
            CallOutcome::Made
        },
        _ => CallOutcome::Made,
    }
}

/// The outcome of a call, by its answer. It does not allocate.
pub fn outcome_of(answer: &Answer) -> CallOutcome
    ensures { result ≡ outcome_of answer.now }
{
    match answer {
        Answer::Done { reply, .. } => reply_outcome(reply),
        Answer::KeeperFault | Answer::JournalFull => CallOutcome::Missed,
        Answer::Memory => CallOutcome::OutOfMemory,
    }
}

/// Whether this reply to a read of a job shows that the job is completed or not there.
pub fn is_free(reply: &Reply) -> bool
    ensures { result ≡ shows_free reply.now }
{
    match reply {
        Reply::Refused(Refusal::JobNotFound) => true,
        Reply::One(Item::Job(job)) => match job.state {
            JobState::Completed => true,
            _ => false,
        },
        _ => false,
    }
}
