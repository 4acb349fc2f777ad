//! The states of jobs.
ghost use Rattle.std.specs.Prelude.{◌≡◌};
ghost use Rattle.batch_model.specs.Jobs.{is_past};

use bt_rows::job::JobState;

/// Whether the job is terminating, completed or deleting.
pub fn is_past(state: JobState) -> bool
    ensures { result ≡ is_past state }
{
    matches!(
        state,
        JobState::Terminating | JobState::Completed | JobState::Deleting
    )
}
