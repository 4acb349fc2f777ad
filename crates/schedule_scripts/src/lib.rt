//! Worked scripts of calendars, computed over the definitions of `schedule_rows` and of `batch_model`. There is no code: the clauses of a
//! function are what its script shows.
#![tactic(auto, unfolding(bt_base::specs::Ids::same, schedule_rows::specs::Jobs::job_id))]

ghost use Rattle.std.specs.Prelude.{◌≡◌};
ghost use Rattle.schedule_scripts.specs.Playing.{lines_of};
ghost use Rattle.schedule_scripts.specs.Schedules as row;

/// A schedule of a minute fires when it is added, not while its job runs, and at once when the job has ended after the next occurrence.
pub fn a_schedule_fires_when_its_job_has_ended()
    ensures { lines_of row.minutes ≡ row.minutes_lines }
{}

/// A schedule does not fire after the window of its occurrence, but at the next one; the case of ids is ignored.
pub fn a_schedule_fires_within_its_window()
    ensures { lines_of row.windows ≡ row.windows_lines }
{}

/// A schedule of one occurrence fires once, not before it and not while it is disabled, and is completed then.
pub fn a_schedule_of_one_occurrence_fires_once()
    ensures { lines_of row.once ≡ row.once_lines }
{}

/// A schedule does not fire from its end on, and is completed there.
pub fn a_schedule_is_completed_at_its_end()
    ensures { lines_of row.until ≡ row.until_lines }
{}

/// A job that is there already counts as made for its occurrence, and no further call is made for it.
pub fn a_refused_job_counts_for_its_occurrence()
    ensures { lines_of row.taken ≡ row.taken_lines }
{}
