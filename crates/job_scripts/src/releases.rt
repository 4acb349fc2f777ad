//! Release tasks of jobs.
#![tactic(auto, unfolding(bt_base::specs::Ids::same, bt_base::proofs::Turns::lex_lt, batch_model::specs::Events::user_terminate))]

ghost use Rattle.std.specs.Prelude.{◌≡◌, true};
ghost use Rattle.model_scripts.specs.Scripts.{lines_of, lines_opened};
ghost use Rattle.model_scripts.specs.Checks.{is_good, is_good_opened};
ghost use Rattle.job_scripts.specs.PreparationScripts.{preps_after, short_runs_after};
ghost use Rattle.job_scripts.specs.ReleaseScripts as row;

/// A job whose preparation fails on one node and succeeds on another is released on the other.
pub fn a_job_is_prepared_and_released()
    ensures lines { lines_of row.released_job ≡ row.released_job_lines }
    ensures runs { short_runs_after row.released_job ≡ row.released_job_runs }
    ensures preps { preps_after row.released_job ≡ row.released_job_preps }
    ensures good { is_good row.released_job ≡ true }
{}

/// A job is released only on nodes on which a task of it was started, and once none of its tasks is placed.
pub fn nodes_that_served_are_released()
    ensures lines { lines_of row.served_once ≡ row.served_once_lines }
    ensures preps { preps_after row.served_once ≡ row.served_once_preps }
    ensures good { is_good row.served_once ≡ true }
{}

/// A release run is asked to stop when its wall time is over since it was taken.
pub fn a_release_run_is_stopped_in_time()
    ensures lines { lines_of row.slow_release ≡ row.slow_release_lines }
    ensures good { is_good row.slow_release ≡ true }
{}

/// A deleted job is released before it goes, with any code of its release run.
pub fn a_deleted_job_is_released()
    ensures lines { lines_of row.deleted_release ≡ row.deleted_release_lines }
    ensures good { is_good row.deleted_release ≡ true }
{}

/// A release run that an opening withdraws is not made again.
pub fn a_release_run_is_ended_by_the_opening()
    ensures lines { lines_opened row.releasing_job row.opened_releasing ≡ row.opened_releasing_lines }
    ensures good { is_good_opened row.releasing_job row.opened_releasing ≡ true }
{}

/// While there is no number for a new run, jobs end without their release runs.
pub fn releases_come_to_an_end()
    ensures none { row.without_numbers ≡ row.ended_alone }
    ensures last { row.with_a_number ≡ row.released_last }
{}
