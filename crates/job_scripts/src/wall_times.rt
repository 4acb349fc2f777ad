//! Wall times of tasks and jobs.
#![tactic(auto, unfolding(bt_base::specs::Ids::same, bt_base::proofs::Turns::lex_lt, batch_model::specs::WallTimes::wall_time_over))]

ghost use Rattle.std.specs.Prelude.{◌≡◌, true};
ghost use Rattle.model_scripts.specs.Scripts.{lines_of, rows_after, lines_opened};
ghost use Rattle.model_scripts.specs.Checks.{is_good, is_good_opened};
ghost use Rattle.job_scripts.specs.JobScripts.{jobs_after, runs_after};
ghost use Rattle.job_scripts.specs.WallTimeScripts as row;

/// A task is asked to stop when its wall time is over since it was taken, and fails whatever its run's code.
pub fn a_task_is_stopped_in_time()
    ensures lines { lines_of row.out_of_time ≡ row.out_of_time_lines }
    ensures rows { rows_after row.out_of_time ≡ row.out_of_time_rows }
    ensures runs { runs_after row.stopping ≡ row.stopping_runs }
    ensures good { is_good row.out_of_time ≡ true }
{}

/// A wall time of 0 is over as soon as the task is taken.
pub fn a_wall_time_may_be_zero()
    ensures lines { lines_of row.no_time ≡ row.no_time_lines }
    ensures good { is_good row.no_time ≡ true }
{}

/// An end that is wanted stays, if it is that of the wall time or if it came before.
pub fn the_first_of_two_ends_stays()
    ensures wall { lines_of row.wall_before_requeue ≡ row.wall_before_requeue_lines }
    ensures wall_good { is_good row.wall_before_requeue ≡ true }
    ensures requeue { lines_of row.wanted_before_wall ≡ row.wanted_before_wall_lines }
    ensures requeue_good { is_good row.wanted_before_wall ≡ true }
{}

/// A job is terminated when its wall time is over since it was added, and keeps that as its reason.
pub fn a_job_is_terminated_in_time()
    ensures lines { lines_of row.job_out_of_time ≡ row.job_out_of_time_lines }
    ensures jobs { jobs_after row.job_out_of_time ≡ row.job_out_of_time_jobs }
    ensures good { is_good row.job_out_of_time ≡ true }
{}

/// A task goes before its job, and keeps its own end.
pub fn tasks_go_before_their_jobs()
    ensures lines { lines_of row.both_out_of_time ≡ row.both_out_of_time_lines }
    ensures closings { row.closings_after row.both_out_of_time ≡ row.both_out_of_time_closings }
    ensures good { is_good row.both_out_of_time ≡ true }
{}

/// The wall time of a job can be taken away and given anew; it counts from the adding of the job.
pub fn a_wall_time_is_changed()
    ensures lines { lines_of row.patched_wall ≡ row.patched_wall_lines }
    ensures good { is_good row.patched_wall ≡ true }
{}

/// A task that is placed again has its whole time.
pub fn a_new_attempt_has_its_whole_time()
    ensures lines { lines_opened row.within_time row.whole_time ≡ row.whole_time_lines }
    ensures good { is_good_opened row.within_time row.whole_time ≡ true }
{}
