//! States of jobs, and the order in which jobs place tasks.
#![tactic(auto, unfolding(bt_base::specs::Ids::same, bt_base::proofs::Turns::lex_lt, batch_model::specs::JobRules::all_complete, batch_model::specs::Events::user_terminate))]

ghost use Rattle.std.specs.Prelude.{◌≡◌, true};
ghost use Rattle.model_scripts.specs.Scripts.{lines_of, rows_after, lines_opened};
ghost use Rattle.model_scripts.specs.Checks.{is_good, is_good_opened};
ghost use Rattle.job_scripts.specs.JobScripts as row;

/// A job that waits for its task is disabled once it has ended; only a disabled job is enabled.
pub fn a_disabled_job_waits_for_its_tasks()
    ensures lines { lines_of row.waiting ≡ row.waiting_lines }
    ensures good { is_good row.waiting ≡ true }
{}

/// A job without placed tasks is disabled at once, and places none; another does.
pub fn a_disabled_job_places_nothing()
    ensures lines { lines_of row.disabled_beside ≡ row.disabled_beside_lines }
    ensures good { is_good row.disabled_beside ≡ true }
{}

/// A task that was not taken is requeued at once, and one that runs is asked to stop and requeued once it has ended.
pub fn a_disabled_job_requeues_its_tasks()
    ensures lines { lines_of row.requeuing ≡ row.requeuing_lines }
    ensures runs { row.runs_after row.disabling ≡ row.disabling_runs }
    ensures good { is_good row.requeuing ≡ true }
{}

/// A wanted termination replaces a wanted requeue, and not the other way round.
pub fn a_termination_goes_before_a_requeue()
    ensures lines { lines_of row.two_wants ≡ row.two_wants_lines }
    ensures good { is_good row.two_wants ≡ true }
{}

/// A terminated job ends its placed task as terminated, takes no more tasks, and is completed with its reason.
pub fn a_job_is_terminated()
    ensures lines { lines_of row.terminating ≡ row.terminating_lines }
    ensures jobs { row.jobs_after row.terminating ≡ row.terminating_jobs }
    ensures tasks { row.stages_after row.terminating ≡ row.terminating_stages }
    ensures good { is_good row.terminating ≡ true }
{}

/// A deleted job goes with its tasks and runs, and its node is free for another.
pub fn a_job_is_deleted()
    ensures lines { lines_of row.deleting ≡ row.deleting_lines }
    ensures good { is_good row.deleting ≡ true }
{}

/// A job that is deleted while it is terminating gets another reason, and goes with all of its tasks once the placed one has ended.
pub fn a_terminating_job_is_deleted()
    ensures jobs { row.jobs_after row.deleting_late ≡ row.deleting_late_jobs }
    ensures lines { lines_of row.deleted_late ≡ row.deleted_late_lines }
    ensures rows { rows_after row.deleted_late ≡ row.deleted_late_rows }
    ensures good { is_good row.deleted_late ≡ true }
{}

/// A completed job is deleted at once.
pub fn a_completed_job_is_deleted()
    ensures lines { lines_of row.deleting_completed ≡ row.deleting_completed_lines }
    ensures good { is_good row.deleting_completed ≡ true }
{}

/// A disabling job is disabled once the opening has cut its task short.
pub fn a_disabling_job_is_opened()
    ensures lines { lines_opened row.waiting_for_task row.first_ticks ≡ row.opened_waiting_lines }
    ensures good { is_good_opened row.waiting_for_task row.first_ticks ≡ true }
{}

/// A job without tasks has all of its tasks completed.
pub fn a_job_without_tasks_ends()
    ensures lines { lines_of row.nothing_to_do ≡ row.nothing_to_do_lines }
    ensures jobs { row.jobs_after row.nothing_to_do ≡ row.nothing_to_do_jobs }
    ensures good { is_good row.nothing_to_do ≡ true }
{}

/// A job that is terminated with its tasks is not told otherwise, and ends with them.
pub fn a_job_ends_with_its_tasks()
    ensures lines { lines_of row.patching ≡ row.patching_lines }
    ensures good { is_good row.patching ≡ true }
{}

/// A higher priority goes first, then the earlier job, and a job has no more placed tasks than its limit.
pub fn priorities_go_before_the_order_of_jobs()
    ensures lines { lines_of row.priorities ≡ row.priorities_lines }
    ensures good { is_good row.priorities ≡ true }
{}
