//! Tasks that are deleted, terminated and reactivated.
#![tactic(auto, unfolding(bt_base::specs::Ids::same, bt_base::proofs::Turns::lex_lt))]

ghost use Rattle.std.specs.Prelude.{◌≡◌, true};
ghost use Rattle.model_scripts.specs.Scripts.{lines_of};
ghost use Rattle.model_scripts.specs.Checks.{is_good};
ghost use Rattle.job_scripts.specs.RetryScripts.{attempts_after};
ghost use Rattle.job_scripts.specs.TaskEventScripts as row;

/// Any task is deleted, only one that is not completed is terminated, and only one that failed is reactivated.
pub fn tasks_are_changed_by_their_stages()
    ensures deleted { row.by_stage row.deletion ≡ row.deletions_by_stage }
    ensures terminated { row.by_stage row.termination ≡ row.terminations_by_stage }
    ensures reactivated { row.by_stage row.reactivation ≡ row.reactivations_by_stage }
{}

/// A job that is being deleted lets no task be deleted, and one that is past none be reactivated.
pub fn tasks_are_changed_by_the_states_of_jobs()
    ensures deleted { row.by_job_state row.deletion ≡ row.deletions_by_job_state }
    ensures terminated { row.by_job_state row.termination ≡ row.terminations_by_job_state }
    ensures reactivated { row.by_job_state row.reactivation ≡ row.reactivations_by_job_state }
{}

/// The job is looked for first, then its state is looked at, and then the task is looked for.
pub fn tasks_are_looked_for_in_their_jobs()
    ensures { row.replies_without_rows ≡ row.all_without_rows }
{}

/// A wanted deletion goes before a termination, and is done once the run has ended.
pub fn a_task_that_runs_is_deleted_later()
    ensures lines { lines_of row.deleted_running ≡ row.deleted_running_lines }
    ensures good { is_good row.deleted_running ≡ true }
{}

/// A completed task goes at once with its runs.
pub fn a_completed_task_is_deleted_at_once()
    ensures lines { lines_of row.deleted_completed ≡ row.deleted_completed_lines }
    ensures good { is_good row.deleted_completed ≡ true }
{}

/// A task that is placed or active is terminated, and blocks the tasks that depend on it.
pub fn terminated_tasks_block()
    ensures lines { lines_of row.terminated_tasks ≡ row.terminated_tasks_lines }
    ensures good { is_good row.terminated_tasks ≡ true }
{}

/// A reactivated task is tried again as often as at first.
pub fn a_reactivated_task_has_no_failures()
    ensures lines { lines_of row.reactivated ≡ row.reactivated_lines }
    ensures attempts { attempts_after row.reactivated ≡ row.reactivated_attempts }
    ensures good { is_good row.reactivated ≡ true }
{}
