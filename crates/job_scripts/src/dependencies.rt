//! Tasks that depend on others.
#![tactic(auto, unfolding(bt_base::specs::Ids::same, bt_base::specs::Ids::id_number, bt_base::proofs::Turns::lex_lt))]

ghost use Rattle.std.specs.Prelude.{◌≡◌, true};
ghost use Rattle.model_scripts.specs.Scripts.{lines_of};
ghost use Rattle.model_scripts.specs.Checks.{is_good};
ghost use Rattle.job_scripts.specs.JobScripts.{stages_after};
ghost use Rattle.job_scripts.specs.DependencyScripts as row;

/// A task that depends on a range is placed once each number of it is satisfied; leading zeros of ids do not matter.
pub fn each_number_of_a_range_is_waited_for()
    ensures lines { lines_of row.numbered ≡ row.numbered_lines }
    ensures good { is_good row.numbered ≡ true }
{}

/// A reactivated task satisfies no more until it has ended again.
pub fn a_reactivated_task_satisfies_nobody()
    ensures lines { lines_of row.taken_back ≡ row.taken_back_lines }
    ensures good { is_good row.taken_back ≡ true }
{}

/// A failure that is tried again satisfies nobody, whatever the options say; the last one does as they say.
pub fn the_last_failure_satisfies()
    ensures lines { lines_of row.satisfied_late ≡ row.satisfied_late_lines }
    ensures good { is_good row.satisfied_late ≡ true }
{}

/// A task may depend on one that is added later; ids have no case; and a deleted task satisfies nobody.
pub fn deleted_tasks_satisfy_nobody()
    ensures early { lines_of row.deleted_early ≡ row.deleted_early_lines }
    ensures good_early { is_good row.deleted_early ≡ true }
    ensures late { lines_of row.deleted_late ≡ row.deleted_late_lines }
    ensures waiting { row.waiting_after row.deleted_late ≡ row.deleted_late_waiting }
    ensures good_late { is_good row.deleted_late ≡ true }
{}

/// A failure blocks; what is waited for is counted for each id and for each number of each range.
pub fn a_failure_blocks()
    ensures stages { stages_after row.blocked ≡ row.blocked_stages }
    ensures waiting { row.waiting_after row.blocked ≡ row.blocked_waiting }
    ensures good { is_good row.blocked ≡ true }
{}

/// A job that does not use dependencies takes no tasks with them, and one that takes no actions no tasks that state some.
pub fn dependencies_and_actions_are_to_be_used()
    ensures { row.replies_in_plain_job ≡ row.all_in_plain_job }
{}
