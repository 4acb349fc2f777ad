//! Preparation tasks of jobs.
#![tactic(auto, unfolding(bt_base::specs::Ids::same, bt_base::proofs::Turns::lex_lt, batch_model::specs::Events::user_terminate))]

ghost use Rattle.std.specs.Prelude.{◌≡◌, true};
ghost use Rattle.model_scripts.specs.Scripts.{lines_of, lines_opened};
ghost use Rattle.model_scripts.specs.Checks.{is_good, is_good_opened};
ghost use Rattle.job_scripts.specs.PreparationScripts as row;

/// The run of a task waits for the preparation of its job on its node.
pub fn a_node_is_prepared_first()
    ensures lines { lines_of row.waiting_task ≡ row.waiting_task_lines }
    ensures runs { row.short_runs_after row.waiting_task ≡ row.waiting_task_runs }
    ensures preps { row.preps_after row.waiting_task ≡ row.waiting_task_preps }
    ensures good { is_good row.waiting_task ≡ true }
{}

/// A task whose node could not be prepared goes on another one.
pub fn a_failed_preparation_requeues_its_tasks()
    ensures lines { lines_of row.failing_once ≡ row.failing_once_lines }
    ensures runs { row.short_runs_after row.failing_once ≡ row.failing_once_runs }
    ensures preps { row.preps_after row.failing_once ≡ row.failing_once_preps }
    ensures good { is_good row.failing_once ≡ true }
{}

/// A preparation is tried again as often as it may be, and then the job does not use the node.
pub fn a_preparation_is_tried_again()
    ensures lines { lines_of row.failing_often ≡ row.failing_often_lines }
    ensures preps { row.preps_after row.failing_often ≡ row.failing_often_preps }
    ensures good { is_good row.failing_often ≡ true }
{}

/// A preparation without a limit of retries is tried until it succeeds.
pub fn a_preparation_without_end()
    ensures lines { lines_of row.failing_always ≡ row.failing_always_lines }
    ensures preps { row.preps_after row.failing_always ≡ row.failing_always_preps }
    ensures good { is_good row.failing_always ≡ true }
{}

/// Tasks on one node share its preparation.
pub fn nodes_are_prepared_once()
    ensures lines { lines_of row.preparing_once ≡ row.preparing_once_lines }
    ensures runs { row.short_runs_after row.preparing_once ≡ row.preparing_once_runs }
    ensures good { is_good row.preparing_once ≡ true }
{}

/// Tasks do not heed the failure of a preparation that is not waited for.
pub fn a_preparation_is_not_waited_for()
    ensures lines { lines_of row.unawaited ≡ row.unawaited_lines }
    ensures preps { row.preps_after row.unawaited ≡ row.unawaited_preps }
    ensures good { is_good row.unawaited ≡ true }
{}

/// A queued preparation run of a terminated job is withdrawn, and its preparation has failed.
pub fn a_queued_preparation_is_halted()
    ensures lines { lines_of row.halted_queued ≡ row.halted_queued_lines }
    ensures preps { row.preps_after row.halted_queued ≡ row.halted_queued_preps }
    ensures good { is_good row.halted_queued ≡ true }
{}

/// A terminated job waits for its preparation run, which has failed with any code.
pub fn a_preparation_is_asked_to_stop()
    ensures lines { lines_of row.asked_taken ≡ row.asked_taken_lines }
    ensures preps { row.preps_after row.asked_taken ≡ row.asked_taken_preps }
    ensures good { is_good row.asked_taken ≡ true }
{}

/// A deleted job goes with its preparations once their runs have ended.
pub fn a_terminated_job_halts_its_preparations()
    ensures lines { lines_of row.deleted_taken ≡ row.deleted_taken_lines }
    ensures preps { row.preps_after row.deleted_taken ≡ row.deleted_taken_preps }
    ensures good { is_good row.deleted_taken ≡ true }
{}

/// Preparations go with their nodes when tables are opened, and new nodes are prepared anew.
pub fn preparations_are_gone_after_the_opening()
    ensures lines { lines_opened row.waiting_task row.opened_waiting ≡ row.opened_waiting_lines }
    ensures good { is_good_opened row.waiting_task row.opened_waiting ≡ true }
{}

/// While there is no number for a new run, a preparation is not tried again.
pub fn preparations_come_to_an_end()
    ensures preps { row.without_numbers_preps ≡ row.last_preps }
    ensures dues { row.without_numbers_dues ≡ row.last_dues }
{}
