//! Start tasks of nodes.
#![tactic(auto, unfolding(bt_base::specs::Ids::same, bt_base::proofs::Turns::lex_lt))]

ghost use Rattle.std.specs.Prelude.{◌≡◌, None, negsuc, pos, true};
ghost use Rattle.batch_model.specs.Variants.{Code};
ghost use Rattle.model_scripts.specs.Scripts.{held_after, lines_of, rows_after, tries_after};
ghost use Rattle.model_scripts.specs.Checks.{is_good};
ghost use Rattle.model_scripts.specs.StartScripts as row;
ghost use Rattle.model_scripts.specs.StartsByHand as hand;

/// A start task that is waited for fails once and is run again. Its success makes the node usable, and the task that
/// waits is placed.
pub fn a_start_task_is_tried_again()
    ensures lines { lines_of row.second_start ≡ row.second_start_lines }
    ensures rows { rows_after row.second_start ≡ row.second_start_rows }
    ensures tries { tries_after row.second_start ≡ row.second_start_tries }
    ensures good { is_good row.second_start ≡ true }
{}

/// A start task that fails once more than it has retries leaves a node that failed to start, and nothing is placed.
pub fn a_node_fails_to_start()
    ensures lines { lines_of row.failed_start ≡ row.failed_start_lines }
    ensures rows { rows_after row.failed_start ≡ row.failed_start_rows }
    ensures tries { tries_after row.failed_start ≡ row.failed_start_tries }
    ensures good { is_good row.failed_start ≡ true }
{}

/// Without retries the first failure is the last one, also of a child that was not started.
pub fn a_start_task_without_retries()
    ensures lines { lines_of row.tried_once ≡ row.tried_once_lines }
    ensures rows { rows_after row.tried_once ≡ row.tried_once_rows }
    ensures tries { tries_after row.tried_once ≡ row.tried_once_tries }
    ensures good { is_good row.tried_once ≡ true }
{}

/// A node whose start task isn't waited for is usable at once and stays so, however the start task ends. The start task
/// is run again beside the task, and holds no slots.
pub fn a_start_task_is_not_waited_for()
    ensures lines { lines_of row.unwaited ≡ row.unwaited_lines }
    ensures rows { rows_after row.unwaited ≡ row.unwaited_rows }
    ensures tries { tries_after row.unwaited ≡ row.unwaited_tries }
    ensures held { held_after row.unwaited ≡ row.unwaited_held }
    ensures good { is_good row.unwaited ≡ true }
{}

/// Without a limit of retries a start task is run again after each failure, whatever the ending, and lets no task on the
/// node.
pub fn a_start_task_fails_over_and_over()
    ensures lines { lines_of row.over_and_over ≡ row.over_and_over_lines }
    ensures tries { tries_after row.over_and_over ≡ row.over_and_over_tries }
    ensures held { held_after row.over_and_over ≡ row.over_and_over_held }
    ensures good { is_good row.over_and_over ≡ true }
    ensures last { lines_of row.at_last ≡ row.at_last_lines }
{}

/// A start run is ended once it is taken, and once only: a refused ending counts no failure.
pub fn a_start_run_is_ended_once()
    ensures lines { lines_of row.ended_once ≡ row.ended_once_lines }
    ensures rows { rows_after row.ended_once ≡ row.ended_once_rows }
    ensures tries { tries_after row.ended_once ≡ row.ended_once_tries }
    ensures good { is_good row.ended_once ≡ true }
{}

/// Each node has a start task of its own: tasks go on the one that has started, and on no other.
pub fn nodes_start_by_themselves()
    ensures lines { lines_of row.second_node_first ≡ row.second_node_first_lines }
    ensures rows { rows_after row.second_node_first ≡ row.second_node_first_rows }
    ensures tries { tries_after row.second_node_first ≡ row.second_node_first_tries }
    ensures good { is_good row.second_node_first ≡ true }
{}

/// What an ending leaves of a node that starts, is usable, has failed to start and leaves: with success, with a failure
/// that is tried again, and with the last failure. A leaving node stays as it is.
pub fn endings_by_stage()
    ensures success { hand.left_by_stage (Code (pos 0)) (negsuc 0) ≡ hand.all_by_success }
    ensures failure { hand.left_by_stage (Code (pos 1)) (negsuc 0) ≡ hand.all_by_failure }
    ensures last { hand.left_by_stage (Code (pos 1)) (pos 0) ≡ hand.all_by_last_failure }
{}

/// The failure counts first, and then it is compared with the retries.
pub fn failures_count_before_retries()
    ensures { hand.left_by_tries ≡ hand.all_by_tries }
{}

/// Past the last run number a start task is not run again, and no node is added.
pub fn start_runs_come_to_an_end()
    ensures last { hand.left_at_last_run ≡ hand.started_at_last_run }
    ensures past { hand.left_past_last_run ≡ hand.failed_past_last_run }
    ensures node { hand.due_at_last_run ≡ hand.first_node_due }
    ensures no_node { hand.due_past_last_run ≡ None }
{}
