//! Nodes that leave their pools by each option.
#![tactic(auto, unfolding(bt_base::specs::Ids::same, bt_base::proofs::Turns::lex_lt))]

ghost use Rattle.std.specs.Prelude.{◌≡◌, Some, None, true, false};
ghost use Rattle.batch_model.specs.Variants.{ByRequeue, ByTerminate, TaskCompletion, RetainedData, WantRequeue, WantTerminate};
ghost use Rattle.model_scripts.specs.Scripts.{lines_of, rows_after};
ghost use Rattle.model_scripts.specs.Checks.{is_good};
ghost use Rattle.model_scripts.specs.LeavingScripts as row;

/// By requeue the run of a task on a leaving node is asked to stop, and the task is active again.
pub fn nodes_leave_by_requeue()
    ensures marks { row.marks_after (row.shrinking (Some 10000) ByRequeue) ≡ row.shrinking_marks ByRequeue (Some WantRequeue) true }
    ensures lines { lines_of (row.shrunk (Some 10000) ByRequeue) ≡ row.requeued_lines }
    ensures rows { rows_after (row.shrunk (Some 10000) ByRequeue) ≡ row.requeued_rows }
    ensures good { is_good (row.shrunk (Some 10000) ByRequeue) ≡ true }
{}

/// By terminate it is asked to stop, and the task is terminated.
pub fn nodes_leave_by_terminate()
    ensures marks { row.marks_after (row.shrinking (Some 10000) ByTerminate) ≡ row.shrinking_marks ByTerminate (Some WantTerminate) true }
    ensures lines { lines_of (row.shrunk (Some 10000) ByTerminate) ≡ row.terminated_lines }
    ensures rows { rows_after (row.shrunk (Some 10000) ByTerminate) ≡ row.terminated_rows }
    ensures good { is_good (row.shrunk (Some 10000) ByTerminate) ≡ true }
{}

/// A node that leaves by task completion waits for the end of its task, and not for the retention time.
pub fn nodes_leave_after_their_tasks()
    ensures marks { row.marks_after (row.shrinking (Some 10000) TaskCompletion) ≡ row.shrinking_marks TaskCompletion None false }
    ensures lines { lines_of (row.shrunk (Some 10000) TaskCompletion) ≡ row.finished_lines }
    ensures rows { rows_after (row.shrunk (Some 10000) TaskCompletion) ≡ row.finished_rows 20 }
    ensures good { is_good (row.shrunk (Some 10000) TaskCompletion) ≡ true }
{}

/// A node that leaves by retained data waits until the retention time of its task is over, from the end of the run on.
pub fn nodes_leave_after_retention()
    ensures marks { row.marks_after (row.shrinking (Some 10000) RetainedData) ≡ row.shrinking_marks RetainedData None false }
    ensures lines { lines_of row.retained ≡ row.retained_lines }
    ensures rows { rows_after row.retained ≡ row.finished_rows 10020 }
    ensures good { is_good row.retained ≡ true }
{}

/// A run is retained while its task has a row and the retention time is not over, if it has ended.
pub fn deleted_tasks_retain_nothing()
    ensures lines { lines_of row.deleted_task ≡ row.deleted_task_lines }
    ensures rows { rows_after row.deleted_task ≡ row.deleted_task_rows }
    ensures good { is_good row.deleted_task ≡ true }
    ensures kept { row.kept ≡ row.all_kept }
{}

/// A retention time without end is never over: the resize times out, and the node stays until its pool is deleted.
pub fn retention_without_end()
    ensures lines { lines_of row.endless ≡ row.endless_lines }
    ensures rows { rows_after row.endless ≡ row.endless_rows }
    ensures deleted_lines { lines_of row.endless_deleted ≡ row.endless_deleted_lines }
    ensures deleted_rows { rows_after row.endless_deleted ≡ row.endless_deleted_rows }
    ensures good { is_good row.endless_deleted ≡ true }
{}

/// The run of an earlier attempt is retained too.
pub fn earlier_attempts_are_retained()
    ensures lines { lines_of row.earlier_attempt ≡ row.earlier_attempt_lines }
    ensures rows { rows_after row.earlier_attempt ≡ row.earlier_attempt_rows }
    ensures good { is_good row.earlier_attempt ≡ true }
{}

/// A requeued task goes on a node that stays, if it fits there.
pub fn a_requeued_task_goes_on_another_node()
    ensures lines { lines_of row.moved_task ≡ row.moved_task_lines }
    ensures rows { rows_after row.moved_task ≡ row.moved_task_rows }
    ensures good { is_good row.moved_task ≡ true }
{}

/// The start run of a leaving node is asked to stop by any option, and is not tried again.
pub fn start_runs_end_on_leaving_nodes()
    ensures marks { row.marks_after row.leaving_start ≡ row.leaving_start_marks }
    ensures lines { lines_of row.failed_leaving ≡ row.failed_leaving_lines }
    ensures rows { rows_after row.failed_leaving ≡ row.failed_leaving_rows }
    ensures good { is_good row.failed_leaving ≡ true }
{}

/// One that is queued is withdrawn by any option, and one that has ended retains nothing.
pub fn start_runs_hold_no_node()
    ensures queued_lines { lines_of row.queued_start ≡ row.queued_start_lines }
    ensures queued_rows { rows_after row.queued_start ≡ row.queued_start_rows }
    ensures queued_good { is_good row.queued_start ≡ true }
    ensures ended_lines { lines_of row.ended_start ≡ row.ended_start_lines }
    ensures ended_good { is_good row.ended_start ≡ true }
{}

/// A queued preparation run on a node that leaves by requeue is withdrawn, and its preparation has failed.
pub fn a_queued_preparation_leaves()
    ensures marks { row.unprepared_marks ≡ row.all_unprepared }
    ensures lines { lines_of row.queued_preparation ≡ row.queued_preparation_lines }
    ensures rows { rows_after row.queued_preparation ≡ row.queued_preparation_rows }
    ensures good { is_good row.queued_preparation ≡ true }
{}

/// One that runs is asked to stop, and its node waits for it.
pub fn a_taken_preparation_leaves()
    ensures marks { row.marks_after row.taken_preparation ≡ row.taken_preparation_marks }
    ensures lines { lines_of row.failed_preparation ≡ row.failed_preparation_lines }
    ensures rows { rows_after row.failed_preparation ≡ row.failed_preparation_rows }
    ensures good { is_good row.failed_preparation ≡ true }
{}

/// By task completion the preparation goes on, and then the task.
pub fn a_preparation_goes_on()
    ensures lines { lines_of row.going_on ≡ row.going_on_lines }
    ensures good { is_good row.going_on ≡ true }
{}
