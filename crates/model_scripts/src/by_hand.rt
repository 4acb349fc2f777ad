//! Steps from tables that no script reaches yet.
#![tactic(auto, unfolding(bt_base::specs::Ids::same))]

ghost use Rattle.std.specs.Prelude.{◌≡◌, None, Some};
ghost use Rattle.model_scripts.specs.ByHand as row;

/// Runs that wait, are queued, are taken, have ended and are withdrawn: which of them can be taken and ended.
pub fn runs_are_refused_by_state()
    ensures takes { row.replies_to_takes ≡ row.all_takes }
    ensures ends { row.replies_to_ends ≡ row.all_ends }
{}

/// A job that is terminating, completed or being deleted takes no tasks, not even those that are there.
pub fn finished_jobs_take_no_tasks()
    ensures new { row.replies_to_new_task ≡ row.all_new_task }
    ensures old { row.reply_to_old_task ≡ row.is_finished }
{}

/// A pool that is being deleted takes no jobs.
pub fn a_job_is_not_added_to_a_deleted_pool()
    ensures { row.reply_in_deleted_pool ≡ row.is_being_deleted }
{}

/// A refused event changes the moment alone.
pub fn a_refusal_changes_the_moment_alone()
    ensures { row.after_refusal ≡ row.moved_alone }
{}

/// After each step the rules are tried from the first one on.
pub fn rules_begin_again()
    ensures fresh { row.dues_of_fresh ≡ row.fresh_dues }
    ensures mixed { row.dues_of_mixed ≡ row.mixed_dues }
{}

/// A pool that is steady, stops or is being deleted gets no nodes: one that stops is steady, and one that is being deleted is dropped.
pub fn only_resizing_pools_get_nodes()
    ensures steady { row.due_of_steady ≡ None }
    ensures stopping { row.due_of_stopping ≡ row.stopped_due }
    ensures deleted { row.due_of_deleted ≡ row.removed_due }
{}

/// A pool that has its nodes reached its target, also late, and one that lacks some gets none after its timeout. A pool that is being
/// deleted and has a node does neither.
pub fn resizes_end_in_two_ways()
    ensures reached { row.due_of_reached ≡ row.reached_due }
    ensures late { row.due_of_late ≡ row.timed_out_due }
    ensures deleted { row.due_of_late_deleted ≡ None }
    ensures steady { row.due_of_late_steady ≡ None }
{}

/// A wanted requeue, termination, deletion or end at the wall time goes before the ending of the main run, and waits until no run of the
/// attempt is unended.
pub fn a_wanted_requeue_goes_first()
    ensures ended { row.dues_by_want ≡ row.all_by_want }
    ensures running { row.due_while_running ≡ None }
{}

/// A leaving node does not count for the target, keeps its seat, and keeps the pool from being steady.
pub fn leaving_nodes_do_not_count()
    ensures { row.dues_of_leaving ≡ row.leaving_dues }
{}

/// Tasks are placed on no node that starts, failed to start or leaves, and not in a pool that is being deleted.
pub fn tasks_go_on_usable_nodes()
    ensures starting { row.due_on_starting ≡ None }
    ensures failed { row.due_on_failed ≡ None }
    ensures leaving { row.dues_on_leaving ≡ row.dropped_dues }
    ensures deleted { row.due_in_deleted_pool ≡ None }
    ensures usable { row.due_on_usable ≡ row.placed_due }
{}

/// Of the states of a job only the active one lets its tasks be placed. A job without placed tasks and unended runs that is
/// disabling, enabling, terminating or deleting goes on by itself.
pub fn only_active_jobs_place_tasks()
    ensures { row.dues_by_job_state ≡ row.all_by_job_state }
{}

/// The last number of a node or run is given, and then none is added or placed.
pub fn numbers_come_to_an_end()
    ensures last { row.due_at_last_number ≡ row.last_node_due }
    ensures nodes { row.due_past_last_node ≡ None }
    ensures runs { row.due_past_last_run ≡ None }
    ensures placing { row.placing_past_last_run ≡ None }
{}
