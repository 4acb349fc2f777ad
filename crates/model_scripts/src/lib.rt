//! Worked scripts, computed over the definitions of `batch_model`: calls from empty tables, and beside them the replies,
//! the due steps and the rows that must come of them, written down by hand. There is no code: each function stands for a
//! script and does nothing, and its clauses are what the script shows. A definition that is wrong breaks some of them.
#![tactic(auto)]

mod adding;
mod by_hand;
mod collections;
mod deletions;
mod endings;
mod first_path;
mod later;
mod leaving;
mod openings;
mod placing;
mod pools;
mod resizes;
mod scaling;
mod slots;
mod starts;
mod ticks;

pub use adding::{
    a_moment_below_the_last_leaves_it, ids_are_spelled_as_the_rows, jobs_are_refused,
    tasks_are_refused,
};
pub use by_hand::{
    a_job_is_not_added_to_a_deleted_pool, a_refusal_changes_the_moment_alone,
    a_wanted_requeue_goes_first, finished_jobs_take_no_tasks, leaving_nodes_do_not_count,
    numbers_come_to_an_end, only_active_jobs_place_tasks, only_resizing_pools_get_nodes,
    resizes_end_in_two_ways, rules_begin_again, runs_are_refused_by_state,
    tasks_go_on_usable_nodes,
};
pub use collections::{
    at_most_100_elements, collections_are_refused_in_order, dependency_lists_are_not_too_long,
    each_element_is_answered,
};
pub use deletions::{
    a_pool_is_added_again, a_pool_is_deleted, a_pool_is_deleted_while_nodes_leave,
    an_empty_pool_is_deleted, opened_pools_have_no_nodes, rows_of_a_pool_are_dropped,
};
pub use endings::{any_other_ending_is_a_failure, the_limit_of_the_task_goes_before};
pub use first_path::{
    a_task_ends_with_success, nothing_comes_of_no_calls, runs_are_taken_and_ended_once,
};
pub use later::tasks_with_instances_are_not_read_yet;
pub use leaving::{
    a_preparation_goes_on, a_queued_preparation_leaves, a_requeued_task_goes_on_another_node,
    a_taken_preparation_leaves, deleted_tasks_retain_nothing, earlier_attempts_are_retained,
    nodes_leave_after_retention, nodes_leave_after_their_tasks, nodes_leave_by_requeue,
    nodes_leave_by_terminate, retention_without_end, start_runs_end_on_leaving_nodes,
    start_runs_hold_no_node,
};
pub use openings::{
    a_taken_run_is_made_again, an_ending_is_settled_after_the_opening, empty_tables_open_as_empty,
    nodes_start_anew, pools_are_filled_again, tasks_that_were_cut_short_are_requeued,
};
pub use placing::{
    nodes_are_taken_in_order, pools_are_apart, tasks_take_turns_on_a_node,
    the_earlier_job_goes_first,
};
pub use pools::{
    a_pool_gets_its_nodes, at_most_64_pools, ids_of_pools_have_no_case, nodes_are_as_many_as_seats,
    pools_share_seats,
};
pub use resizes::{
    a_pool_grows, a_pool_grows_while_a_node_leaves, a_resize_is_stopped, a_resize_keeps_its_target,
    nodes_of_other_pools_stay, nodes_with_fewest_slots_leave_first, resizes_are_refused,
};
pub use scaling::{
    a_fault_leaves_the_pool, a_pool_follows_the_processors, formulas_are_evaluated,
    samples_are_handed_in, scaling_is_enabled_again,
};
pub use slots::{
    a_task_fits_no_smaller_node, a_wide_task_is_passed_over, fill_types_go_before_numbers,
    placed_tasks_hold_their_slots, tasks_are_packed, tasks_are_spread,
    the_lower_number_of_full_nodes,
};
pub use starts::{
    a_node_fails_to_start, a_start_run_is_ended_once, a_start_task_fails_over_and_over,
    a_start_task_is_not_waited_for, a_start_task_is_tried_again, a_start_task_without_retries,
    endings_by_stage, failures_count_before_retries, nodes_start_by_themselves,
    start_runs_come_to_an_end,
};
pub use ticks::{a_resize_times_out, a_tick_moves_the_moment};
