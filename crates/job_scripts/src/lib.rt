//! Worked scripts of jobs, computed over the definitions of `batch_model` as those of `model_scripts` are: how jobs end and what
//! they do to their tasks, exit conditions, dependencies, retries, wall times, preparations and releases. There is no code: the
//! clauses of a function are what its script shows.
#![tactic(auto)]

mod conditions;
mod dependencies;
mod jobs;
mod preparations;
mod releases;
mod retries;
mod task_events;
mod wall_times;

pub use conditions::{
    a_failure_terminates_its_job, absent_options_are_the_usual_ones, actions_are_asked_for,
    an_ending_disables_its_job, codes_go_before_ranges,
};
pub use dependencies::{
    a_failure_blocks, a_reactivated_task_satisfies_nobody, deleted_tasks_satisfy_nobody,
    dependencies_and_actions_are_to_be_used, each_number_of_a_range_is_waited_for,
    the_last_failure_satisfies,
};
pub use jobs::{
    a_completed_job_is_deleted, a_disabled_job_places_nothing, a_disabled_job_requeues_its_tasks,
    a_disabled_job_waits_for_its_tasks, a_disabling_job_is_opened, a_job_ends_with_its_tasks,
    a_job_is_deleted, a_job_is_terminated, a_job_without_tasks_ends, a_terminating_job_is_deleted,
    a_termination_goes_before_a_requeue, priorities_go_before_the_order_of_jobs,
};
pub use preparations::{
    a_failed_preparation_requeues_its_tasks, a_node_is_prepared_first,
    a_preparation_is_asked_to_stop, a_preparation_is_not_waited_for, a_preparation_is_tried_again,
    a_preparation_without_end, a_queued_preparation_is_halted,
    a_terminated_job_halts_its_preparations, nodes_are_prepared_once,
    preparations_are_gone_after_the_opening, preparations_come_to_an_end,
};
pub use releases::{
    a_deleted_job_is_released, a_job_is_prepared_and_released,
    a_release_run_is_ended_by_the_opening, a_release_run_is_stopped_in_time,
    nodes_that_served_are_released, releases_come_to_an_end,
};
pub use retries::{
    a_lowered_limit_counts_later, failures_are_below_the_limit, launch_errors_are_not_tried_again,
    tasks_are_tried_again_without_limit,
};
pub use task_events::{
    a_completed_task_is_deleted_at_once, a_reactivated_task_has_no_failures,
    a_task_that_runs_is_deleted_later, tasks_are_changed_by_the_states_of_jobs,
    tasks_are_changed_by_their_stages, tasks_are_looked_for_in_their_jobs, terminated_tasks_block,
};
pub use wall_times::{
    a_job_is_terminated_in_time, a_new_attempt_has_its_whole_time, a_task_is_stopped_in_time,
    a_wall_time_is_changed, a_wall_time_may_be_zero, tasks_go_before_their_jobs,
    the_first_of_two_ends_stays,
};
