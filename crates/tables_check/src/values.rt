//! Tests of single rows.
ghost use Rattle.std.specs.Prelude.{◌≡◌, ◌&&◌, nat_le, nat_lt};
ghost use Rattle.std.specs.List.{list_all};
ghost use Rattle.bt_base.specs.Moments.{last_moment};
ghost use Rattle.batch_model.specs.Variants.{TaskRow as Task};
ghost use Rattle.batch_model.specs.WellFormed.{is_pool_valid, is_node_in_range, is_job_valid, is_task_valid, is_run_valid, is_sample_valid, is_scale_in_range};
ghost use Rattle.batch_model.specs.WellFormed.{has_fitting_marks, is_closed_if_completed};
ghost use Rattle.tables_check.specs.Rules.{rows_are_valid, tasks_are_fitting};

use bt_base::LAST_MOMENT_MS;
use bt_rows::tables::Tables;
use row_values::{
    has_fitting_marks, is_closed_if_completed, is_job_valid, is_node_in_range, is_pool_valid,
    is_run_valid, is_sample_valid, is_scale_in_range, is_task_valid,
};

/// Whether the pools are valid at the last moment.
fn are_pools_valid(tables: &Tables) -> bool
    ensures { result ≡ list_all (is_pool_valid tables.now.state.moment) tables.now.state.pools }
{
    let now = tables.moment();
    tables.pools().all(|pool| is_pool_valid(now, pool))
}

/// Whether the numbers of the nodes are in their range.
fn are_nodes_in_range(tables: &Tables) -> bool
    ensures { result ≡ list_all is_node_in_range tables.now.state.nodes }
{
    tables.nodes().all(|node| is_node_in_range(node))
}

/// Whether the jobs are valid at the last moment.
fn are_jobs_valid(tables: &Tables) -> bool
    ensures { result ≡ list_all (is_job_valid tables.now.state.moment) tables.now.state.jobs }
{
    let now = tables.moment();
    tables.jobs().all(|job| is_job_valid(now, job))
}

/// Whether the last moment is in the year 9999 or before, and the pools, nodes and jobs are valid at it.
fn are_first_valid(tables: &Tables) -> bool
    ensures { result ≡ (nat_le tables.now.state.moment last_moment && (list_all (is_pool_valid tables.now.state.moment) tables.now.state.pools && (list_all is_node_in_range tables.now.state.nodes && list_all (is_job_valid tables.now.state.moment) tables.now.state.jobs))) }
{
    let moment = tables.moment() <= LAST_MOMENT_MS;
    let pools = are_pools_valid(tables);
    let nodes = are_nodes_in_range(tables);
    let jobs = are_jobs_valid(tables);
    moment & (pools & (nodes & jobs))
}

/// Whether the tasks are valid at the last moment.
fn are_tasks_valid(tables: &Tables) -> bool
    ensures { result ≡ list_all (is_task_valid tables.now.state.moment) tables.now.state.tasks }
{
    let now = tables.moment();
    tables.tasks().all(|task| is_task_valid(now, task))
}

/// Whether the runs are valid at the last moment.
fn are_runs_valid(tables: &Tables) -> bool
    ensures { result ≡ list_all (is_run_valid tables.now.state.moment) tables.now.state.runs }
{
    let now = tables.moment();
    tables.runs().all(|run| is_run_valid(now, run))
}

/// Whether the samples are valid at the last moment.
fn are_samples_valid(tables: &Tables) -> bool
    ensures { result ≡ list_all (is_sample_valid tables.now.state.moment) tables.now.state.samples }
{
    let now = tables.moment();
    tables.samples().all(|sample| is_sample_valid(now, sample))
}

/// Whether the values of the scalings are in their ranges.
fn are_scales_in_range(tables: &Tables) -> bool
    ensures { result ≡ list_all is_scale_in_range tables.now.state.scales }
{
    tables.scales().all(|scale| is_scale_in_range(scale))
}

/// Whether the tasks, runs, samples and scalings are valid at the last moment.
fn are_last_valid(tables: &Tables) -> bool
    ensures { result ≡ (list_all (is_task_valid tables.now.state.moment) tables.now.state.tasks && (list_all (is_run_valid tables.now.state.moment) tables.now.state.runs && (list_all (is_sample_valid tables.now.state.moment) tables.now.state.samples && list_all is_scale_in_range tables.now.state.scales))) }
{
    let tasks = are_tasks_valid(tables);
    let runs = are_runs_valid(tables);
    let samples = are_samples_valid(tables);
    let scales = are_scales_in_range(tables);
    tasks & (runs & (samples & scales))
}

/// Whether values are in their ranges, and moments not after the last one.
pub fn are_rows_valid(tables: &Tables) -> bool
    ensures { result ≡ rows_are_valid tables.now.state }
{
    let first = are_first_valid(tables);
    let last = are_last_valid(tables);
    first & last
}

/// Whether the marks of each task fit its stage.
fn have_fitting_marks(tables: &Tables) -> bool
    ensures { result ≡ list_all has_fitting_marks tables.now.state.tasks }
{
    tables.tasks().all(|task| has_fitting_marks(task))
}

/// Whether exactly the completed tasks are closed.
fn are_closed_if_completed(tables: &Tables) -> bool
    ensures { result ≡ list_all is_closed_if_completed tables.now.state.tasks }
{
    tables.tasks().all(|task| is_closed_if_completed(task))
}

/// Whether each task has had fewer attempts than runs were made.
fn have_few_attempts(tables: &Tables) -> bool
    ensures { result ≡ list_all (λ (task : Task). nat_lt task.attempt tables.now.state.next_run) tables.now.state.tasks }
{
    let next_run = tables.next_run();
    tables.tasks().all(|task| task.attempt < next_run)
}

/// Whether the marks and the closing of each task fit its stage, and its attempts are fewer than the runs that were made.
pub fn are_tasks_fitting(tables: &Tables) -> bool
    ensures { result ≡ tasks_are_fitting tables.now.state }
{
    let marks = have_fitting_marks(tables);
    let closing = are_closed_if_completed(tables);
    let attempts = have_few_attempts(tables);
    marks & (closing & attempts)
}
