//! The pass that names the first rule that tables break, and a row that breaks it. It is for tables that are not well formed, and its
//! answer has no clause: whether tables are well formed is decided by `check` alone.
use crate::distinct::are_keys_distinct;
use crate::fault::{Broken, Rule, TablesFault};
use crate::keys::{MainOfAttempt, MetricOfPool, PlacedInJob, PreparationOnNode, StartOnNode};
use crate::labels::{has_label, is_covered, is_few, last_labels, put_label};
use crate::named::{has_job_row, has_named_job, has_named_task};
use crate::numbers::{are_counts_in_range, are_few};
use crate::pools::{has_pool_row, is_deleting_whole};
use crate::quiet::has_no_placed;
use crate::row_name::RowRef;
use crate::tries::{has_few_runs, has_few_starts};
use bt_base::{LAST_MOMENT_MS, NoMemory};
use bt_rows::tables::Tables;
use row_keys::{KeyNumbers, RowKey, count_keys};
use row_values::{
    has_fitting_marks, is_closed_if_completed, is_job_valid, is_node_in_range, is_pool_valid,
    is_run_valid, is_sample_valid, is_scale_in_range, is_task_valid,
};
use std::alloc::Global;

/// The first pool, node, job or task with a value that is not valid.
fn first_invalid(tables: &Tables) -> Option<RowRef<'_>> {
    let now = tables.moment();
    let pool = tables.pools().find(|pool| !is_pool_valid(now, *pool));
    let node = tables.nodes().find(|node| !is_node_in_range(*node));
    let job = tables.jobs().find(|job| !is_job_valid(now, *job));
    let task = tables.tasks().find(|task| !is_task_valid(now, *task));
    match (pool, node, job, task) {
        (Some(pool), _, _, _) => Some(RowRef::Pool(pool)),
        (None, Some(node), _, _) => Some(RowRef::Node(node)),
        (None, None, Some(job), _) => Some(RowRef::Job(job)),
        (None, None, None, Some(task)) => Some(RowRef::Task(task)),
        (None, None, None, None) => None,
    }
}

/// The first run, sample or scaling with a value that is not valid.
fn last_invalid(tables: &Tables) -> Option<RowRef<'_>> {
    let now = tables.moment();
    let run = tables.runs().find(|run| !is_run_valid(now, *run));
    let sample = tables
        .samples()
        .find(|sample| !is_sample_valid(now, *sample));
    let scale = tables.scales().find(|scale| !is_scale_in_range(*scale));
    match (run, sample, scale) {
        (Some(run), _, _) => Some(RowRef::Run(run)),
        (None, Some(sample), _) => Some(RowRef::Sample(sample)),
        (None, None, Some(scale)) => Some(RowRef::Scale(scale)),
        (None, None, None) => None,
    }
}

/// A broken rule of single rows.
fn broken_values(tables: &Tables) -> Option<Broken<'_>> {
    Broken::unless(tables.moment() <= LAST_MOMENT_MS, Rule::Moment)
        .or(Broken::by(Rule::Values, first_invalid(tables)))
        .or(Broken::by(Rule::Values, last_invalid(tables)))
}

/// A row whose number, or whose node's, is not below that of the next one.
fn first_above(tables: &Tables) -> Option<RowRef<'_>> {
    let (next_node, next_run) = (tables.next_node(), tables.next_run());
    let node = tables.nodes().find(|node| node.number >= next_node);
    let run = tables
        .runs()
        .find(|run| run.number >= next_run || run.node >= next_node);
    let prep = tables.preps().find(|prep| prep.node >= next_node);
    match (node, run, prep) {
        (Some(node), _, _) => Some(RowRef::Node(node)),
        (None, Some(run), _) => Some(RowRef::Run(run)),
        (None, None, Some(prep)) => Some(RowRef::Prep(prep)),
        (None, None, None) => None,
    }
}

/// A broken rule of counts and counters.
fn broken_numbers(tables: &Tables) -> Option<Broken<'_>> {
    Broken::unless(are_few(tables), Rule::Counts)
        .or(Broken::unless(are_counts_in_range(tables), Rule::Counters))
        .or(Broken::by(Rule::Numbers, first_above(tables)))
}

/// A broken rule of single tasks.
fn broken_tasks(tables: &Tables) -> Option<Broken<'_>> {
    let next_run = tables.next_run();
    let marks = tables.tasks().find(|task| !has_fitting_marks(*task));
    let closing = tables.tasks().find(|task| !is_closed_if_completed(*task));
    let attempts = tables.tasks().find(|task| task.attempt >= next_run);
    match (marks, closing, attempts) {
        (Some(task), _, _) => Broken::by(Rule::Marks, Some(RowRef::Task(task))),
        (None, Some(task), _) => Broken::by(Rule::Closing, Some(RowRef::Task(task))),
        (None, None, Some(task)) => Broken::by(Rule::Attempts, Some(RowRef::Task(task))),
        (None, None, None) => None,
    }
}

/// A broken rule of rows that name others.
fn broken_names(tables: &Tables) -> Option<Broken<'_>> {
    let task = tables.tasks().find(|task| !has_job_row(tables, &task.job));
    let job_of_run = tables.runs().find(|run| !has_named_job(tables, *run));
    let task_of_run = tables.runs().find(|run| !has_named_task(tables, *run));
    match (task, job_of_run, task_of_run) {
        (Some(task), _, _) => Broken::by(Rule::Job, Some(RowRef::Task(task))),
        (None, Some(run), _) => Broken::by(Rule::Job, Some(RowRef::Run(run))),
        (None, None, Some(run)) => Broken::by(Rule::Task, Some(RowRef::Run(run))),
        (None, None, None) => None,
    }
}

/// A broken rule of pools, and of the rows that name them.
fn broken_pools(tables: &Tables) -> Option<Broken<'_>> {
    let pool = tables
        .pools()
        .find(|pool| !is_deleting_whole(tables, *pool));
    let scale = tables
        .scales()
        .find(|scale| !has_pool_row(tables, &scale.pool));
    let sample = tables
        .samples()
        .find(|sample| !has_pool_row(tables, &sample.pool));
    let label = tables.samples().find(|sample| !has_label(*sample));
    match (pool, scale, sample, label) {
        (Some(pool), _, _, _) => Broken::by(Rule::Deleting, Some(RowRef::Pool(pool))),
        (None, Some(scale), _, _) => Broken::by(Rule::Pool, Some(RowRef::Scale(scale))),
        (None, None, Some(sample), _) => Broken::by(Rule::Pool, Some(RowRef::Sample(sample))),
        (None, None, None, Some(sample)) => Broken::by(Rule::Label, Some(RowRef::Sample(sample))),
        (None, None, None, None) => None,
    }
}

/// A broken rule that is tested without memory.
fn broken_plainly(tables: &Tables) -> Option<Broken<'_>> {
    broken_values(tables)
        .or(broken_numbers(tables))
        .or(broken_tasks(tables))
        .or(broken_names(tables))
        .or(broken_pools(tables))
}

/// A node or a preparation with too many failures and unended runs.
fn broken_tries(alloc: Global, tables: &Tables) -> Result<Option<Broken<'_>>, NoMemory> {
    let next_run = tables.next_run();
    let starts = count_keys::<StartOnNode>(alloc, tables.runs())?;
    let node = tables
        .nodes()
        .find(|node| !has_few_starts(&starts, *node, next_run));
    let runs = count_keys::<PreparationOnNode>(alloc, tables.runs())?;
    let prep = tables
        .preps()
        .find(|prep| !has_few_runs(&runs, *prep, next_run));
    Ok(match (node, prep) {
        (Some(node), _) => Broken::by(Rule::Tries, Some(RowRef::Node(node))),
        (None, Some(prep)) => Broken::by(Rule::Tries, Some(RowRef::Prep(prep))),
        (None, None) => None,
    })
}

/// A main run of an attempt that has another one.
fn broken_main_runs(alloc: Global, tables: &Tables) -> Result<Option<Broken<'_>>, NoMemory> {
    let counts = count_keys::<MainOfAttempt>(alloc, tables.runs())?;
    for run in tables.runs() {
        if let Some(key) = MainOfAttempt::key(alloc, run)?
            && counts.count(key.as_slice()) > 1
        {
            return Ok(Broken::by(Rule::MainRun, Some(RowRef::Run(run))));
        }
    }
    Ok(None)
}

/// A job that is disabled, enabling or completed and has a placed task.
fn broken_quiet_jobs(alloc: Global, tables: &Tables) -> Result<Option<Broken<'_>>, NoMemory> {
    let placed = count_keys::<PlacedInJob>(alloc, tables.tasks())?;
    let job = tables.jobs().find(|job| !has_no_placed(&placed, *job));
    Ok(match job {
        Some(job) => Broken::by(Rule::QuietJob, Some(RowRef::Job(job))),
        None => None,
    })
}

/// A sample whose label does not rise.
fn broken_order(alloc: Global, tables: &Tables) -> Result<Option<Broken<'_>>, NoMemory> {
    let mut labels = KeyNumbers::new(alloc);
    for sample in tables.samples() {
        if !put_label(alloc, &mut labels, sample)? {
            return Ok(Broken::by(Rule::LabelOrder, Some(RowRef::Sample(sample))));
        }
    }
    Ok(None)
}

/// A sample that is not covered, or one of too many.
fn broken_samples(alloc: Global, tables: &Tables) -> Result<Option<Broken<'_>>, NoMemory> {
    let labels = last_labels(alloc, tables)?;
    let cover = tables
        .samples()
        .find(|sample| !is_covered(&labels, *sample));
    let counts = count_keys::<MetricOfPool>(alloc, tables.samples())?;
    let count = tables.samples().find(|sample| !is_few(&counts, *sample));
    Ok(match (cover, count) {
        (Some(sample), _) => Broken::by(Rule::LabelCover, Some(RowRef::Sample(sample))),
        (None, Some(sample)) => Broken::by(Rule::SampleCount, Some(RowRef::Sample(sample))),
        (None, None) => None,
    })
}

/// A broken rule that is tested with memory.
fn broken_by_counts(alloc: Global, tables: &Tables) -> Result<Option<Broken<'_>>, NoMemory> {
    let keys = Broken::unless(are_keys_distinct(alloc, tables)?, Rule::Keys);
    let tries = broken_tries(alloc, tables)?;
    let main_runs = broken_main_runs(alloc, tables)?;
    let quiet_jobs = broken_quiet_jobs(alloc, tables)?;
    let order = broken_order(alloc, tables)?;
    let samples = broken_samples(alloc, tables)?;
    Ok(
        keys.or(tries)
            .or(main_runs)
            .or(quiet_jobs)
            .or(order)
            .or(samples),
    )
}

/// A rule that the tables, which are not well formed, break, and a row that breaks it. The only error is out of memory.
pub fn first_fault(alloc: Global, tables: &Tables) -> Result<TablesFault, NoMemory> {
    let plain = broken_plainly(tables);
    let broken = match plain {
        Some(_) => plain,
        None => broken_by_counts(alloc, tables)?,
    };
    TablesFault::of(broken.unwrap_or(Broken {
        rule: Rule::Other,
        row: None,
    }))
}
