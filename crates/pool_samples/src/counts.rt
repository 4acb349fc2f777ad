//! How many tasks of a pool wait, run and are completed.
ghost use Rattle.std.specs.Prelude.{◌≡◌, ◌&&◌, ◌+◌, ◌<◌, ◌^◌, cond};
ghost use Rattle.bt_base.specs.Ids.{same};
ghost use Rattle.batch_model.specs.Jobs.{is_job_active};
ghost use Rattle.batch_model.specs.Metrics.{has_succeeded, instances, is_for_active_job, is_for_pool};
ghost use Rattle.batch_model.specs.Tasks.{is_completed};
ghost use Rattle.batch_model.specs.WellFormed.{KeysAreDistinct};
ghost use Rattle.pool_samples.specs.Conditions.{CanSample};
ghost use Rattle.pool_samples.specs.Counts.{counts_of, plus, task_counts, waiting_part};

use bt_base::Id;
use bt_rows::job::{JobRow, JobState};
use bt_rows::tables::Tables;
use bt_rows::task::{TaskRow, TaskStage};
use machine_index::IndexedTables;
use table_scans::is_placed;
use task_readiness::is_ready;

/// How many tasks are in the states that metrics count.
#[derive(Clone, Copy)]
pub struct TaskCounts {
    /// Instances of ready tasks of active jobs.
    pub active: u32,
    /// Placed tasks.
    pub running: u32,
    /// Tasks that are completed with success.
    pub succeeded: u32,
    /// Tasks that are completed without success.
    pub failed: u32,
}

impl TaskCounts {
    /// The sums of both.
    fn plus(self, other: TaskCounts) -> TaskCounts
        requires active { self.active + other.active < 2 ^ 32 }
        requires running { self.running + other.running < 2 ^ 32 }
        requires succeeded { self.succeeded + other.succeeded < 2 ^ 32 }
        requires failed { self.failed + other.failed < 2 ^ 32 }
        ensures { result ≡ plus self other }
    {
        TaskCounts {
            active: self.active + other.active,
            running: self.running + other.running,
            succeeded: self.succeeded + other.succeeded,
            failed: self.failed + other.failed,
        }
    }
}

/// Whether the job is an active one in the pool.
fn is_active_in(pool: &Id, job: &JobRow) -> bool
    ensures { result ≡ (same job.now.pool pool.now && is_job_active job.now.state) }
{
    job.pool.same(pool) && matches!(job.state, JobState::Active)
}

/// Whether the task is one of a job in the pool. The job is found by its id.
fn is_for_pool(tables: &Tables, pool: &Id, task: &TaskRow) -> bool
    requires { KeysAreDistinct tables.now.state }
    ensures { result ≡ is_for_pool tables.now.state pool.now task.now }
{
    match tables.find_job(&task.job) {
        None => false,
        Some(job) => job.pool.same(pool),
    }
}

/// Whether the task is one of an active job in the pool. The job is found by its id.
fn is_for_active_job(tables: &Tables, pool: &Id, task: &TaskRow) -> bool
    requires { KeysAreDistinct tables.now.state }
    ensures { result ≡ is_for_active_job tables.now.state pool.now task.now }
{
    match tables.find_job(&task.job) {
        None => false,
        Some(job) => is_active_in(pool, job),
    }
}

/// How many nodes the task takes at once.
fn instances(task: &TaskRow) -> u32
    ensures { result ≡ instances task.now }
{
    match task.settings.multi() {
        None => 1,
        Some(multi) => u32::from(multi.count),
    }
}

/// The instances of the task, if it is ready and its job is an active one in the pool, and else 0.
fn waiting(indexed: &IndexedTables, pool: &Id, task: &TaskRow) -> u32
    requires { KeysAreDistinct indexed.now.state }
    ensures { result ≡ waiting_part indexed.now.state pool.now task.now }
{
    if is_ready(indexed, task) && is_for_active_job(indexed.tables(), pool, task) {
        instances(task)
    } else {
        0
    }
}

/// Whether the task is completed.
fn is_completed(stage: TaskStage) -> bool
    ensures { result ≡ is_completed stage }
{
    matches!(stage, TaskStage::Completed)
}

/// Whether the task was completed with success.
fn has_succeeded(task: &TaskRow) -> bool
    ensures { result ≡ has_succeeded task.now }
{
    match &task.closed {
        None => false,
        Some(closed) => closed.success,
    }
}

/// 1 if the test passes, and else 0.
fn one_if(test: bool) -> u32
    ensures { result ≡ cond test 1 0 }
{
    u32::from(test)
}

/// What the task adds to the counts of the pool.
fn task_counts(indexed: &IndexedTables, pool: &Id, task: &TaskRow) -> TaskCounts
    requires { KeysAreDistinct indexed.now.state }
    ensures { result ≡ task_counts indexed.now.state pool.now task.now }
{
    let here = is_for_pool(indexed.tables(), pool, task);
    let completed = is_completed(task.stage);
    let succeeded = has_succeeded(task);
    TaskCounts {
        active: waiting(indexed, pool, task),
        running: one_if(here && is_placed(task.stage)),
        succeeded: one_if(here && (completed && succeeded)),
        failed: one_if(here && (completed && !succeeded)),
    }
}

/// The counts of the pool. It goes once over the tasks, finds the job of each by its id, and does not allocate.
pub fn count_tasks(indexed: &IndexedTables, pool: &Id) -> TaskCounts
    requires { CanSample indexed.now.state }
    ensures { result ≡ counts_of indexed.now.state pool.now }
{
    let mut counts = TaskCounts {
        active: 0,
        running: 0,
        succeeded: 0,
        failed: 0,
    };
    for task in indexed.tables().tasks() {
        counts = counts.plus(task_counts(indexed, pool, task));
    }
    counts
}
