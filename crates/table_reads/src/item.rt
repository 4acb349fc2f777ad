//! Rows as reads show them, and the counts of a job's tasks.
ghost use Rattle.std.specs.Prelude.{◌≡◌, IfOk, count_by};
ghost use Rattle.batch_model.specs.Nodes.{is_in_pool};
ghost use Rattle.batch_model.specs.Tasks.{is_placed_in, placed_count};
ghost use Rattle.batch_model.specs.WellFormed.{scales};
ghost use Rattle.table_reads.specs.Items.{pool_item, is_busy_state, node_item, job_item, task_item, has_success, is_active_in, is_completed_in, has_succeeded_in, has_failed_in, task_counts};

use bt_base::{Duplicate, Id, NoMemory};
use bt_rows::job::JobRow;
use bt_rows::node::NodeRow;
use bt_rows::pool::PoolRow;
use bt_rows::reply::{JobItem, NodeItem, NodeState, PoolItem, TaskCounts, TaskItem};
use bt_rows::tables::Tables;
use bt_rows::task::{TaskRow, TaskStage};
use table_scans::{is_active, is_in_pool, is_placed, node_state, task_state};

/// How many nodes the pool with this id has.
fn node_count(tables: &Tables, pool: &Id) -> usize
    ensures { result ≡ count_by (is_in_pool pool.now) tables.now.state.nodes }
{
    let _few = tables.node_count();
    tables.nodes().filter(|node| is_in_pool(pool, node)).count()
}

/// Whether the pool with this id scales automatically.
fn scales(tables: &Tables, pool: &Id) -> bool
    ensures { result ≡ scales tables.now.state pool.now }
{
    tables.scales().any(|scale| scale.pool.same(pool))
}

/// The pool as a read shows it. It fails only when out of memory.
pub fn pool_item(tables: &Tables, pool: &PoolRow) -> Result<PoolItem, NoMemory>
    ensures { IfOk result (λ item. item ≡ pool_item tables.now.state pool.now) }
{
    let id = pool.id.copy()?;
    let nodes = node_count(tables, &pool.id);
    let scales = scales(tables, &pool.id);
    Ok(PoolItem {
        id,
        deleting: pool.deleting,
        alloc: pool.alloc,
        current_dedicated: nodes as u64,
        current_low: 0,
        dedicated: pool.dedicated,
        low: pool.low,
        slots: pool.slots,
        scales,
        error: pool.error,
    })
}

/// Whether a node in this state is busy.
fn is_busy_state(state: NodeState) -> bool
    ensures { result ≡ is_busy_state state }
{
    matches!(state, NodeState::WaitingForStartTask | NodeState::Running)
}

/// The node as a read shows it. It does not allocate.
pub fn node_item(tables: &Tables, node: &NodeRow) -> NodeItem
    ensures { result ≡ node_item tables.now.state node.now }
{
    NodeItem {
        number: node.number,
        seat: node.seat,
        stage: node.stage,
        busy: is_busy_state(node_state(tables, node)),
    }
}

/// The job as a read shows it. It fails only when out of memory.
pub fn job_item(job: &JobRow) -> Result<JobItem, NoMemory>
    ensures { IfOk result (λ item. item ≡ job_item job.now) }
{
    let id = job.id.copy()?;
    let pool = job.pool.copy()?;
    let reason = job.reason.clone()?;
    Ok(JobItem {
        id,
        pool,
        state: job.state,
        priority: job.priority,
        parallel: job.parallel,
        reason,
    })
}

/// The task as a read shows it. It fails only when out of memory.
pub fn task_item(tables: &Tables, task: &TaskRow) -> Result<TaskItem, NoMemory>
    ensures { IfOk result (λ item. item ≡ task_item tables.now.state task.now) }
{
    let id = task.id.copy()?;
    let line = task.line.copy()?;
    Ok(TaskItem {
        id,
        line,
        state: task_state(tables, task),
        how: task.closed.map(|closed| closed.how),
        success: task.closed.map(|closed| closed.success),
        failures: task.failures,
    })
}

/// Whether the task ended with success.
fn has_success(task: &TaskRow) -> bool
    ensures { result ≡ has_success task.now }
{
    match task.closed {
        None => false,
        Some(closed) => closed.success,
    }
}

/// Whether the task is an active one of the job.
fn is_active_in(job: &Id, task: &TaskRow) -> bool
    ensures { result ≡ is_active_in job.now task.now }
{
    is_active(task.stage) && task.job.same(job)
}

/// Whether the task is a placed one of the job.
fn is_placed_in(job: &Id, task: &TaskRow) -> bool
    ensures { result ≡ is_placed_in job.now task.now }
{
    is_placed(task.stage) && task.job.same(job)
}

/// Whether the task is a completed one of the job.
fn is_completed_in(job: &Id, task: &TaskRow) -> bool
    ensures { result ≡ is_completed_in job.now task.now }
{
    task.stage == TaskStage::Completed && task.job.same(job)
}

/// Whether the task is a completed one of the job that ended with success.
fn has_succeeded_in(job: &Id, task: &TaskRow) -> bool
    ensures { result ≡ has_succeeded_in job.now task.now }
{
    is_completed_in(job, task) && has_success(task)
}

/// Whether the task is a completed one of the job that ended without success.
fn has_failed_in(job: &Id, task: &TaskRow) -> bool
    ensures { result ≡ has_failed_in job.now task.now }
{
    is_completed_in(job, task) && !has_success(task)
}

/// How many tasks of the job are active.
fn active_count(tables: &Tables, job: &Id) -> usize
    ensures { result ≡ count_by (is_active_in job.now) tables.now.state.tasks }
{
    let _few = tables.task_count();
    tables
        .tasks()
        .filter(|task| is_active_in(job, task))
        .count()
}

/// How many tasks of the job are placed.
fn placed_count(tables: &Tables, job: &Id) -> usize
    ensures { result ≡ placed_count tables.now.state job.now }
{
    let _few = tables.task_count();
    tables
        .tasks()
        .filter(|task| is_placed_in(job, task))
        .count()
}

/// How many tasks of the job are completed.
fn completed_count(tables: &Tables, job: &Id) -> usize
    ensures { result ≡ count_by (is_completed_in job.now) tables.now.state.tasks }
{
    let _few = tables.task_count();
    tables
        .tasks()
        .filter(|task| is_completed_in(job, task))
        .count()
}

/// How many tasks of the job succeeded.
fn succeeded_count(tables: &Tables, job: &Id) -> usize
    ensures { result ≡ count_by (has_succeeded_in job.now) tables.now.state.tasks }
{
    let _few = tables.task_count();
    tables
        .tasks()
        .filter(|task| has_succeeded_in(job, task))
        .count()
}

/// How many tasks of the job failed.
fn failed_count(tables: &Tables, job: &Id) -> usize
    ensures { result ≡ count_by (has_failed_in job.now) tables.now.state.tasks }
{
    let _few = tables.task_count();
    tables
        .tasks()
        .filter(|task| has_failed_in(job, task))
        .count()
}

/// How many tasks of the job with this id are in each state. It does not allocate.
pub fn task_counts(tables: &Tables, job: &Id) -> TaskCounts
    ensures { result ≡ task_counts tables.now.state job.now }
{
    TaskCounts {
        active: active_count(tables, job) as u64,
        running: placed_count(tables, job) as u64,
        completed: completed_count(tables, job) as u64,
        succeeded: succeeded_count(tables, job) as u64,
        failed: failed_count(tables, job) as u64,
    }
}
