//! Pools, nodes, jobs, tasks and counts as JSON.
ghost use Rattle.std.specs.Prelude.{◌≡◌, IfOk, option_map};
ghost use Rattle.serde_json.specs.Data.{string};
ghost use Rattle.serde_json.specs.View.{view, members_view};
ghost use Rattle.wire_words.specs.Words.{how_text, success_word};
ghost use Rattle.wire_json.specs.Members.{texts_data};
ghost use Rattle.wire_json.specs.Items.{resize_error_name, resize_errors, pool_data, item_state, node_data, job_data, task_members, task_data, counts_data, item_data};

use crate::parts::{Written, put_if_some};
use bt_base::NoMemory;
use bt_rows::node::NodeStage;
use bt_rows::pool::ResizeError;
use bt_rows::reply::{Item, JobItem, NodeItem, NodeState, PoolItem, TaskCounts, TaskItem};
use bt_rows::task::How;
use serde_json::{Map, Value, json, put};
use std::alloc::{AllocError, Global};
use wire_words::{
    alloc_word, job_state_word, node_id, node_state_word, pool_state_word, push_how, success_word,
    task_state_word,
};

/// Why a resize ended before its target was reached.
#[tactic(auto, unfolding(crate::specs::Items::resize_error_name))]
fn resize_error_name(error: ResizeError) -> &'static str
    ensures { result.now ≡ resize_error_name error }
{
    match error {
        ResizeError::AllocationTimedOut => "AllocationTimedOut",
        ResizeError::ResizeStopped => "ResizeStopped",
    }
}

/// The names of the errors of the last resize.
fn resize_errors(alloc: Global, error: Option<ResizeError>) -> Result<Value, AllocError>
    ensures { IfOk result (λ value. view value ≡ texts_data (resize_errors error)) }
{
    match error {
        None => json!(in alloc; []),
        Some(error) => json!(in alloc; [resize_error_name(error)]),
    }
}

#[tactic(auto, unfolding(crate::specs::Items::pool_data))]
fn pool_value(alloc: Global, pool: &PoolItem) -> Result<Value, AllocError>
    ensures { IfOk result (λ value. view value ≡ pool_data pool.now) }
{
    let errors = resize_errors(alloc, pool.error)?;
    json!(in alloc; {
        "allocationState": alloc_word(pool.alloc),
        "currentDedicatedNodes": pool.current_dedicated,
        "currentLowPriorityNodes": pool.current_low,
        "enableAutoScale": pool.scales,
        "id": pool.id.as_str(),
        "resizeErrors": errors,
        "state": pool_state_word(pool.deleting),
        "targetDedicatedNodes": pool.dedicated,
        "targetLowPriorityNodes": pool.low,
        "taskSlotsPerNode": pool.slots
    })
}

/// The state of a node at this stage.
fn item_state(stage: NodeStage, busy: bool) -> NodeState
    ensures { result ≡ item_state stage busy }
{
    match (stage, busy) {
        (NodeStage::Starting, true) => NodeState::WaitingForStartTask,
        (NodeStage::Starting, false) => NodeState::Starting,
        (NodeStage::Usable, true) => NodeState::Running,
        (NodeStage::Usable, false) => NodeState::Idle,
        (NodeStage::StartFailed, _) => NodeState::StartTaskFailed,
        (NodeStage::Leaving(_), _) => NodeState::LeavingPool,
    }
}

#[tactic(auto, unfolding(crate::specs::Items::node_data))]
fn node_value(alloc: Global, node: &NodeItem) -> Result<Value, NoMemory>
    ensures { IfOk result (λ value. view value ≡ node_data node.now) }
{
    let id = node_id(alloc, node.number)?;
    let state = node_state_word(item_state(node.stage, node.busy));
    Ok(json!(in alloc; { "id": id.as_str(), "seat": node.seat, "state": state })?)
}

#[tactic(auto, unfolding(crate::specs::Items::job_data))]
fn job_value(alloc: Global, job: &JobItem) -> Result<Value, NoMemory>
    ensures { IfOk result (λ value. view value ≡ job_data job.now) }
{
    let mut members = Map::new(alloc);
    put(
        &mut members,
        alloc,
        "id",
        Value::try_from_str(alloc, job.id.as_str())?,
    )?;
    put(
        &mut members,
        alloc,
        "maxParallelTasks",
        Value::from(job.parallel),
    )?;
    put(
        &mut members,
        alloc,
        "poolId",
        Value::try_from_str(alloc, job.pool.as_str())?,
    )?;
    put(&mut members, alloc, "priority", Value::from(job.priority))?;
    put(
        &mut members,
        alloc,
        "state",
        Value::try_from_str(alloc, job_state_word(job.state))?,
    )?;
    let reason = match &job.reason {
        None => None,
        Some(reason) => Some(reason.to_value(alloc)?),
    };
    Ok(Value::Object(put_if_some(members, alloc, "terminateReason", reason)?))
}

/// How a task was completed, if it was.
fn exit_value(alloc: Global, how: Option<How>) -> Result<Option<Value>, NoMemory>
    ensures { IfOk result (λ value. option_map view value ≡ option_map (λ exit. string (how_text exit)) how) }
{
    match how {
        None => Ok(None),
        Some(how) => {
            let mut text = String::new(alloc);
            push_how(&mut text, how)?;
            Ok(Some(Value::String(text)))
        }
    }
}

/// Whether a task succeeded, if it is completed.
fn result_value(alloc: Global, success: Option<bool>) -> Result<Option<Value>, NoMemory>
    ensures { IfOk result (λ value. option_map view value ≡ option_map (λ well. string (success_word well)) success) }
{
    match success {
        None => Ok(None),
        Some(success) => Ok(Some(Value::try_from_str(alloc, success_word(success))?)),
    }
}

/// The members of a task that are always there.
#[tactic(auto, unfolding(crate::specs::Items::task_members))]
fn task_members(alloc: Global, task: &TaskItem) -> Result<Map<String, Value>, NoMemory>
    ensures { IfOk result (λ members. members_view members.entries ≡ task_members task.now) }
{
    let mut members = Map::new(alloc);
    put(
        &mut members,
        alloc,
        "commandLine",
        Value::try_from_str(alloc, task.line.as_str())?,
    )?;
    put(
        &mut members,
        alloc,
        "id",
        Value::try_from_str(alloc, task.id.as_str())?,
    )?;
    put(
        &mut members,
        alloc,
        "retryCount",
        Value::from(task.failures),
    )?;
    put(
        &mut members,
        alloc,
        "state",
        Value::try_from_str(alloc, task_state_word(task.state))?,
    )?;
    Ok(members)
}

#[tactic(auto, unfolding(crate::specs::Items::task_data))]
fn task_value(alloc: Global, task: &TaskItem) -> Result<Value, NoMemory>
    ensures { IfOk result (λ value. view value ≡ task_data task.now) }
{
    let members = task_members(alloc, task)?;
    let result_word = result_value(alloc, task.success)?;
    let members = put_if_some(members, alloc, "result", result_word)?;
    let exit = exit_value(alloc, task.how)?;
    Ok(Value::Object(put_if_some(members, alloc, "exit", exit)?))
}

#[tactic(auto, unfolding(crate::specs::Items::counts_data))]
fn counts_value(alloc: Global, counts: &TaskCounts) -> Result<Value, AllocError>
    ensures { IfOk result (λ value. view value ≡ counts_data counts.now) }
{
    json!(in alloc; {
        "taskCounts": {
            "active": counts.active,
            "completed": counts.completed,
            "failed": counts.failed,
            "running": counts.running,
            "succeeded": counts.succeeded
        }
    })
}

impl Written for Item {
    ghost data_of = { item_data };

    fn to_value(&self, alloc: Global) -> Result<Value, NoMemory> {
        match self {
            Item::Pool(pool) => Ok(pool_value(alloc, pool)?),
            Item::Node(node) => node_value(alloc, node),
            Item::Job(job) => job_value(alloc, job),
            Item::Task(task) => task_value(alloc, task),
            Item::Counts(counts) => Ok(counts_value(alloc, counts)?),
        }
    }
}
