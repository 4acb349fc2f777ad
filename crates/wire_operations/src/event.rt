//! The events of operations that have a body.
ghost use Rattle.std.specs.Prelude.{◌≡◌, true, option_map, IfOk};
ghost use Rattle.bt_base.specs.Fails.{Gives, GivesAs};
ghost use Rattle.bt_rows.specs.Ranges.{is_reason, passes_if_some};
ghost use Rattle.wire_operations.specs.declared.operation.Asked.TheVariants as asks;
ghost use Rattle.wire_operations.specs.declared.operation.ServiceOperation.TheVariants as services;
ghost use Rattle.wire_operations.specs.declared.operation.PoolOperation.TheVariants as pools;
ghost use Rattle.wire_operations.specs.declared.operation.JobOperation.TheVariants as jobs;
ghost use Rattle.wire_operations.specs.Operations.{required_body, reason_if, event_of};

use bt_base::{Fail, Id, Shared, Text};
use bt_rows::event::{Event, EventKind};
use bt_rows::refusal::Refusal;
use std::alloc::Global;
use wire_bodies::{
    read_collection, read_disable_tasks, read_enable_autoscale, read_evaluate_autoscale, read_job,
    read_job_patch, read_pool, read_resize, read_task, read_terminate_reason,
};

/// The bytes of a body that has to be there.
fn required_body(body: Option<&[u8]>) -> Result<&[u8], Fail<Refusal>>
    ensures { GivesAs (λ bytes. bytes.now) result (required_body (option_map (λ bytes. bytes.now) body.entry)) }
{
    body.ok_or(Fail::Why(Refusal::UnreadableBody))
}

/// The reason that a body states; without a body there is none.
fn reason_if(alloc: Global, body: Option<&[u8]>) -> Result<Option<Text>, Fail<Refusal>>
    ensures value { Gives result (reason_if (option_map (λ bytes. bytes.now) body.entry)) }
    ensures kept { IfOk result (λ reason. passes_if_some is_reason reason ≡ true) }
{
    match body {
        None => Ok(None),
        Some(bytes) => read_terminate_reason(alloc, bytes),
    }
}

/// The event of `add-pool` with this body.
#[tactic(auto, unfolding(crate::specs::Operations::event_of))]
pub fn add_pool(alloc: Global, body: Option<&[u8]>) -> Result<Event, Fail<Refusal>>
    ensures { Gives result (event_of (asks.Service services.AddPool) (option_map (λ bytes. bytes.now) body.entry)) }
{
    let pool = read_pool(alloc, required_body(body)?)?;
    let pool = Shared::new(alloc, pool)?;
    Ok(Event::new(EventKind::AddPool(pool)))
}

/// The event of `resize` with this id and this body.
#[tactic(auto, unfolding(crate::specs::Operations::event_of))]
pub fn resize_pool(alloc: Global, pool: Id, body: Option<&[u8]>) -> Result<Event, Fail<Refusal>>
    ensures { Gives result (event_of (asks.Pool pools.Resize pool) (option_map (λ bytes. bytes.now) body.entry)) }
{
    let resize = read_resize(alloc, required_body(body)?)?;
    let resize = Shared::new(alloc, resize)?;
    Ok(Event::new(EventKind::Resize(pool, resize)))
}

/// The event of `enable-autoscale` with this id and this body.
#[tactic(auto, unfolding(crate::specs::Operations::event_of))]
pub fn enable_autoscale(
    alloc: Global,
    pool: Id,
    body: Option<&[u8]>,
) -> Result<Event, Fail<Refusal>>
    ensures { Gives result (event_of (asks.Pool pools.EnableAutoscale pool) (option_map (λ bytes. bytes.now) body.entry)) }
{
    let scaling = read_enable_autoscale(alloc, required_body(body)?)?;
    let scaling = Shared::new(alloc, scaling)?;
    Ok(Event::new(EventKind::EnableAutoscale(pool, scaling)))
}

/// The event of `evaluate-autoscale` with this id and this body.
#[tactic(auto, unfolding(crate::specs::Operations::event_of))]
pub fn evaluate_autoscale(
    alloc: Global,
    pool: Id,
    body: Option<&[u8]>,
) -> Result<Event, Fail<Refusal>>
    ensures { Gives result (event_of (asks.Pool pools.EvaluateAutoscale pool) (option_map (λ bytes. bytes.now) body.entry)) }
{
    let formula = read_evaluate_autoscale(alloc, required_body(body)?)?;
    Ok(Event::new(EventKind::EvaluateAutoscale(pool, formula)))
}

/// The event of `add-job` with this body.
#[tactic(auto, unfolding(crate::specs::Operations::event_of))]
pub fn add_job(alloc: Global, body: Option<&[u8]>) -> Result<Event, Fail<Refusal>>
    ensures { Gives result (event_of (asks.Service services.AddJob) (option_map (λ bytes. bytes.now) body.entry)) }
{
    let (id, job) = read_job(alloc, required_body(body)?)?;
    let job = Shared::new(alloc, job)?;
    Ok(Event::new(EventKind::AddJob(id, job)))
}

/// The event of `patch-job` with this id and this body.
#[tactic(auto, unfolding(crate::specs::Operations::event_of))]
pub fn patch_job(alloc: Global, job: Id, body: Option<&[u8]>) -> Result<Event, Fail<Refusal>>
    ensures { Gives result (event_of (asks.Job jobs.Patch job) (option_map (λ bytes. bytes.now) body.entry)) }
{
    let patch = read_job_patch(alloc, required_body(body)?)?;
    let patch = Shared::new(alloc, patch)?;
    Ok(Event::new(EventKind::PatchJob(job, patch)))
}

/// The event of `disable-job` with this id and this body.
#[tactic(auto, unfolding(crate::specs::Operations::event_of))]
pub fn disable_job(alloc: Global, job: Id, body: Option<&[u8]>) -> Result<Event, Fail<Refusal>>
    ensures { Gives result (event_of (asks.Job jobs.Disable job) (option_map (λ bytes. bytes.now) body.entry)) }
{
    let option = read_disable_tasks(alloc, required_body(body)?)?;
    Ok(Event::new(EventKind::DisableJob(job, option)))
}

/// The event of `terminate-job` with this id and this body, which may be missing.
#[tactic(auto, unfolding(crate::specs::Operations::event_of))]
pub fn terminate_job(alloc: Global, job: Id, body: Option<&[u8]>) -> Result<Event, Fail<Refusal>>
    ensures { Gives result (event_of (asks.Job jobs.Terminate job) (option_map (λ bytes. bytes.now) body.entry)) }
{
    let reason = reason_if(alloc, body)?;
    let reason = Shared::new(alloc, reason)?;
    Ok(Event::new(EventKind::TerminateJob(job, reason)))
}

/// The event of `add-task` with the id of the job and this body.
#[tactic(auto, unfolding(crate::specs::Operations::event_of))]
pub fn add_task(alloc: Global, job: Id, body: Option<&[u8]>) -> Result<Event, Fail<Refusal>>
    ensures { Gives result (event_of (asks.Job jobs.AddTask job) (option_map (λ bytes. bytes.now) body.entry)) }
{
    let task = read_task(alloc, required_body(body)?)?;
    let task = Shared::new(alloc, task)?;
    Ok(Event::new(EventKind::AddTask(job, task)))
}

/// The event of `add-tasks` with the id of the job and this body.
#[tactic(auto, unfolding(crate::specs::Operations::event_of))]
pub fn add_tasks(alloc: Global, job: Id, body: Option<&[u8]>) -> Result<Event, Fail<Refusal>>
    ensures { Gives result (event_of (asks.Job jobs.AddTasks job) (option_map (λ bytes. bytes.now) body.entry)) }
{
    let tasks = read_collection(alloc, required_body(body)?)?;
    let tasks = Shared::new(alloc, tasks)?;
    Ok(Event::new(EventKind::AddTasks(job, tasks)))
}
