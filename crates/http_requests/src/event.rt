//! The operations of routes, and the events that they are.
ghost use Rattle.std.specs.Prelude.{◌≡◌, option_map};
ghost use Rattle.bt_base.specs.Fails.{Gives};
ghost use Rattle.http_requests.specs.Events.{post_operation, delete_operation, patch_operation, operation_of, asked_of, stated_body, event_for};

use crate::ids::{first_id, job_and_task};
use bt_base::Fail;
use bt_rows::event::Event;
use bt_rows::refusal::Refusal;
use http_routes::{Method, Route};
use std::alloc::Global;
use wire_operations::{
    Asked, JobOperation, Operation, PoolOperation, ServiceOperation, TaskOperation, read_operation,
};

/// The operation that `POST` of this route is; None if the route does not have the method.
fn post_operation(route: Route) -> Option<Operation>
    ensures { result ≡ post_operation route }
{
    match route {
        Route::Pools => Some(Operation::Service(ServiceOperation::AddPool)),
        Route::PoolResize => Some(Operation::Pool(PoolOperation::Resize)),
        Route::PoolStopResize => Some(Operation::Pool(PoolOperation::StopResize)),
        Route::PoolEnableAutoscale => Some(Operation::Pool(PoolOperation::EnableAutoscale)),
        Route::PoolDisableAutoscale => Some(Operation::Pool(PoolOperation::DisableAutoscale)),
        Route::PoolEvaluateAutoscale => Some(Operation::Pool(PoolOperation::EvaluateAutoscale)),
        Route::Jobs => Some(Operation::Service(ServiceOperation::AddJob)),
        Route::JobDisable => Some(Operation::Job(JobOperation::Disable)),
        Route::JobEnable => Some(Operation::Job(JobOperation::Enable)),
        Route::JobTerminate => Some(Operation::Job(JobOperation::Terminate)),
        Route::JobAddTasks => Some(Operation::Job(JobOperation::AddTasks)),
        Route::JobTasks => Some(Operation::Job(JobOperation::AddTask)),
        Route::TaskTerminate => Some(Operation::Task(TaskOperation::Terminate)),
        Route::TaskReactivate => Some(Operation::Task(TaskOperation::Reactivate)),
        Route::Pool | Route::PoolNodes | Route::Job | Route::JobTaskCounts | Route::Task => None,
    }
}

/// The operation that `PATCH` of this route is; None if the route does not have the method.
fn patch_operation(route: Route) -> Option<Operation>
    ensures { result ≡ patch_operation route }
{
    match route {
        Route::Job => Some(Operation::Job(JobOperation::Patch)),
        Route::Pools
        | Route::Pool
        | Route::PoolResize
        | Route::PoolStopResize
        | Route::PoolEnableAutoscale
        | Route::PoolDisableAutoscale
        | Route::PoolEvaluateAutoscale
        | Route::PoolNodes
        | Route::Jobs
        | Route::JobDisable
        | Route::JobEnable
        | Route::JobTerminate
        | Route::JobAddTasks
        | Route::JobTasks
        | Route::JobTaskCounts
        | Route::Task
        | Route::TaskTerminate
        | Route::TaskReactivate => None,
    }
}

/// The operation that `DELETE` of this route is; None if the route does not have the method.
fn delete_operation(route: Route) -> Option<Operation>
    ensures { result ≡ delete_operation route }
{
    match route {
        Route::Pool => Some(Operation::Pool(PoolOperation::Delete)),
        Route::Job => Some(Operation::Job(JobOperation::Delete)),
        Route::Task => Some(Operation::Task(TaskOperation::Delete)),
        Route::Pools
        | Route::PoolResize
        | Route::PoolStopResize
        | Route::PoolEnableAutoscale
        | Route::PoolDisableAutoscale
        | Route::PoolEvaluateAutoscale
        | Route::PoolNodes
        | Route::Jobs
        | Route::JobDisable
        | Route::JobEnable
        | Route::JobTerminate
        | Route::JobAddTasks
        | Route::JobTasks
        | Route::JobTaskCounts
        | Route::TaskTerminate
        | Route::TaskReactivate => None,
    }
}

/// The operation that this method of the route is; None if it is none, as `GET` is.
fn operation_of(route: Route, method: Method) -> Option<Operation>
    ensures { result ≡ operation_of route method }
{
    match method {
        Method::Get => None,
        Method::Post => post_operation(route),
        Method::Patch => patch_operation(route),
        Method::Delete => delete_operation(route),
    }
}

/// The operation with the ids of the path.
#[tactic(auto, unfolding(crate::specs::Events::asked_of))]
fn asked_of(alloc: Global, operation: Operation, path: &str) -> Result<Asked, Fail<Refusal>>
    ensures { Gives result (asked_of operation path.now) }
{
    match operation {
        Operation::Service(operation) => Ok(Asked::Service(operation)),
        Operation::Pool(operation) => Ok(Asked::Pool(operation, first_id(alloc, path)?)),
        Operation::Job(operation) => Ok(Asked::Job(operation, first_id(alloc, path)?)),
        Operation::Task(operation) => {
            let (job, task) = job_and_task(alloc, path)?;
            Ok(Asked::Task(operation, job, task))
        }
    }
}

/// The body, if it has bytes.
fn stated_body(body: &[u8]) -> Option<&[u8]>
    ensures { option_map (λ bytes. bytes.now) result ≡ stated_body body.now }
{
    if body.is_empty() { None } else { Some(body) }
}

/// The event that is asked for by this method of the route, with the ids of its path and the values of its body. A route without the
/// method is `UnreadableBody`.
#[tactic(auto, unfolding(crate::specs::Events::event_for))]
pub fn event_for(
    alloc: Global,
    route: Route,
    method: Method,
    path: &str,
    body: &[u8],
) -> Result<Event, Fail<Refusal>>
    ensures { Gives result (event_for route method path.now body.now) }
{
    let Some(operation) = operation_of(route, method) else {
        return Err(Fail::Why(Refusal::UnreadableBody));
    };
    let asked = asked_of(alloc, operation, path)?;
    read_operation(alloc, asked, stated_body(body))
}
