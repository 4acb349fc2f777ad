//! The table of routes, over the kit's `matchit`. It is made in three parts, since the proof computes the rows of each.
ghost use Rattle.std.specs.Prelude.{◌≡◌, [], IfOk, OnOk, option_map};
ghost use Rattle.matchit.specs.Seek.{first};
ghost use Rattle.http_routes.specs.Table.{pool_rows, job_rows, route_rows, route_of};

use crate::route::Route;
use matchit::{InsertError, Router};
use std::alloc::Global;

/// Adds the routes of pools.
fn add_pool_routes(router: &mut Router<Route>) -> Result<(), InsertError>
    requires { router.old ≡ [] }
    ensures { OnOk result (router.new ≡ pool_rows) }
{
    router.insert("/pools", Route::Pools)?;
    router.insert("/pools/{pool}", Route::Pool)?;
    router.insert("/pools/{pool}/resize", Route::PoolResize)?;
    router.insert("/pools/{pool}/stopresize", Route::PoolStopResize)?;
    router.insert("/pools/{pool}/enableautoscale", Route::PoolEnableAutoscale)?;
    router.insert(
        "/pools/{pool}/disableautoscale",
        Route::PoolDisableAutoscale,
    )?;
    router.insert(
        "/pools/{pool}/evaluateautoscale",
        Route::PoolEvaluateAutoscale,
    )?;
    router.insert("/pools/{pool}/nodes", Route::PoolNodes)?;
    Ok(())
}

/// Adds the routes of jobs.
fn add_job_routes(router: &mut Router<Route>) -> Result<(), InsertError>
    requires { router.old ≡ pool_rows }
    ensures { OnOk result (router.new ≡ job_rows) }
{
    router.insert("/jobs", Route::Jobs)?;
    router.insert("/jobs/{job}", Route::Job)?;
    router.insert("/jobs/{job}/disable", Route::JobDisable)?;
    router.insert("/jobs/{job}/enable", Route::JobEnable)?;
    router.insert("/jobs/{job}/terminate", Route::JobTerminate)?;
    router.insert("/jobs/{job}/addtaskcollection", Route::JobAddTasks)?;
    router.insert("/jobs/{job}/tasks", Route::JobTasks)?;
    router.insert("/jobs/{job}/taskcounts", Route::JobTaskCounts)?;
    Ok(())
}

/// Adds the routes of tasks.
fn add_task_routes(router: &mut Router<Route>) -> Result<(), InsertError>
    requires { router.old ≡ job_rows }
    ensures { OnOk result (router.new ≡ route_rows) }
{
    router.insert("/jobs/{job}/tasks/{task}", Route::Task)?;
    router.insert("/jobs/{job}/tasks/{task}/terminate", Route::TaskTerminate)?;
    router.insert("/jobs/{job}/tasks/{task}/reactivate", Route::TaskReactivate)?;
    Ok(())
}

/// The router of all routes. Returns `OutOfMemory` if memory runs out; no two routes conflict, and each is a valid pattern.
pub fn make_router(alloc: Global) -> Result<Router<Route>, InsertError>
    ensures { IfOk result (λ router. router ≡ route_rows) }
{
    let mut router = Router::new(alloc);
    add_pool_routes(&mut router)?;
    add_job_routes(&mut router)?;
    add_task_routes(&mut router)?;
    Ok(router)
}

/// The route that a path names; None if the path is unknown. Paths are compared byte by byte and are not percent-decoded; a
/// parameter is one segment that is not empty. It does not allocate.
pub fn find_route(router: &Router<Route>, path: &str) -> Option<Route>
    ensures { result ≡ option_map route_of (first router.now path.now) }
{
    match router.at(path) {
        Ok(found) => Some(*found.value),
        Err(_) => None,
    }
}
