//! The reads of routes.
ghost use Rattle.bt_base.specs.Fails.{Gives};
ghost use Rattle.http_requests.specs.Reads.{get_pool, list_pools, list_nodes, get_job, list_jobs, get_task, list_tasks, task_counts, read_for};

use crate::ids::{first_id, job_and_task};
use crate::listing::listing_of;
use bt_base::Fail;
use bt_rows::refusal::Refusal;
use http_routes::Route;
use std::alloc::Global;
use table_reads::Read;

#[tactic(auto, unfolding(crate::specs::Reads::list_pools))]
fn list_pools(alloc: Global, query: &str) -> Result<Read, Fail<Refusal>>
    ensures { Gives result (list_pools query.now) }
{
    Ok(Read::ListPools(listing_of(alloc, query)?))
}

#[tactic(auto, unfolding(crate::specs::Reads::get_pool))]
fn get_pool(alloc: Global, path: &str) -> Result<Read, Fail<Refusal>>
    ensures { Gives result (get_pool path.now) }
{
    Ok(Read::GetPool(first_id(alloc, path)?))
}

#[tactic(auto, unfolding(crate::specs::Reads::list_nodes))]
fn list_nodes(alloc: Global, path: &str, query: &str) -> Result<Read, Fail<Refusal>>
    ensures { Gives result (list_nodes path.now query.now) }
{
    let pool = first_id(alloc, path)?;
    let listing = listing_of(alloc, query)?;
    Ok(Read::ListNodes(pool, listing))
}

#[tactic(auto, unfolding(crate::specs::Reads::list_jobs))]
fn list_jobs(alloc: Global, query: &str) -> Result<Read, Fail<Refusal>>
    ensures { Gives result (list_jobs query.now) }
{
    Ok(Read::ListJobs(listing_of(alloc, query)?))
}

#[tactic(auto, unfolding(crate::specs::Reads::get_job))]
fn get_job(alloc: Global, path: &str) -> Result<Read, Fail<Refusal>>
    ensures { Gives result (get_job path.now) }
{
    Ok(Read::GetJob(first_id(alloc, path)?))
}

#[tactic(auto, unfolding(crate::specs::Reads::list_tasks))]
fn list_tasks(alloc: Global, path: &str, query: &str) -> Result<Read, Fail<Refusal>>
    ensures { Gives result (list_tasks path.now query.now) }
{
    let job = first_id(alloc, path)?;
    let listing = listing_of(alloc, query)?;
    Ok(Read::ListTasks(job, listing))
}

#[tactic(auto, unfolding(crate::specs::Reads::task_counts))]
fn task_counts(alloc: Global, path: &str) -> Result<Read, Fail<Refusal>>
    ensures { Gives result (task_counts path.now) }
{
    Ok(Read::TaskCounts(first_id(alloc, path)?))
}

#[tactic(auto, unfolding(crate::specs::Reads::get_task))]
fn get_task(alloc: Global, path: &str) -> Result<Read, Fail<Refusal>>
    ensures { Gives result (get_task path.now) }
{
    let (job, task) = job_and_task(alloc, path)?;
    Ok(Read::GetTask(job, task))
}

/// The read that is asked for by `GET` of this route, with the ids of its path; the query of lists says how much of them. A
/// route without `GET` is `UnreadableBody`.
#[tactic(auto, unfolding(crate::specs::Reads::read_for))]
pub fn read_for(alloc: Global, route: Route, path: &str, query: &str) -> Result<Read, Fail<Refusal>>
    ensures { Gives result (read_for route path.now query.now) }
{
    match route {
        Route::Pools => list_pools(alloc, query),
        Route::Pool => get_pool(alloc, path),
        Route::PoolNodes => list_nodes(alloc, path, query),
        Route::Jobs => list_jobs(alloc, query),
        Route::Job => get_job(alloc, path),
        Route::JobTasks => list_tasks(alloc, path, query),
        Route::JobTaskCounts => task_counts(alloc, path),
        Route::Task => get_task(alloc, path),
        Route::PoolResize
        | Route::PoolStopResize
        | Route::PoolEnableAutoscale
        | Route::PoolDisableAutoscale
        | Route::PoolEvaluateAutoscale
        | Route::JobDisable
        | Route::JobEnable
        | Route::JobTerminate
        | Route::JobAddTasks
        | Route::TaskTerminate
        | Route::TaskReactivate => Err(Fail::Why(Refusal::UnreadableBody)),
    }
}
