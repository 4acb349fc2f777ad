//! What reads show of the tables.
ghost use Rattle.std.specs.Prelude.{◌≡◌, IfOk};
ghost use Rattle.table_reads.specs.Reads.{get_pool, list_pools, list_nodes, get_job, list_jobs, get_task, list_tasks, counts_of, read_reply};

use crate::item::{job_item, pool_item, task_counts, task_item};
use crate::page::page_of;
use crate::request::{Listing, Read};
use bt_base::{Id, NoMemory};
use bt_rows::refusal::Refusal;
use bt_rows::reply::{Item, Reply};
use bt_rows::tables::Tables;
use std::alloc::Global;

fn get_pool(tables: &Tables, pool: &Id) -> Result<Reply, NoMemory>
    ensures { IfOk result (λ reply. reply ≡ get_pool tables.now.state pool.now) }
{
    match tables.find_pool(pool) {
        None => Ok(Reply::Refused(Refusal::PoolNotFound)),
        Some(pool) => Ok(Reply::One(Item::Pool(pool_item(tables, pool)?))),
    }
}

fn list_pools(alloc: Global, tables: &Tables, listing: &Listing) -> Result<Reply, NoMemory>
    ensures { IfOk result (λ reply. reply ≡ list_pools tables.now.state listing.now) }
{
    page_of(alloc, tables, tables.pools(), &(), listing)
}

fn list_nodes(
    alloc: Global,
    tables: &Tables,
    pool: &Id,
    listing: &Listing,
) -> Result<Reply, NoMemory>
    ensures { IfOk result (λ reply. reply ≡ list_nodes tables.now.state pool.now listing.now) }
{
    if tables.find_pool(pool).is_none() {
        return Ok(Reply::Refused(Refusal::PoolNotFound));
    }
    page_of(alloc, tables, tables.nodes(), pool, listing)
}

fn get_job(tables: &Tables, job: &Id) -> Result<Reply, NoMemory>
    ensures { IfOk result (λ reply. reply ≡ get_job tables.now.state job.now) }
{
    match tables.find_job(job) {
        None => Ok(Reply::Refused(Refusal::JobNotFound)),
        Some(job) => Ok(Reply::One(Item::Job(job_item(job)?))),
    }
}

fn list_jobs(alloc: Global, tables: &Tables, listing: &Listing) -> Result<Reply, NoMemory>
    ensures { IfOk result (λ reply. reply ≡ list_jobs tables.now.state listing.now) }
{
    page_of(alloc, tables, tables.jobs(), &(), listing)
}

fn get_task(tables: &Tables, job: &Id, task: &Id) -> Result<Reply, NoMemory>
    ensures { IfOk result (λ reply. reply ≡ get_task tables.now.state job.now task.now) }
{
    if tables.find_job(job).is_none() {
        return Ok(Reply::Refused(Refusal::JobNotFound));
    }
    match tables.find_task(job, task) {
        None => Ok(Reply::Refused(Refusal::TaskNotFound)),
        Some(task) => Ok(Reply::One(Item::Task(task_item(tables, task)?))),
    }
}

fn list_tasks(
    alloc: Global,
    tables: &Tables,
    job: &Id,
    listing: &Listing,
) -> Result<Reply, NoMemory>
    ensures { IfOk result (λ reply. reply ≡ list_tasks tables.now.state job.now listing.now) }
{
    if tables.find_job(job).is_none() {
        return Ok(Reply::Refused(Refusal::JobNotFound));
    }
    page_of(alloc, tables, tables.tasks(), job, listing)
}

fn counts_of(tables: &Tables, job: &Id) -> Reply
    ensures { result ≡ counts_of tables.now.state job.now }
{
    match tables.find_job(job) {
        None => Reply::Refused(Refusal::JobNotFound),
        Some(_) => Reply::One(Item::Counts(task_counts(tables, job))),
    }
}

/// What the read shows of the tables, which stay as they are: an item, a page of a list, or `PoolNotFound`, `JobNotFound` or
/// `TaskNotFound`, of a task its job first. A list shows the rows after the one with the id that the listing names, none if that one
/// is not there, at most as many as the listing says, and the id of the last one if more follow. It fails only when out of memory.
pub fn read_reply(alloc: Global, tables: &Tables, read: &Read) -> Result<Reply, NoMemory>
    ensures { IfOk result (λ reply. reply ≡ read_reply tables.now.state read.now) }
{
    match read {
        Read::GetPool(pool) => get_pool(tables, pool),
        Read::ListPools(listing) => list_pools(alloc, tables, listing),
        Read::ListNodes(pool, listing) => list_nodes(alloc, tables, pool, listing),
        Read::GetJob(job) => get_job(tables, job),
        Read::ListJobs(listing) => list_jobs(alloc, tables, listing),
        Read::GetTask(job, task) => get_task(tables, job, task),
        Read::ListTasks(job, listing) => list_tasks(alloc, tables, job, listing),
        Read::TaskCounts(job) => Ok(counts_of(tables, job)),
    }
}
