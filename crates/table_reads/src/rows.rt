//! The rows that lists show.
ghost use Rattle.std.specs.Prelude.{true, refl};
ghost use Rattle.batch_model.specs.Nodes.{is_in_pool};
ghost use Rattle.batch_model.specs.Tasks.{is_in_job};
ghost use Rattle.wire_words.specs.Nodes.{node_id};
ghost use Rattle.table_reads.specs.Reads.{pool_shown, node_shown, job_shown, task_shown};

use crate::item::{job_item, node_item, pool_item, task_item};
use crate::page::Shown;
use bt_base::{Id, NoMemory};
use bt_rows::job::JobRow;
use bt_rows::node::NodeRow;
use bt_rows::pool::PoolRow;
use bt_rows::reply::Item;
use bt_rows::tables::Tables;
use bt_rows::task::TaskRow;
use std::alloc::Global;
use table_scans::is_in_pool;
use wire_words::node_id;

impl Shown for PoolRow {
    type Owner = ();

    ghost is_in = { λ service pool. true };

    ghost id_of = { λ pool. pool.id };

    ghost item_of = { pool_shown };

    fn is_in(&self, _service: &()) -> bool {
        true
    }

    fn has_id(&self, _alloc: Global, id: &Id) -> Result<bool, NoMemory> {
        Ok(self.id.same(id))
    }

    fn item(&self, tables: &Tables) -> Result<Item, NoMemory> {
        Ok(Item::Pool(pool_item(tables, self)?))
    }

    ghost shows_id = { λ s pool. refl };
}

impl Shown for NodeRow {
    type Owner = Id;

    ghost is_in = { is_in_pool };

    ghost id_of = { λ node. node_id node.number };

    ghost item_of = { node_shown };

    fn is_in(&self, pool: &Id) -> bool {
        is_in_pool(pool, self)
    }

    fn has_id(&self, alloc: Global, id: &Id) -> Result<bool, NoMemory> {
        Ok(node_id(alloc, self.number)?.same(id))
    }

    fn item(&self, tables: &Tables) -> Result<Item, NoMemory> {
        Ok(Item::Node(node_item(tables, self)))
    }

    ghost shows_id = { λ s node. refl };
}

impl Shown for JobRow {
    type Owner = ();

    ghost is_in = { λ service job. true };

    ghost id_of = { λ job. job.id };

    ghost item_of = { job_shown };

    fn is_in(&self, _service: &()) -> bool {
        true
    }

    fn has_id(&self, _alloc: Global, id: &Id) -> Result<bool, NoMemory> {
        Ok(self.id.same(id))
    }

    fn item(&self, _tables: &Tables) -> Result<Item, NoMemory> {
        Ok(Item::Job(job_item(self)?))
    }

    ghost shows_id = { λ s job. refl };
}

impl Shown for TaskRow {
    type Owner = Id;

    ghost is_in = { is_in_job };

    ghost id_of = { λ task. task.id };

    ghost item_of = { task_shown };

    fn is_in(&self, job: &Id) -> bool {
        self.job.same(job)
    }

    fn has_id(&self, _alloc: Global, id: &Id) -> Result<bool, NoMemory> {
        Ok(self.id.same(id))
    }

    fn item(&self, tables: &Tables) -> Result<Item, NoMemory> {
        Ok(Item::Task(task_item(tables, self)?))
    }

    ghost shows_id = { λ s task. refl };
}
