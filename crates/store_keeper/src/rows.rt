//! The rows of all tables under their keys.
ghost use Rattle.bt_rows.specs.declared.tables.Change.TheVariants.{PutPool, PutNode, PutJob, PutTask, PutRun, PutPrep, PutSample, PutScale};
ghost use Rattle.store_keeper.specs.Keys.{pool_key, node_key, job_key, task_key, run_key, prep_key, sample_key, scale_key};
ghost use Rattle.store_keeper.specs.Keys.{pool_keyed, node_keyed, job_keyed, task_keyed, run_keyed, prep_keyed, sample_keyed, scale_keyed};

use crate::keys::{id_key, id_number_key, ids_key, label_key, number_key};
use crate::stored_row::StoredRow;
use bt_base::{NoMemory, Text};
use bt_rows::job::JobRow;
use bt_rows::node::NodeRow;
use bt_rows::pool::PoolRow;
use bt_rows::prep::PrepRow;
use bt_rows::run::RunRow;
use bt_rows::sample::SampleRow;
use bt_rows::scale::ScaleRow;
use bt_rows::tables::Change;
use bt_rows::task::TaskRow;
use std::alloc::Global;

impl StoredRow for PoolRow {
    ghost key_of = { pool_key };

    ghost keyed = { pool_keyed };

    ghost put = { λ row. PutPool row };

    fn key(&self, alloc: Global) -> Result<Text, NoMemory> {
        id_key(alloc, &self.id)
    }

    fn known(&self) {}

    fn into_put(self, alloc: Global) -> Result<Change, NoMemory> {
        Change::put_pool(alloc, self)
    }
}

impl StoredRow for NodeRow {
    ghost key_of = { node_key };

    ghost keyed = { node_keyed };

    ghost put = { λ row. PutNode row };

    fn key(&self, alloc: Global) -> Result<Text, NoMemory> {
        number_key(alloc, self.number)
    }

    fn known(&self) {
        let _number = self.number;
    }

    fn into_put(self, alloc: Global) -> Result<Change, NoMemory> {
        Change::put_node(alloc, self)
    }
}

impl StoredRow for JobRow {
    ghost key_of = { job_key };

    ghost keyed = { job_keyed };

    ghost put = { λ row. PutJob row };

    fn key(&self, alloc: Global) -> Result<Text, NoMemory> {
        id_key(alloc, &self.id)
    }

    fn known(&self) {}

    fn into_put(self, alloc: Global) -> Result<Change, NoMemory> {
        Change::put_job(alloc, self)
    }
}

impl StoredRow for TaskRow {
    ghost key_of = { task_key };

    ghost keyed = { task_keyed };

    ghost put = { λ row. PutTask row };

    fn key(&self, alloc: Global) -> Result<Text, NoMemory> {
        ids_key(alloc, &self.job, &self.id)
    }

    fn known(&self) {
        self.job.known();
    }

    fn into_put(self, alloc: Global) -> Result<Change, NoMemory> {
        Change::put_task(alloc, self)
    }
}

impl StoredRow for RunRow {
    ghost key_of = { run_key };

    ghost keyed = { run_keyed };

    ghost put = { λ row. PutRun row };

    fn key(&self, alloc: Global) -> Result<Text, NoMemory> {
        number_key(alloc, self.number)
    }

    fn known(&self) {
        let _number = self.number;
    }

    fn into_put(self, alloc: Global) -> Result<Change, NoMemory> {
        Change::put_run(alloc, self)
    }
}

impl StoredRow for PrepRow {
    ghost key_of = { prep_key };

    ghost keyed = { prep_keyed };

    ghost put = { λ row. PutPrep row };

    fn key(&self, alloc: Global) -> Result<Text, NoMemory> {
        id_number_key(alloc, &self.job, self.node)
    }

    fn known(&self) {
        self.job.known();
        let _node = self.node;
    }

    fn into_put(self, alloc: Global) -> Result<Change, NoMemory> {
        Change::put_prep(alloc, self)
    }
}

impl StoredRow for SampleRow {
    ghost key_of = { sample_key };

    ghost keyed = { sample_keyed };

    ghost put = { λ row. PutSample row };

    fn key(&self, alloc: Global) -> Result<Text, NoMemory> {
        label_key(alloc, &self.pool, self.metric, self.label)
    }

    fn known(&self) {
        self.pool.known();
        let _label = self.label;
    }

    fn into_put(self, alloc: Global) -> Result<Change, NoMemory> {
        Change::put_sample(alloc, self)
    }
}

impl StoredRow for ScaleRow {
    ghost key_of = { scale_key };

    ghost keyed = { scale_keyed };

    ghost put = { λ row. PutScale row };

    fn key(&self, alloc: Global) -> Result<Text, NoMemory> {
        id_key(alloc, &self.pool)
    }

    fn known(&self) {}

    fn into_put(self, alloc: Global) -> Result<Change, NoMemory> {
        Change::put_scale(alloc, self)
    }
}
