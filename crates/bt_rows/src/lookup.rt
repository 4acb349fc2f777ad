//! Rows found by their keys.
ghost use Rattle.std.specs.Prelude.{◌≡◌};
ghost use Rattle.std.specs.List.{find};
ghost use Rattle.std.specs.Option.{option_copied};
ghost use Rattle.bt_rows.specs.Keys.{pool_has_id, node_has_number, job_has_id, task_has_ids, run_has_number, prep_has_ids, sample_has_label, scale_has_pool};

use crate::job::JobRow;
use crate::node::NodeRow;
use crate::pool::PoolRow;
use crate::prep::PrepRow;
use crate::run::RunRow;
use crate::sample::{Metric, SampleRow, label_text};
use crate::scale::ScaleRow;
use crate::tables::Tables;
use crate::task::TaskRow;
use bt_base::Id;
use kept_table::KeyText;

// Each function answers the first row with the key, None if there is none, and does not allocate.
impl Tables {
    /// The pool with this id, but for case.
    pub fn find_pool(&self, id: &Id) -> Option<&PoolRow>
        ensures { option_copied result ≡ find (pool_has_id id.now) self.now.state.pools }
    {
        self.pools.find_shared(id)
    }

    /// The node with this number.
    pub fn find_node(&self, number: u64) -> Option<&NodeRow>
        ensures { option_copied result ≡ find (node_has_number number) self.now.state.nodes }
    {
        self.nodes.find_shared(&number)
    }

    /// The job with this id, but for case.
    pub fn find_job(&self, id: &Id) -> Option<&JobRow>
        ensures { option_copied result ≡ find (job_has_id id.now) self.now.state.jobs }
    {
        self.jobs.find_shared(id)
    }

    /// The task of the job with the first id that has the second id, but for case.
    #[tactic(auto, using(crate::proofs::FoundByText::task_by_ids))]
    pub fn find_task(&self, job: &Id, id: &Id) -> Option<&TaskRow>
        ensures { option_copied result ≡ find (task_has_ids job.now id.now) self.now.state.tasks }
    {
        self.tasks.find_shared_by_text(&KeyText::of_ids(job, id))
    }

    /// The run with this number.
    pub fn find_run(&self, number: u64) -> Option<&RunRow>
        ensures { option_copied result ≡ find (run_has_number number) self.now.state.runs }
    {
        self.runs.find_shared(&number)
    }

    /// The preparation of the job with this id, but for case, on the node with this number.
    #[tactic(auto, using(crate::proofs::FoundByText::prep_by_ids))]
    pub fn find_prep(&self, job: &Id, node: u64) -> Option<&PrepRow>
        ensures { option_copied result ≡ find (prep_has_ids job.now node) self.now.state.preps }
    {
        self.preps
            .find_shared_by_text(&KeyText::of_number_and_id(node, job))
    }

    /// The sample of this metric of the pool with this id, but for case, that has the label, in milliseconds since 1970.
    #[tactic(auto, using(crate::proofs::FoundByText::sample_by_label))]
    pub fn find_sample(&self, pool: &Id, metric: Metric, label: u64) -> Option<&SampleRow>
        ensures { option_copied result ≡ find (sample_has_label pool.now metric label) self.now.state.samples }
    {
        self.samples
            .find_shared_by_text(&label_text(pool, metric, label))
    }

    /// The scaling of the pool with this id, but for case.
    pub fn find_scale(&self, pool: &Id) -> Option<&ScaleRow>
        ensures { option_copied result ≡ find (scale_has_pool pool.now) self.now.state.scales }
    {
        self.scales.find_shared(pool)
    }
}
