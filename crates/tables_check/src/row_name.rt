//! Rows by their kinds and keys.
use bt_base::{Duplicate, Id, Metric, NoMemory};
use bt_rows::job::JobRow;
use bt_rows::node::NodeRow;
use bt_rows::pool::PoolRow;
use bt_rows::prep::PrepRow;
use bt_rows::run::RunRow;
use bt_rows::sample::SampleRow;
use bt_rows::scale::ScaleRow;
use bt_rows::task::TaskRow;
use std::fmt;
use variant_names::Named;

/// A row of any kind.
#[derive(Clone, Copy)]
pub enum RowRef<'a> {
    Pool(&'a PoolRow),
    Node(&'a NodeRow),
    Job(&'a JobRow),
    Task(&'a TaskRow),
    Run(&'a RunRow),
    Prep(&'a PrepRow),
    Sample(&'a SampleRow),
    Scale(&'a ScaleRow),
}

/// The kind and the key of a row.
#[derive(Debug, Drop)]
pub enum RowName {
    /// The pool with this id.
    Pool(Id),
    /// The node with this number.
    Node(u64),
    /// The job with this id.
    Job(Id),
    /// The task of this job with this id.
    Task(Id, Id),
    /// The run with this number.
    Run(u64),
    /// The preparation of this job on the node with this number.
    Prep(Id, u64),
    /// The sample of this pool's metric with this label, in milliseconds since 1970.
    Sample(Id, Metric, u64),
    /// The scaling of the pool with this id.
    Scale(Id),
}

impl RowRef<'_> {
    /// The kind and the key of the row. The only error is out of memory.
    pub fn name(self) -> Result<RowName, NoMemory> {
        Ok(match self {
            RowRef::Pool(pool) => RowName::Pool(pool.id.copy()?),
            RowRef::Node(node) => RowName::Node(node.number),
            RowRef::Job(job) => RowName::Job(job.id.copy()?),
            RowRef::Task(task) => RowName::Task(task.job.copy()?, task.id.copy()?),
            RowRef::Run(run) => RowName::Run(run.number),
            RowRef::Prep(prep) => RowName::Prep(prep.job.copy()?, prep.node),
            RowRef::Sample(sample) => RowName::Sample(
                sample.pool.copy()?,
                sample.metric,
                sample.label,
            ),
            RowRef::Scale(scale) => RowName::Scale(scale.pool.copy()?),
        })
    }
}

/// An id as keys have it: in lower case.
#[derive(Clone, Copy)]
struct Lowered<'a>(&'a Id);

impl fmt::Display for Lowered<'_> {
    fn fmt<W: fmt::Write>(&self, f: &mut fmt::Formatter<W>) -> fmt::Result {
        for character in self.0.as_str().chars() {
            f.write_char(character.to_ascii_lowercase())?;
        }
        Ok(())
    }
}

impl fmt::Display for RowName {
    /// The kind, and the key as a store has it: its parts joined by `/`, ids in lower case.
    fn fmt<W: fmt::Write>(&self, f: &mut fmt::Formatter<W>) -> fmt::Result {
        match self {
            RowName::Pool(id) => {
                let id = Lowered(id);
                write!(f, "pool {id}")
            }
            RowName::Node(number) => write!(f, "node {number}"),
            RowName::Job(id) => {
                let id = Lowered(id);
                write!(f, "job {id}")
            }
            RowName::Task(job, id) => {
                let (job, id) = (Lowered(job), Lowered(id));
                write!(f, "task {job}/{id}")
            }
            RowName::Run(number) => write!(f, "run {number}"),
            RowName::Prep(job, node) => {
                let job = Lowered(job);
                write!(f, "preparation {job}/{node}")
            }
            RowName::Sample(pool, metric, label) => {
                let pool = Lowered(pool);
                let metric = metric.name();
                write!(f, "sample {pool}/{metric}/{label}")
            }
            RowName::Scale(pool) => {
                let pool = Lowered(pool);
                write!(f, "scaling {pool}")
            }
        }
    }
}
