//! Rows of all tables, and their texts.
ghost use Rattle.std.specs.Prelude.{◌≡◌, Ok, IfOk};
ghost use Rattle.serde_json.specs.Written.{compact_text};
ghost use Rattle.bt_base.specs.Fails.{Gives};
ghost use Rattle.row_texts.specs.Rows.{kind_number, kind_of, kind_of_number, row_data, row_of, row_of_kind};

use crate::text::{read_row, write_row};
use bt_base::{Fail, NoMemory, Text};
use bt_rows::job::JobRow;
use bt_rows::node::NodeRow;
use bt_rows::pool::PoolRow;
use bt_rows::prep::PrepRow;
use bt_rows::run::RunRow;
use bt_rows::sample::SampleRow;
use bt_rows::scale::ScaleRow;
use bt_rows::task::TaskRow;
use row_fields::{RowFault, not_a_row};
use std::alloc::Global;

/// The kind of a row: the table that it belongs to. Kinds are numbered from 1 to 8 (this project's own).
#[derive(Clone, Copy, Debug, PartialEq, Eq)]
pub enum RowKind {
    /// A pool, 1.
    Pool,
    /// A node, 2.
    Node,
    /// A job, 3.
    Job,
    /// A task, 4.
    Task,
    /// A run, 5.
    Run,
    /// The preparation of a job on a node, 6.
    Prep,
    /// A sample of a metric, 7.
    Sample,
    /// The scaling of a pool, 8.
    Scale,
}

impl RowKind {
    /// The number of the kind, 1 to 8.
    pub fn number(self) -> u8
        ensures { result ≡ kind_number self }
    {
        match self {
            RowKind::Pool => 1,
            RowKind::Node => 2,
            RowKind::Job => 3,
            RowKind::Task => 4,
            RowKind::Run => 5,
            RowKind::Prep => 6,
            RowKind::Sample => 7,
            RowKind::Scale => 8,
        }
    }

    /// The kind of this number; None if the number is not from 1 to 8.
    pub fn of_number(number: u8) -> Option<RowKind>
        ensures { result ≡ kind_of_number number }
    {
        match number {
            1 => Some(RowKind::Pool),
            2 => Some(RowKind::Node),
            3 => Some(RowKind::Job),
            4 => Some(RowKind::Task),
            5 => Some(RowKind::Run),
            6 => Some(RowKind::Prep),
            7 => Some(RowKind::Sample),
            8 => Some(RowKind::Scale),
            _ => None,
        }
    }
}

/// A row of any table.
#[derive(Drop)]
pub enum Row {
    /// A pool.
    Pool(PoolRow),
    /// A node.
    Node(NodeRow),
    /// A job.
    Job(JobRow),
    /// A task.
    Task(TaskRow),
    /// A run.
    Run(RunRow),
    /// The preparation of a job on a node.
    Prep(PrepRow),
    /// A sample of a metric.
    Sample(SampleRow),
    /// The scaling of a pool.
    Scale(ScaleRow),
}

impl Row {
    /// The kind of the row.
    pub fn kind(&self) -> RowKind
        ensures { result ≡ kind_of self.now }
    {
        match self {
            Row::Pool(_) => RowKind::Pool,
            Row::Node(_) => RowKind::Node,
            Row::Job(_) => RowKind::Job,
            Row::Task(_) => RowKind::Task,
            Row::Run(_) => RowKind::Run,
            Row::Prep(_) => RowKind::Prep,
            Row::Sample(_) => RowKind::Sample,
            Row::Scale(_) => RowKind::Scale,
        }
    }
}

/// The text of a row: compact JSON, from which the row reads back under the number of its kind. It fails only when out of memory.
pub fn row_text(alloc: Global, row: &Row) -> Result<Text, NoMemory>
    ensures written { IfOk result (λ text. text ≡ compact_text (row_data row.now)) }
    ensures back { IfOk result (λ text. row_of (kind_number (kind_of row.now)) text ≡ Ok row.now) }
{
    match row {
        Row::Pool(row) => write_row(alloc, row),
        Row::Node(row) => write_row(alloc, row),
        Row::Job(row) => write_row(alloc, row),
        Row::Task(row) => write_row(alloc, row),
        Row::Run(row) => write_row(alloc, row),
        Row::Prep(row) => write_row(alloc, row),
        Row::Sample(row) => write_row(alloc, row),
        Row::Scale(row) => write_row(alloc, row),
    }
}

/// The row of the kind of this number that the text is. Returns `NotARow` exactly if there is no such kind or the text is no row
/// of it, and `Memory` only when out of memory.
///
/// Values are in the ranges of their types; the narrower ranges of a table, as the slots of a node, are not looked at. The text
/// need not be compact, but a number has neither a point nor an exponent.
pub fn row_of(alloc: Global, kind: u8, text: &str) -> Result<Row, Fail<RowFault>>
    ensures { Gives result (row_of kind text.now) }
{
    match RowKind::of_number(kind) {
        Some(kind) => row_of_kind(alloc, kind, text),
        None => Err(not_a_row()),
    }
}

fn row_of_kind(alloc: Global, kind: RowKind, text: &str) -> Result<Row, Fail<RowFault>>
    ensures { Gives result (row_of_kind kind text.now) }
{
    Ok(match kind {
        RowKind::Pool => Row::Pool(read_row(alloc, text)?),
        RowKind::Node => Row::Node(read_row(alloc, text)?),
        RowKind::Job => Row::Job(read_row(alloc, text)?),
        RowKind::Task => Row::Task(read_row(alloc, text)?),
        RowKind::Run => Row::Run(read_row(alloc, text)?),
        RowKind::Prep => Row::Prep(read_row(alloc, text)?),
        RowKind::Sample => Row::Sample(read_row(alloc, text)?),
        RowKind::Scale => Row::Scale(read_row(alloc, text)?),
    })
}
