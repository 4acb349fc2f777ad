//! Why the content of a store is not that of well-formed tables.
use crate::stored_row::{StoredRow, row_in};
use crate::tables::{fill, version_of};
use bt_base::{Duplicate, NoMemory, Text};
use bt_rows::job::JobRow;
use bt_rows::node::NodeRow;
use bt_rows::pool::PoolRow;
use bt_rows::prep::PrepRow;
use bt_rows::run::RunRow;
use bt_rows::sample::SampleRow;
use bt_rows::scale::ScaleRow;
use bt_rows::tables::Tables;
use bt_rows::task::TaskRow;
use keeper_store::{Entry, Stored};
use row_texts::RowKind;
use std::alloc::Global;
use std::fmt;
use tables_check::{TablesFault, first_fault};

/// The greatest count of characters of a key that is shown.
const MAX_SHOWN: usize = 200;

/// Why the content of a store is not that of well-formed tables.
#[derive(Debug, Drop)]
pub enum LoadFault {
    /// The rows are of a form of this version, which is not known.
    Version(u64),
    /// The text under this key is not a row of this kind, or the key is not the row's.
    Row(RowKind, Text),
    /// Two rows of a kind have the same key.
    Twice,
    /// The rows are tables that are not well formed.
    Rule(TablesFault),
}

/// The word of a kind of rows.
fn word_of(kind: RowKind) -> &'static str {
    match kind {
        RowKind::Pool => "pool",
        RowKind::Node => "node",
        RowKind::Job => "job",
        RowKind::Task => "task",
        RowKind::Run => "run",
        RowKind::Prep => "preparation",
        RowKind::Sample => "sample",
        RowKind::Scale => "scaling",
    }
}

/// A key on one line, with `?` for each control character.
#[derive(Clone, Copy)]
struct Shown<'a>(&'a Text);

impl fmt::Display for Shown<'_> {
    fn fmt<W: fmt::Write>(&self, f: &mut fmt::Formatter<W>) -> fmt::Result {
        for character in self.0.as_str().chars().take(MAX_SHOWN) {
            let shown = if character.is_control() {
                '?'
            } else {
                character
            };
            f.write_char(shown)?;
        }
        Ok(())
    }
}

impl fmt::Display for LoadFault {
    /// One line: the rule, and the kind and the key of the row.
    fn fmt<W: fmt::Write>(&self, f: &mut fmt::Formatter<W>) -> fmt::Result {
        match self {
            LoadFault::Version(version) => write!(
                f,
                "the rows have the version {version}, which this program does not know"
            ),
            LoadFault::Row(kind, key) => {
                let (kind, key) = (word_of(*kind), Shown(key));
                write!(f, "a text is not a row, or has another key: {kind} {key}")
            }
            LoadFault::Twice => f.write_str("two rows of a kind have the same key"),
            LoadFault::Rule(fault) => write!(f, "{fault}"),
        }
    }
}

/// The first of these entries that is not a row of the type.
fn first_unread<T: StoredRow>(
    alloc: Global,
    kind: RowKind,
    entries: &[Entry],
) -> Result<Option<LoadFault>, NoMemory> {
    for entry in entries {
        match row_in::<T>(alloc, entry)? {
            Some(row) => drop(row),
            None => return Ok(Some(LoadFault::Row(kind, entry.key.copy()?))),
        }
    }
    Ok(None)
}

/// The first entry of the pools, nodes, jobs and tasks that is not a row.
fn first_unread_before(alloc: Global, stored: &Stored) -> Result<Option<LoadFault>, NoMemory> {
    if let Some(fault) = first_unread::<PoolRow>(alloc, RowKind::Pool, stored.pools.as_slice())? {
        return Ok(Some(fault));
    }
    if let Some(fault) = first_unread::<NodeRow>(alloc, RowKind::Node, stored.nodes.as_slice())? {
        return Ok(Some(fault));
    }
    if let Some(fault) = first_unread::<JobRow>(alloc, RowKind::Job, stored.jobs.as_slice())? {
        return Ok(Some(fault));
    }
    first_unread::<TaskRow>(alloc, RowKind::Task, stored.tasks.as_slice())
}

/// The first entry of the runs, preparations, samples and scalings that is not a row.
fn first_unread_after(alloc: Global, stored: &Stored) -> Result<Option<LoadFault>, NoMemory> {
    if let Some(fault) = first_unread::<RunRow>(alloc, RowKind::Run, stored.runs.as_slice())? {
        return Ok(Some(fault));
    }
    if let Some(fault) = first_unread::<PrepRow>(alloc, RowKind::Prep, stored.preps.as_slice())? {
        return Ok(Some(fault));
    }
    let samples = stored.samples.as_slice();
    if let Some(fault) = first_unread::<SampleRow>(alloc, RowKind::Sample, samples)? {
        return Ok(Some(fault));
    }
    first_unread::<ScaleRow>(alloc, RowKind::Scale, stored.scales.as_slice())
}

/// Why rows that read are not well-formed tables.
fn fault_of_rows(alloc: Global, stored: &Stored) -> Result<LoadFault, NoMemory> {
    let mut tables = Tables::empty(alloc);
    let fault = match fill(alloc, stored, &mut tables) {
        Err(NoMemory) => Err(NoMemory),
        Ok(false) => Ok(LoadFault::Twice),
        Ok(true) => first_fault(alloc, &tables).map(|fault| LoadFault::Rule(fault)),
    };
    drop(tables);
    fault
}

/// Why the content, which is not that of well-formed tables, is not. It is for a message: what it names has no clause. The only error is
/// out of memory.
pub fn load_fault(alloc: Global, stored: &Stored) -> Result<LoadFault, NoMemory> {
    if let Some(version) = version_of(stored.metas) {
        return Ok(LoadFault::Version(version));
    }
    if let Some(fault) = first_unread_before(alloc, stored)? {
        return Ok(fault);
    }
    if let Some(fault) = first_unread_after(alloc, stored)? {
        return Ok(fault);
    }
    fault_of_rows(alloc, stored)
}
