//! Reading of all that a file contains.
use crate::fault::WriteFault;
use crate::meta::{PLACE, is_set, name_of};
use crate::statements::Reads;
use batch_keeper::KeepError;
use bt_base::{NoMemory, Text};
use keeper_store::{Entry, Metas, Stored};
use row_texts::RowKind;
use sql_look::{Shown, answer_after};
use sqlite::types::ValueRef;
use sqlite::{Alter, Connection, Error, Row, Statement};
use std::alloc::Global;
use std::fmt;

/// Why the content of a file was not read.
#[derive(Debug, Drop)]
pub enum ReadFault {
    /// SQL did not read the file.
    Unread(WriteFault),
    /// A row of `batch_row` has a kind that is not 1 to 8, or a key or a body that is not text. Its key, if that is text.
    Row(Option<Text>),
    /// A row of `batch_meta` has a name that is not known, or a value that is not a number from 0. Its name, if that is text.
    Number(Option<Text>),
}

impl fmt::Display for ReadFault {
    /// One line: the cause, and the row.
    fn fmt<W: fmt::Write>(&self, f: &mut fmt::Formatter<W>) -> fmt::Result {
        match self {
            ReadFault::Unread(fault) => write!(f, "{fault}"),
            ReadFault::Row(Some(key)) => {
                let key = Shown(key.as_str());
                write!(
                    f,
                    "a row of batch_row has no kind from 1 to 8, or a body that is not text: key {key}"
                )
            }
            ReadFault::Row(None) => f.write_str("a row of batch_row has a key that is not text"),
            ReadFault::Number(Some(name)) => {
                let name = Shown(name.as_str());
                write!(
                    f,
                    "a row of batch_meta has a name that is not known, or no number from 0: name {name}"
                )
            }
            ReadFault::Number(None) => f.write_str(
                "a row of batch_meta has a name that is not text",
            ),
        }
    }
}

/// Why the content of a file was not read, or that memory ran out.
#[derive(Debug, Drop)]
pub enum ReadError {
    /// The file does not have the content of a store.
    Fault(ReadFault),
    /// Memory ran out.
    Memory,
}

impl From<Error> for ReadError {
    fn from(error: Error) -> ReadError {
        match answer_after(error) {
            KeepError::Failed => ReadError::Fault(ReadFault::Unread(WriteFault::of_sql(error))),
            KeepError::Memory => ReadError::Memory,
        }
    }
}

impl From<NoMemory> for ReadError {
    fn from(_: NoMemory) -> ReadError {
        ReadError::Memory
    }
}

/// The text in the column; None if it has none, or text that is not UTF-8.
fn text_at(row: &Row, column: usize) -> Result<Option<Text>, NoMemory> {
    match row.get::<String>(column) {
        Ok(text) => Ok(Some(Text::of_string(text)?)),
        Err(error) => match answer_after(error) {
            KeepError::Failed => Ok(None),
            KeepError::Memory => Err(NoMemory),
        },
    }
}

/// The kind of the row; None if it is not a number from 1 to 8.
fn kind_of(row: &Row) -> Option<RowKind> {
    let number = row.get::<u64>(0).ok()?;
    let number = u8::try_from(number).ok()?;
    RowKind::of_number(number)
}

/// Adds the entry at the end of its kind.
fn push_entry(stored: &mut Stored, kind: RowKind, entry: Entry) -> Result<(), NoMemory> {
    match kind {
        RowKind::Pool => stored.pools.push(entry),
        RowKind::Node => stored.nodes.push(entry),
        RowKind::Job => stored.jobs.push(entry),
        RowKind::Task => stored.tasks.push(entry),
        RowKind::Run => stored.runs.push(entry),
        RowKind::Prep => stored.preps.push(entry),
        RowKind::Sample => stored.samples.push(entry),
        RowKind::Scale => stored.scales.push(entry),
    }
}

/// Adds the row.
fn push_row(stored: &mut Stored, row: &Row) -> Result<(), ReadError> {
    let Some(key) = text_at(row, 1)? else {
        return Err(ReadError::Fault(ReadFault::Row(None)));
    };
    match (kind_of(row), text_at(row, 2)?) {
        (Some(kind), Some(text)) => {
            push_entry(stored, kind, Entry { key, text })?;
            Ok(())
        }
        _ => Err(ReadError::Fault(ReadFault::Row(Some(key)))),
    }
}

/// Adds the rows of the file.
fn read_rows<S: Alter>(
    connection: &mut Connection<S>,
    statement: &Statement,
    stored: &mut Stored,
) -> Result<(), ReadError> {
    for row in statement.query_all(connection, &[])? {
        push_row(stored, &row)?;
    }
    Ok(())
}

/// Whether the row has the number of the next place, which is no content.
fn is_place(row: &Row) -> bool {
    match row.get_ref(0) {
        Ok(ValueRef::Text(name)) => name == PLACE.as_bytes(),
        _ => false,
    }
}

/// The place of the next new row: one above the greatest place of a row; 0 if there are no rows, or only rows below 0.
pub fn next_place<S: Alter>(
    connection: &mut Connection<S>,
    statement: &Statement,
) -> Result<u64, Error> {
    let row = statement.query_row(connection, &[])?;
    match row.get::<u64>(0) {
        Ok(last) => Ok(last.saturating_add(1)),
        Err(_) => Ok(0),
    }
}

/// The numbers with the one of this row. A name that is not known or comes twice, and a value that is no number or negative, are
/// faults.
fn with_row(metas: Metas, row: &Row) -> Result<Metas, ReadError> {
    let Some(text) = text_at(row, 0)? else {
        return Err(ReadError::Fault(ReadFault::Number(None)));
    };
    match (name_of(text.as_str()), row.get::<u64>(1)) {
        (Some(name), Ok(value)) if !is_set(metas, name) => Ok(metas.with(name, value)),
        _ => Err(ReadError::Fault(ReadFault::Number(Some(text)))),
    }
}

/// Reads the numbers beside the rows.
pub fn read_metas<S: Alter>(
    connection: &mut Connection<S>,
    statement: &Statement,
) -> Result<Metas, ReadError> {
    let mut metas = Metas {
        next_node: None,
        next_run: None,
        moment: None,
        version: None,
    };
    for row in statement.query_all(connection, &[])? {
        if !is_place(&row) {
            metas = with_row(metas, &row)?;
        }
    }
    Ok(metas)
}

/// Adds all that the file contains.
fn read_into<S: Alter>(
    connection: &mut Connection<S>,
    reads: &Reads,
    stored: &mut Stored,
) -> Result<(), ReadError> {
    read_rows(connection, &reads.rows, stored)?;
    stored.metas = read_metas(connection, &reads.metas)?;
    Ok(())
}

/// Reads all that the file contains.
pub fn read_all<S: Alter>(
    alloc: Global,
    connection: &mut Connection<S>,
    reads: &Reads,
) -> Result<Stored, ReadError> {
    let mut stored = Stored::empty(alloc);
    match read_into(connection, reads, &mut stored) {
        Ok(()) => Ok(stored),
        Err(error) => {
            drop(stored);
            Err(error)
        }
    }
}
