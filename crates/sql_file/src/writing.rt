//! Edits of a file.
use crate::fault::{WriteError, WriteFault};
use crate::meta::{PLACE, text_of};
use crate::statements::Writes;
use bt_base::{Duplicate, Text};
use keeper_store::{Edit, Entry, MetaName, Metas};
use row_texts::RowKind;
use sqlite::{Alter, Connection, Row, Statement, Transaction, params};
use std::alloc::Global;

/// The number as a value of SQL, which has none above 2^63 - 1.
fn value_of(number: u64) -> Result<i64, WriteError> {
    match i64::try_from(number) {
        Ok(value) => Ok(value),
        Err(_) => Err(WriteError::Fault(WriteFault::TooLarge)),
    }
}

/// The greatest size of a key and a body together, in bytes. SQL has no greater rows.
const MAX_ROW: usize = 900_000_000;

/// Copies of the edits of a write.
#[derive(Drop)]
pub struct CopiedEdits {
    /// The copies, in order.
    pub edits: Vec<Edit>,
    /// How many rows they put.
    pub puts: u64,
}

/// A copy of the edit. It fails if no file can have its row or its number.
fn copy_edit(edit: &Edit) -> Result<Edit, WriteError> {
    match edit {
        Edit::Put(kind, entry) => {
            let size = entry
                .key
                .as_str()
                .len()
                .saturating_add(entry.text.as_str().len());
            if size > MAX_ROW {
                return Err(WriteError::Fault(WriteFault::TooLarge));
            }
            Ok(Edit::Put(*kind, entry.copy()?))
        }
        Edit::Drop(kind, key) => Ok(Edit::Drop(*kind, key.copy()?)),
        Edit::Meta(name, number) => {
            value_of(*number)?;
            Ok(Edit::Meta(*name, *number))
        }
    }
}

/// Copies of the edits. It fails if no file can have one of their rows or numbers.
pub fn copy_edits(alloc: Global, edits: &[Edit]) -> Result<CopiedEdits, WriteError> {
    let mut copies = match Vec::with_capacity(alloc, edits.len()) {
        Ok(copies) => copies,
        Err(_) => return Err(WriteError::Memory),
    };
    let mut puts = 0u64;
    for edit in edits {
        let copy = copy_edit(edit)?;
        if let Edit::Put(_, _) = &copy {
            puts = puts.saturating_add(1);
        }
        if copies.push(copy).is_err() {
            return Err(WriteError::Memory);
        }
    }
    Ok(CopiedEdits {
        edits: copies,
        puts,
    })
}

fn place_of(row: &Row) -> Result<i64, WriteError> {
    match row.get::<i64>(0) {
        Ok(place) => Ok(place),
        Err(error) => Err(error.into()),
    }
}

/// Puts the entry, with this place if its key is new. Returns the place that it has.
fn put_row<S: Alter>(
    transaction: &mut Transaction<'_, S>,
    statement: &Statement,
    kind: RowKind,
    entry: &Entry,
    place: i64,
) -> Result<i64, WriteError> {
    let kind = i64::from(kind.number());
    let values = params![kind, entry.key.as_str(), place, entry.text.as_str()];
    match transaction.query_row_prepared(statement, values) {
        Ok(row) => place_of(&row),
        Err(error) => Err(error.into()),
    }
}

/// Puts the entry, with this place if its key is new. Returns the place of the next new row.
fn put_entry<S: Alter>(
    transaction: &mut Transaction<'_, S>,
    statement: &Statement,
    kind: RowKind,
    entry: &Entry,
    place: u64,
) -> Result<u64, WriteError> {
    let value = value_of(place)?;
    if put_row(transaction, statement, kind, entry, value)? == value {
        place
            .checked_add(1)
            .ok_or(WriteError::Fault(WriteFault::TooLarge))
    } else {
        Ok(place)
    }
}

fn drop_row<S: Alter>(
    transaction: &mut Transaction<'_, S>,
    statement: &Statement,
    kind: RowKind,
    key: &Text,
) -> Result<(), WriteError> {
    let kind = i64::from(kind.number());
    match transaction.execute_prepared(statement, params![kind, key.as_str()]) {
        Ok(_) => Ok(()),
        Err(error) => Err(error.into()),
    }
}

fn put_meta<S: Alter>(
    transaction: &mut Transaction<'_, S>,
    statement: &Statement,
    name: &str,
    number: u64,
) -> Result<(), WriteError> {
    let value = value_of(number)?;
    match transaction.execute_prepared(statement, params![name, value]) {
        Ok(_) => Ok(()),
        Err(error) => Err(error.into()),
    }
}

/// Makes the edit of a row, with this place for a new one. Returns the place of the next new row. A number is not set.
fn make_edit<S: Alter>(
    transaction: &mut Transaction<'_, S>,
    writes: &Writes,
    place: u64,
    edit: &Edit,
) -> Result<u64, WriteError> {
    match edit {
        Edit::Put(kind, entry) => put_entry(transaction, &writes.put_row, *kind, entry, place),
        Edit::Drop(kind, key) => {
            drop_row(transaction, &writes.drop_row, *kind, key)?;
            Ok(place)
        }
        Edit::Meta(_, _) => Ok(place),
    }
}

/// The last numbers that the edits set, each of which stands for all of its name.
fn metas_of(edits: &[Edit]) -> Metas {
    let mut metas = Metas {
        next_node: None,
        next_run: None,
        moment: None,
        version: None,
    };
    for edit in edits {
        if let Edit::Meta(name, number) = edit {
            metas = metas.with(*name, *number);
        }
    }
    metas
}

/// Sets these numbers.
fn put_metas<S: Alter>(
    transaction: &mut Transaction<'_, S>,
    statement: &Statement,
    metas: Metas,
) -> Result<(), WriteError> {
    let numbers = [
        (MetaName::NextNode, metas.next_node),
        (MetaName::NextRun, metas.next_run),
        (MetaName::Moment, metas.moment),
        (MetaName::Version, metas.version),
    ];
    for (name, number) in numbers {
        if let Some(number) = number {
            put_meta(transaction, statement, text_of(name), number)?;
        }
    }
    Ok(())
}

/// Makes the edits in order, with places from this one on for new rows; each number is set once. Returns the place of the next new row.
fn make_edits<S: Alter>(
    transaction: &mut Transaction<'_, S>,
    writes: &Writes,
    place: u64,
    edits: &[Edit],
) -> Result<u64, WriteError> {
    let mut next = place;
    for edit in edits {
        next = make_edit(transaction, writes, next, edit)?;
    }
    if next != place {
        put_meta(transaction, &writes.put_meta, PLACE, next)?;
    }
    put_metas(transaction, &writes.put_meta, metas_of(edits))?;
    Ok(next)
}

fn commit<S: Alter>(transaction: Transaction<'_, S>) -> Result<(), WriteError> {
    match transaction.commit() {
        Ok(()) => Ok(()),
        Err(error) => Err(error.into()),
    }
}

/// Makes the edits in one transaction, which an error rolls back, with places from this one on for new rows. Returns the place of the next
/// new row.
pub fn write_all<S: Alter>(
    connection: &mut Connection<S>,
    writes: &Writes,
    place: u64,
    edits: &[Edit],
) -> Result<u64, WriteError> {
    if !connection.is_autocommit() {
        return Err(WriteError::Fault(WriteFault::Refused));
    }
    let mut transaction = connection.transaction();
    let next = make_edits(&mut transaction, writes, place, edits)?;
    commit(transaction)?;
    Ok(next)
}
