//! The trait of rows that a store has under their keys.
ghost use Rattle.std.specs.Prelude.{◌≡◌, ℕ, Bool, true, List, Ok, IfOk};
ghost use Rattle.bt_rows.specs.declared.tables.Change.{Change as RowChange};
ghost use Rattle.row_texts.specs.Texts.{row_in_text};
ghost use Rattle.store_keeper.specs.Reading.{if_key, row_in};

use bt_base::{Fail, NoMemory, Shared, Text};
use bt_rows::tables::Change;
use keeper_store::Entry;
use row_texts::{TableRow, read_row, write_row};
use std::alloc::Global;

/// A row that a store has under its key.
pub trait StoredRow: TableRow {
    /// The key of a row.
    ghost key_of: { Self → List ℕ };

    /// The parts of the key are such as those of the row's type.
    ghost keyed: { Self → Bool };

    /// The change that puts a row.
    ghost put: { Self → RowChange };

    /// The key of the row. It fails only when out of memory.
    fn key(&self, alloc: Global) -> Result<Text, NoMemory>
        ensures { IfOk result (λ text. text ≡ key_of self.now) };

    /// Tells callers that the parts of the key are such as those of the row's type. It does nothing at run time.
    fn known(&self)
        ensures { keyed self.now ≡ true };

    /// The change that puts the row. It fails only when out of memory.
    fn into_put(self, alloc: Global) -> Result<Change, NoMemory>
        ensures { IfOk result (λ change. change ≡ put self) };
}

/// The entry of a row: its text under its key, from which the row reads back.
pub fn entry_of<T: StoredRow>(alloc: Global, row: &Shared<T>) -> Result<Entry, NoMemory>
    ensures key { IfOk result (λ entry. entry.key ≡ T.key_of row.now) }
    ensures known { T.keyed row.now ≡ true }
    ensures text { IfOk result (λ entry. row_in_text T.in_data entry.text ≡ Ok row.now) }
{
    let row = row.get();
    row.known();
    let key = row.key(alloc)?;
    let text = write_row(alloc, row)?;
    Ok(Entry { key, text })
}

/// The row, if it has the key.
fn with_key<T: StoredRow>(alloc: Global, row: T, key: &str) -> Result<Option<T>, NoMemory>
    ensures { IfOk result (λ found. found ≡ if_key T.key_of T.keyed key.now row) }
{
    row.known();
    let own = row.key(alloc)?;
    if key == own.as_str() {
        Ok(Some(row))
    } else {
        Ok(None)
    }
}

/// The row that the entry is. None if its text is not a row of this type, or its key is not the row's.
pub fn row_in<T: StoredRow>(alloc: Global, entry: &Entry) -> Result<Option<T>, NoMemory>
    ensures { IfOk result (λ row. row ≡ row_in T.key_of T.keyed T.in_data entry.now) }
{
    match read_row::<T>(alloc, entry.text.as_str()) {
        Ok(row) => with_key(alloc, row, entry.key.as_str()),
        Err(Fail::Why(_)) => Ok(None),
        Err(Fail::Memory) => Err(NoMemory),
    }
}
