//! Keys of rows.
ghost use Rattle.std.specs.Prelude.{◌≡◌, ℕ, List as Items, Option, Some, IfOk};

use bt_base::{List, NoMemory};
use kept_table::{KeyText, Keyed};
use std::alloc::Global;
use std::marker::PhantomData;

/// A key that some rows of a kind have, as a type without values. Keys are the same if their texts are.
pub trait RowKey {
    /// The rows.
    type Row;

    ghost key: { Self.Row → Option (Items ℕ) };

    /// The text of the row's key, or None if the row has none. The only error is out of memory.
    fn key(alloc: Global, row: &Self::Row) -> Result<Option<List<u8>>, NoMemory>
        ensures { IfOk result (λ text. text ≡ key row.now) };
}

/// The key with this text. The only error is out of memory.
pub fn key_of_text(alloc: Global, text: &KeyText) -> Result<List<u8>, NoMemory>
    ensures { IfOk result (λ key. key ≡ text.now) }
{
    Ok(List::of_vec(Vec::from_slice(alloc, text.as_slice())?))
}

/// The key by which a table finds its rows.
pub struct OwnKey<R> {
    rows: PhantomData<R>,
}

impl<R: Keyed> RowKey for OwnKey<R> {
    type Row = R;

    ghost key = { λ row. Some (R.row_text row) };

    fn key(alloc: Global, row: &R) -> Result<Option<List<u8>>, NoMemory> {
        Ok(Some(key_of_text(alloc, &row.row_text())?))
    }
}
