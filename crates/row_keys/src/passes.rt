//! The passes.
ghost use Rattle.std.specs.Prelude.{◌≡◌, ◌+◌, ◌||◌, ℕ, List as Items, Some, is_some, is_none, count_by, IfOk, OnOk, if◌then◌else◌};
ghost use Rattle.std.specs.Str.{bytes_eq};
ghost use Rattle.row_keys.specs.Numbers.{number_at, count_at, has_number};
ghost use Rattle.row_keys.specs.Passes.{has_key, share_key, is_new, are_distinct};

use crate::key_numbers::KeyNumbers;
use crate::row_key::{OwnKey, RowKey};
use bt_base::{List, NoMemory};
use kept_table::{Keyed, Rows};
use std::alloc::Global;

/// Counts a key once more. If a count does not fit, that is answered as out of memory.
fn add_one(counts: &mut KeyNumbers, key: List<u8>) -> Result<(), NoMemory>
    ensures { OnOk result ((text : Items ℕ) → count_at counts.new text ≡ count_at counts.old text + (if bytes_eq key text then 1 else 0)) }
{
    let Some(count) = counts.count(key.as_slice()).checked_add(1) else {
        return Err(NoMemory);
    };
    counts.put(key, count)
}

/// Counts the row's key, if it has one.
fn count_key<K: RowKey>(
    alloc: Global,
    counts: &mut KeyNumbers,
    row: &K::Row,
) -> Result<(), NoMemory>
    ensures { OnOk result ((text : Items ℕ) → count_at counts.new text ≡ count_at counts.old text + (if has_key K.key text row.now then 1 else 0)) }
{
    match K::key(alloc, row)? {
        None => Ok(()),
        Some(key) => add_one(counts, key),
    }
}

/// How many of the rows have each key. The only error is out of memory.
pub fn count_keys<K: RowKey>(alloc: Global, rows: Rows<'_, K::Row>) -> Result<KeyNumbers, NoMemory>
    ensures { IfOk result (λ counts. (text : Items ℕ) → count_at counts text ≡ count_by (has_key K.key text) rows.entry) }
{
    let mut counts = KeyNumbers::new(alloc);
    for row in rows {
        count_key::<K>(alloc, &mut counts, row)?;
    }
    Ok(counts)
}

/// Adds a key to those that were seen, and answers whether it was not among them.
fn see(seen: &mut KeyNumbers, key: List<u8>) -> Result<bool, NoMemory>
    ensures new { IfOk result (λ new. new ≡ is_none (number_at seen.old key)) }
    ensures seen { OnOk result ((text : Items ℕ) → has_number seen.new text ≡ (has_number seen.old text || bytes_eq key text)) }
{
    let new = seen.number(key.as_slice()).is_none();
    seen.put(key, 0)?;
    Ok(new)
}

/// Adds the row's key to those that were seen, if it has one, and answers whether it was not among them.
fn see_key<K: RowKey>(alloc: Global, seen: &mut KeyNumbers, row: &K::Row) -> Result<bool, NoMemory>
    ensures new { IfOk result (λ new. new ≡ is_new K.key (has_number seen.old) row.now) }
    ensures seen { OnOk result ((text : Items ℕ) → has_number seen.new text ≡ (has_number seen.old text || has_key K.key text row.now)) }
{
    match K::key(alloc, row)? {
        None => Ok(true),
        Some(key) => see(seen, key),
    }
}

/// Whether no two of the rows have the same key. The only error is out of memory.
pub fn are_distinct<K: RowKey>(alloc: Global, rows: Rows<'_, K::Row>) -> Result<bool, NoMemory>
    ensures { IfOk result (λ distinct. distinct ≡ are_distinct (share_key K.key) rows.entry) }
{
    let mut seen = KeyNumbers::new(alloc);
    let mut distinct = true;
    for row in rows {
        let new = see_key::<K>(alloc, &mut seen, row)?;
        distinct &= new;
    }
    Ok(distinct)
}

/// Whether no two of the rows have the same key by which a table finds them. The only error is out of memory.
pub fn are_own_keys_distinct<R: Keyed>(alloc: Global, rows: Rows<'_, R>) -> Result<bool, NoMemory>
    ensures { IfOk result (λ distinct. distinct ≡ are_distinct R.same_key rows.entry) }
{
    let distinct = are_distinct::<OwnKey<R>>(alloc, rows)?;
    Ok(distinct)
}
