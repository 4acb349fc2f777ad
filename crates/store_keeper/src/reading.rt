//! Rows of a store, read into tables.
ghost use Rattle.std.specs.Prelude.{◌≡◌, ◌&&◌, is_some, map, IfOk, OnOk};
ghost use Rattle.std.specs.Option.{option_map};
ghost use Rattle.bt_rows.specs.Changes.{apply_changes};
ghost use Rattle.store_keeper.specs.Reading.{row_in, rows_in};
ghost use Rattle.store_keeper.specs.Filling.{with_put, with_rows, first_filled, filled, first_are_rows, are_rows};

use crate::stored_row::{StoredRow, row_in};
use bt_base::{List, NoMemory};
use bt_rows::job::JobRow;
use bt_rows::node::NodeRow;
use bt_rows::pool::PoolRow;
use bt_rows::prep::PrepRow;
use bt_rows::run::RunRow;
use bt_rows::sample::SampleRow;
use bt_rows::scale::ScaleRow;
use bt_rows::tables::{Change, Tables};
use bt_rows::task::TaskRow;
use keeper_store::{Entry, Stored};
use std::alloc::Global;

/// Adds the put of the row that the entry is; whether it is one.
fn push_row_put<T: StoredRow>(
    alloc: Global,
    puts: &mut Vec<Change>,
    entry: &Entry,
) -> Result<bool, NoMemory>
    ensures row { IfOk result (λ is_row. is_row ≡ is_some (row_in T.key_of T.keyed T.in_data entry.now)) }
    ensures put { OnOk result (puts.new.items ≡ with_put T.put (row_in T.key_of T.keyed T.in_data entry.now) puts.old.items) }
{
    match row_in::<T>(alloc, entry)? {
        Some(row) => {
            puts.push(row.into_put(alloc)?)?;
            Ok(true)
        }
        None => Ok(false),
    }
}

/// Puts of the rows that the entries are; None if one of them is not a row.
fn puts_of<T: StoredRow>(alloc: Global, entries: &[Entry]) -> Result<Option<List<Change>>, NoMemory>
    ensures { IfOk result (λ puts. puts ≡ option_map (map T.put) (rows_in T.key_of T.keyed T.in_data entries.now)) }
{
    let mut puts = Vec::with_capacity(alloc, entries.len())?;
    for entry in entries {
        let is_row = push_row_put::<T>(alloc, &mut puts, entry)?;
        if !is_row {
            return Ok(None);
        }
    }
    Ok(Some(List::of_vec(puts)))
}

/// Makes the changes in the tables.
fn make(tables: &mut Tables, changes: List<Change>) -> Result<(), NoMemory>
    ensures { OnOk result (tables.new.state ≡ apply_changes changes tables.old.state) }
{
    tables.reserve(changes.as_slice())?;
    tables.apply(changes);
    Ok(())
}

/// Puts the rows that the entries are into the tables; whether each entry is a row. If not, the tables stay.
fn put_rows<T: StoredRow>(
    alloc: Global,
    entries: &[Entry],
    tables: &mut Tables,
) -> Result<bool, NoMemory>
    ensures rows { IfOk result (λ all. all ≡ is_some (rows_in T.key_of T.keyed T.in_data entries.now)) }
    ensures state { OnOk result (tables.new.state ≡ with_rows T.put (rows_in T.key_of T.keyed T.in_data entries.now) tables.old.state) }
{
    match puts_of::<T>(alloc, entries)? {
        Some(puts) => {
            make(tables, puts)?;
            Ok(true)
        }
        None => Ok(false),
    }
}

/// Puts the pools, nodes, jobs and tasks into the tables; whether each entry of them is a row.
fn put_first(alloc: Global, stored: &Stored, tables: &mut Tables) -> Result<bool, NoMemory>
    ensures rows { IfOk result (λ all. all ≡ first_are_rows stored.now) }
    ensures state { OnOk result (tables.new.state ≡ first_filled stored.now tables.old.state) }
{
    let pools = put_rows::<PoolRow>(alloc, stored.pools.as_slice(), tables)?;
    let nodes = put_rows::<NodeRow>(alloc, stored.nodes.as_slice(), tables)?;
    let jobs = put_rows::<JobRow>(alloc, stored.jobs.as_slice(), tables)?;
    let tasks = put_rows::<TaskRow>(alloc, stored.tasks.as_slice(), tables)?;
    Ok((pools & nodes) & (jobs & tasks))
}

/// Puts the rows of all kinds into the tables; whether each entry is a row.
pub fn put_all(alloc: Global, stored: &Stored, tables: &mut Tables) -> Result<bool, NoMemory>
    ensures rows { IfOk result (λ all. all ≡ are_rows stored.now) }
    ensures state { OnOk result (tables.new.state ≡ filled stored.now tables.old.state) }
{
    let first = put_first(alloc, stored, tables)?;
    let runs = put_rows::<RunRow>(alloc, stored.runs.as_slice(), tables)?;
    let preps = put_rows::<PrepRow>(alloc, stored.preps.as_slice(), tables)?;
    let samples = put_rows::<SampleRow>(alloc, stored.samples.as_slice(), tables)?;
    let scales = put_rows::<ScaleRow>(alloc, stored.scales.as_slice(), tables)?;
    Ok(first & ((runs & preps) & (samples & scales)))
}
