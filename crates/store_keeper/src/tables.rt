//! The tables that a store contains.
ghost use Rattle.std.specs.Prelude.{◌≡◌, ◌+◌, ◌&&◌, true, false, length, nat_eq, IfOk, OnOk};
ghost use Rattle.bt_rows.specs.State.{State, empty_state};
ghost use Rattle.store_keeper.specs.Reading.{has_known_version};
ghost use Rattle.store_keeper.specs.Filling.{filled, numbered, are_rows, has_all};
ghost use Rattle.store_keeper.specs.Found.{IsContentOf, IsFound};

use crate::reading::put_all;
use bt_base::{List, NoMemory};
use bt_rows::tables::{Change, Tables};
use keeper_store::{Entry, Metas, Stored};
use kept_table::Rows;
use std::alloc::Global;
use tables_check::well_formed;

/// The version of the form of the rows, which a store without the number `version` has (this project's own).
const VERSION: u64 = 1;

/// The number of the next node and of the next run in a store without them.
const FIRST_NUMBER: u64 = 1;

/// Whether the rows are of the form that is read here.
fn has_known_version(metas: Metas) -> bool
    ensures { result ≡ has_known_version metas }
{
    metas.version.unwrap_or(VERSION) == VERSION
}

/// The version of the form of the rows, if it is not the one that is read here.
pub fn version_of(metas: Metas) -> Option<u64> {
    metas.version.filter(|version| *version != VERSION)
}

/// Sets the numbers beside the rows.
fn set_numbers(alloc: Global, metas: Metas, tables: &mut Tables) -> Result<(), NoMemory>
    ensures { OnOk result (tables.new.state ≡ numbered metas tables.old.state) }
{
    let node = metas.next_node.unwrap_or(FIRST_NUMBER);
    let run = metas.next_run.unwrap_or(FIRST_NUMBER);
    let moment = metas.moment.unwrap_or(0);
    let changes = vec![in alloc; Change::Counters(node, run), Change::Now(moment)]?;
    tables.reserve(changes.as_slice())?;
    tables.apply(List::of_vec(changes));
    Ok(())
}

/// Takes the next row; whether there was one.
fn advance<R>(rows: &mut Rows<'_, R>) -> bool
    ensures some { result ≡ true → length rows.old ≡ length rows.new + 1 }
    ensures none { result ≡ false → length rows.old ≡ 0 }
{
    match rows.next() {
        Some(_) => true,
        None => false,
    }
}

/// Whether there are as many rows as entries. No clause of `Rows` says that the number of rows fits, as `count` would require.
fn are_as_many<R>(rows: Rows<'_, R>, entries: &[Entry]) -> bool
    ensures { result ≡ nat_eq (length rows.entry) (length entries.now) }
{
    let mut left = rows;
    for _place in 0..entries.len() {
        let is_there = advance(&mut left);
        if !is_there {
            return false;
        }
    }
    let is_longer = advance(&mut left);
    !is_longer
}

/// Whether there are as many rows as entries: no row has replaced another.
fn has_all(tables: &Tables, stored: &Stored) -> bool
    ensures { result ≡ has_all tables.now.state stored.now }
{
    let pools = are_as_many(tables.pools(), stored.pools.as_slice());
    let nodes = are_as_many(tables.nodes(), stored.nodes.as_slice());
    let jobs = are_as_many(tables.jobs(), stored.jobs.as_slice());
    let tasks = are_as_many(tables.tasks(), stored.tasks.as_slice());
    let runs = are_as_many(tables.runs(), stored.runs.as_slice());
    let preps = are_as_many(tables.preps(), stored.preps.as_slice());
    let samples = are_as_many(tables.samples(), stored.samples.as_slice());
    let scales = are_as_many(tables.scales(), stored.scales.as_slice());
    ((pools & nodes) & (jobs & tasks)) & ((runs & preps) & (samples & scales))
}

/// Puts all rows and numbers of the store into tables without rows; whether each entry is a row, with a key of its own.
pub fn fill(alloc: Global, stored: &Stored, tables: &mut Tables) -> Result<bool, NoMemory>
    requires { tables.old.state ≡ empty_state }
    ensures state { OnOk result (tables.new.state ≡ numbered stored.now.metas (filled stored.now empty_state)) }
    ensures rows { IfOk result (λ found. found ≡ (are_rows stored.now && has_all tables.new.state stored.now)) }
{
    let are_rows = put_all(alloc, stored, tables)?;
    set_numbers(alloc, stored.metas, tables)?;
    let has_all = has_all(tables, stored);
    Ok(are_rows & has_all)
}

/// The same; whether the tables are then what the store contains, and well formed. If not, no well-formed tables are.
fn fill_well_formed(alloc: Global, stored: &Stored, tables: &mut Tables) -> Result<bool, NoMemory>
    requires version { has_known_version stored.now.metas ≡ true }
    requires empty { tables.old.state ≡ empty_state }
    ensures yes { IfOk result (λ found. found ≡ true → IsContentOf stored.now tables.new.state) }
    ensures no { IfOk result (λ found. found ≡ false → (other : State) → IsContentOf stored.now other → ⊥) }
{
    let is_whole = fill(alloc, stored, tables)?;
    let formed = well_formed(alloc, tables)?;
    Ok(is_whole & formed)
}

/// The tables that the store contains, whose rows are of a known form. None exactly if its content is not that of well-formed tables.
fn tables_of(alloc: Global, stored: &Stored) -> Result<Option<Tables>, NoMemory>
    requires { has_known_version stored.now.metas ≡ true }
    ensures { IfOk result (λ found. IsFound stored.now found) }
{
    let mut tables = Tables::empty(alloc);
    match fill_well_formed(alloc, stored, &mut tables) {
        Ok(true) => Ok(Some(tables)),
        Ok(false) => {
            drop(tables);
            Ok(None)
        }
        Err(error) => {
            drop(tables);
            Err(error)
        }
    }
}

/// The tables that the store contains. None exactly if its content is not that of well-formed tables.
pub fn tables_in(alloc: Global, stored: &Stored) -> Result<Option<Tables>, NoMemory>
    ensures { IfOk result (λ found. IsFound stored.now found) }
{
    if has_known_version(stored.metas) {
        tables_of(alloc, stored)
    } else {
        Ok(None)
    }
}
