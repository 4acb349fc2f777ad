//! The taken runs that are asked to stop.
ghost use Rattle.std.specs.Prelude.{◌≡◌, ◌+◌, ◌<◌, ◌≤◌, [], List, Option, length, take, IfOk, IfSome, OnOk};
ghost use Rattle.kept_table.specs.Slots.{slot_at, put_at, clear_at};
ghost use Rattle.batch_model.specs.Variants.{RunRow as Run};
ghost use Rattle.run_index.specs.Asked.{AreAsked, ListsRun, ListsSlot, asked_rank, asked_rank_at};
ghost use Rattle.run_index.specs.Seats.{asked_runs};

use crate::row_tests::is_asked;
use bt_base::{List, NoMemory};
use bt_rows::run::RunRow;
use bt_rows::tables::Tables;
use first_tree::{FirstTree, NO_RANK};
use std::alloc::Global;
use std::marker::Model;

/// The taken runs that are asked to stop, by their places.
///
/// Contracts see a rank for each place of the tables' runs, and beside them the room: how many more runs can be put without allocating.
pub struct AskedRuns {
    ranks: FirstTree,
}

impl Drop for AskedRuns {
    fn drop(self) {
        let AskedRuns { ranks: _ranks } = self;
    }
}

impl Model for AskedRuns {
    ghost use Rattle.first_tree.specs.Ranks.{Ranks};

    ghost Value = { Ranks };

    ghost view = { λ a. a.ranks };
}

/// 0 for a taken run that is asked to stop, and no rank for another one.
fn asked_rank(run: &RunRow) -> u64
    ensures { result ≡ asked_rank run.now }
{
    if is_asked(run) { 0 } else { NO_RANK }
}

/// The rank of the run at this place.
fn asked_rank_at(tables: &Tables, place: usize) -> u64
    ensures { result ≡ asked_rank_at (slot_at tables.now.run_slots place) }
{
    match tables.run_at(place) {
        None => NO_RANK,
        Some(run) => asked_rank(run),
    }
}

/// Adds the number of the run, if it is a taken one that is asked to stop.
#[tactic(auto, using(crate::proofs::AskedRanks::listed, crate::proofs::AskedRanks::passed_over))]
fn add_number(numbers: &mut Vec<u64>, run: &RunRow) -> Result<(), NoMemory>
    ensures { OnOk result (ListsRun numbers.old.items numbers.new.items run.now) }
{
    if is_asked(run) {
        numbers.push(run.number)?;
    }
    Ok(())
}

/// Adds the number of the run at this place, if it is a taken one that is asked to stop.
fn add_number_at(numbers: &mut Vec<u64>, tables: &Tables, place: usize) -> Result<(), NoMemory>
    ensures { OnOk result (ListsSlot numbers.old.items numbers.new.items (slot_at tables.now.run_slots place)) }
{
    match tables.run_at(place) {
        None => Ok(()),
        Some(run) => add_number(numbers, run),
    }
}

impl AskedRuns {
    /// No runs. The only error is out of memory.
    pub fn new(alloc: Global) -> Result<AskedRuns, NoMemory>
        ensures { IfOk result (λ asked. AreAsked [] asked.items) }
    {
        let ranks = FirstTree::new(alloc)?;
        Ok(AskedRuns { ranks })
    }

    /// Makes room for this many more runs. The only error is out of memory.
    pub fn reserve(&mut self, additional: usize) -> Result<(), NoMemory>
        ensures items { self.new.items ≡ self.old.items }
        ensures room { OnOk result (additional ≤ self.new.room) }
    {
        self.ranks.reserve(additional)
    }

    /// Follows a run that is put at this place of one, or else at the end. It does not allocate.
    pub fn put(&mut self, before: Option<usize>, run: &RunRow)
        requires room { 0 < self.old.room }
        requires place { IfSome before (λ place. place < length self.old.items) }
        ensures ranks { (slots : List (Option Run)) → AreAsked slots self.old.items → AreAsked (put_at before run.now slots) self.new.items }
        ensures room { self.old.room ≤ self.new.room + 1 }
    {
        let rank = asked_rank(run);
        match before {
            None => self.ranks.push(rank),
            Some(place) => self.ranks.set(place, rank),
        }
    }

    /// Follows the run at this place, or the free place, after those before it. It does not allocate.
    fn push_next(&mut self, tables: &Tables, place: usize)
        requires place { place < length tables.now.run_slots }
        requires room { 0 < self.old.room }
        ensures { AreAsked (take place tables.now.run_slots) self.old.items → AreAsked (take (place + 1) tables.now.run_slots) self.new.items }
    {
        self.ranks.push(asked_rank_at(tables, place));
    }

    /// The runs of the tables. The only error is out of memory.
    pub fn of_tables(alloc: Global, tables: &Tables) -> Result<AskedRuns, NoMemory>
        ensures { IfOk result (λ asked. AreAsked tables.now.run_slots asked.items) }
    {
        let mut asked = AskedRuns::new(alloc)?;
        for place in 0..tables.run_place_count() {
            asked.reserve(1)?;
            asked.push_next(tables, place);
        }
        Ok(asked)
    }

    /// Follows a run that is removed from this place, if there is one. It does not allocate.
    pub fn clear(&mut self, before: Option<usize>)
        requires { IfSome before (λ place. place < length self.old.items) }
        ensures ranks { (slots : List (Option Run)) → AreAsked slots self.old.items → AreAsked (clear_at before slots) self.new.items }
        ensures room { self.new.room ≡ self.old.room }
    {
        match before {
            None => {}
            Some(place) => self.ranks.set(place, NO_RANK),
        }
    }

    /// The numbers of the runs, in order of adding. It goes over these runs alone, each of which is found by a walk down a tree. It fails
    /// only when out of memory.
    pub fn numbers(&self, alloc: Global, tables: &Tables) -> Result<List<u64>, NoMemory>
        requires ranks { AreAsked tables.now.run_slots self.now.items }
        ensures { IfOk result (λ numbers. numbers ≡ asked_runs tables.now.state) }
    {
        tables.places_known();
        let mut numbers = Vec::new(alloc);
        let mut from = 0;
        while let Some(place) = self.ranks.first_from(from, 0) {
            add_number_at(&mut numbers, tables, place)?;
            from = place + 1;
        }
        Ok(List::of_vec(numbers))
    }
}
