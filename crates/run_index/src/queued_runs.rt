//! The queued runs by their numbers, and the lowest of a seat.
ghost use Rattle.std.specs.Prelude.{◌≡◌, ◌+◌, ◌<◌, ◌≤◌, [], List, Option, Some, length, take, IfOk, IfSome, OnOk};
ghost use Rattle.std.specs.Option.{option_copied};
ghost use Rattle.kept_table.specs.Slots.{slot_at, put_at, clear_at};
ghost use Rattle.batch_model.specs.Variants.{RunRow as Run};
ghost use Rattle.run_index.specs.Lowest.{lower_of, CountsRun, CountsSlot};
ghost use Rattle.run_index.specs.Seats.{sits_on, is_queued_at, lowest_at};
ghost use Rattle.run_index.specs.Queued.{AreNumbered, AreQueued, lowest_queued, queued_rank, queued_rank_at};

use crate::row_tests::is_queued;
use bt_base::NoMemory;
use bt_rows::run::RunRow;
use bt_rows::tables::Tables;
use first_tree::{FirstTree, NO_RANK};
use std::alloc::Global;
use std::marker::Model;

/// The queued runs by their numbers.
///
/// Contracts see a rank for each place of the tables' runs, and beside them the room: how many more runs can be put without allocating.
pub struct QueuedRuns {
    ranks: FirstTree,
}

impl Drop for QueuedRuns {
    fn drop(self) {
        let QueuedRuns { ranks: _ranks } = self;
    }
}

impl Model for QueuedRuns {
    ghost use Rattle.first_tree.specs.Ranks.{Ranks};

    ghost Value = { Ranks };

    ghost view = { λ q. q.ranks };
}

/// The last rank that a bound reaches.
const LAST_RANK: u64 = NO_RANK - 1;

/// The number of a queued run, at most the last rank, and no rank of another one.
fn queued_rank(run: &RunRow) -> u64
    ensures { result ≡ queued_rank run.now }
{
    if is_queued(run) {
        run.number.min(LAST_RANK)
    } else {
        NO_RANK
    }
}

/// The rank of the run at this place.
fn queued_rank_at(tables: &Tables, place: usize) -> u64
    ensures { result ≡ queued_rank_at (slot_at tables.now.run_slots place) }
{
    match tables.run_at(place) {
        None => NO_RANK,
        Some(run) => queued_rank(run),
    }
}

/// Whether the node with this number sits on the seat.
fn sits_on(tables: &Tables, seat: u8, number: u64) -> bool
    ensures { result ≡ sits_on tables.now.state seat number }
{
    match tables.find_node(number) {
        None => false,
        Some(node) => node.seat == seat,
    }
}

/// Whether the run is queued, and its node sits on the seat.
fn is_queued_at(tables: &Tables, seat: u8, run: &RunRow) -> bool
    ensures { result ≡ is_queued_at tables.now.state seat run.now }
{
    is_queued(run) && sits_on(tables, seat, run.node)
}

/// The run, unless the lowest so far has no higher number.
fn lower_of<'a>(lowest: Option<&'a RunRow>, run: &'a RunRow) -> &'a RunRow
    ensures { Some result.now ≡ lower_of (option_copied lowest.entry) (Some run.now) }
{
    match lowest {
        Some(other) if other.number <= run.number => other,
        _ => run,
    }
}

/// The lowest so far and the run together: the run counts if it is queued at the seat.
#[tactic(auto, using(crate::proofs::LowestRuns::counted, crate::proofs::LowestRuns::passed_over))]
fn lowest_with<'a>(
    tables: &Tables,
    seat: u8,
    lowest: Option<&'a RunRow>,
    run: &'a RunRow,
) -> Option<&'a RunRow>
    ensures { CountsRun tables.now.state seat (option_copied lowest.entry) (option_copied result) run.now }
{
    if is_queued_at(tables, seat, run) {
        Some(lower_of(lowest, run))
    } else {
        lowest
    }
}

/// The lowest so far and the run at this place together.
fn lowest_with_place<'a>(
    tables: &'a Tables,
    seat: u8,
    lowest: Option<&'a RunRow>,
    place: usize,
) -> Option<&'a RunRow>
    ensures { CountsSlot tables.now.state seat (option_copied lowest.entry) (option_copied result) (slot_at tables.now.run_slots place) }
{
    match tables.run_at(place) {
        None => lowest,
        Some(run) => lowest_with(tables, seat, lowest, run),
    }
}

impl QueuedRuns {
    /// No runs. The only error is out of memory.
    pub fn new(alloc: Global) -> Result<QueuedRuns, NoMemory>
        ensures { IfOk result (λ queued. AreQueued [] queued.items) }
    {
        let ranks = FirstTree::new(alloc)?;
        Ok(QueuedRuns { ranks })
    }

    /// Makes room for this many more runs. The only error is out of memory.
    pub fn reserve(&mut self, additional: usize) -> Result<(), NoMemory>
        ensures items { self.new.items ≡ self.old.items }
        ensures room { OnOk result (additional ≤ self.new.room) }
    {
        self.ranks.reserve(additional)
    }

    /// Follows a run that is put at this place of one, or else at the end. It does not allocate.
    pub fn put(&mut self, before: Option<usize>, run: &RunRow)
        requires room { 0 < self.old.room }
        requires place { IfSome before (λ place. place < length self.old.items) }
        ensures ranks { (slots : List (Option Run)) → AreQueued slots self.old.items → AreQueued (put_at before run.now slots) self.new.items }
        ensures room { self.old.room ≤ self.new.room + 1 }
    {
        let rank = queued_rank(run);
        match before {
            None => self.ranks.push(rank),
            Some(place) => self.ranks.set(place, rank),
        }
    }

    /// Follows the run at this place, or the free place, after those before it. It does not allocate.
    fn push_next(&mut self, tables: &Tables, place: usize)
        requires place { place < length tables.now.run_slots }
        requires room { 0 < self.old.room }
        ensures { AreQueued (take place tables.now.run_slots) self.old.items → AreQueued (take (place + 1) tables.now.run_slots) self.new.items }
    {
        self.ranks.push(queued_rank_at(tables, place));
    }

    /// The runs of the tables. The only error is out of memory.
    pub fn of_tables(alloc: Global, tables: &Tables) -> Result<QueuedRuns, NoMemory>
        ensures { IfOk result (λ queued. AreQueued tables.now.run_slots queued.items) }
    {
        let mut queued = QueuedRuns::new(alloc)?;
        for place in 0..tables.run_place_count() {
            queued.reserve(1)?;
            queued.push_next(tables, place);
        }
        Ok(queued)
    }

    /// Follows a run that is removed from this place, if there is one. It does not allocate.
    pub fn clear(&mut self, before: Option<usize>)
        requires { IfSome before (λ place. place < length self.old.items) }
        ensures ranks { (slots : List (Option Run)) → AreQueued slots self.old.items → AreQueued (clear_at before slots) self.new.items }
        ensures room { self.new.room ≡ self.old.room }
    {
        match before {
            None => {}
            Some(place) => self.ranks.set(place, NO_RANK),
        }
    }

    /// The least number of a queued run. None if no run is queued. It takes constant time, and does not allocate.
    pub fn lowest(&self, tables: &Tables) -> Option<u64>
        requires ranks { AreQueued tables.now.run_slots self.now.items }
        requires numbers { AreNumbered tables.now.state }
        ensures { result ≡ lowest_queued tables.now.state.runs }
    {
        tables.places_known();
        let least = self.ranks.least();
        // A number of a run is below the next one, and no rank is not.
        if least < tables.next_run() {
            Some(least)
        } else {
            None
        }
    }

    /// The queued run at the seat that has the lowest number. None if there is none. It goes over the queued runs alone, each of which is
    /// found by a walk down a tree, and does not allocate.
    pub fn lowest_at<'a>(&self, tables: &'a Tables, seat: u8) -> Option<&'a RunRow>
        requires ranks { AreQueued tables.now.run_slots self.now.items }
        ensures { option_copied result ≡ lowest_at tables.now.state seat }
    {
        tables.places_known();
        let mut lowest = None;
        let mut from = 0;
        while let Some(place) = self.ranks.first_from(from, LAST_RANK) {
            lowest = lowest_with_place(tables, seat, lowest, place);
            from = place + 1;
        }
        lowest
    }
}
