//! The places of the runs on each node.
ghost use Rattle.std.specs.Prelude.{◌≡◌, ◌+◌, ◌<◌, ◌≤◌, ℕ, List, [], Option, length, take, IfOk, OnOk};
ghost use Rattle.std.specs.Option.{unwrap_or};
ghost use Rattle.std.specs.Iterator.{YieldsFirstRef, item_count};
ghost use Rattle.kept_table.specs.Keys.{number_text};
ghost use Rattle.kept_table.specs.Slots.{slot_at, holds, put_at};
ghost use Rattle.text_chains.specs.Chains.{places_of, with_place};
ghost use Rattle.batch_model.specs.Variants.{RunRow as Run};
ghost use Rattle.run_index.specs.Nodes.{HasNodeRuns, AreOnNode, is_on_node, runs_at};

use bt_base::NoMemory;
use bt_rows::run::RunRow;
use bt_rows::tables::Tables;
use kept_table::KeyText;
use std::alloc::Global;
use std::marker::Model;
use text_chains::{Places, TextChains};

/// The places of the runs on each node.
///
/// Contracts see the places by the text of the node's number, and beside them the room: how many more runs can be put without allocating.
pub struct RunsOfNodes {
    chains: TextChains,
}

impl Drop for RunsOfNodes {
    fn drop(self) {
        let RunsOfNodes { chains: _chains } = self;
    }
}

impl Model for RunsOfNodes {
    ghost use Rattle.text_chains.specs.Chains.{ChainsView};

    ghost Value = { ChainsView };

    ghost view = { λ r. r.chains };
}

/// The runs on a node, the one that was put first last. Contracts see those that are still to come.
#[derive(Drop)]
pub struct NodeRuns<'a> {
    tables: &'a Tables,
    places: Places<'a>,
}

impl<'a> Model for NodeRuns<'a> {
    ghost use Rattle.std.specs.Prelude.{List};
    ghost use Rattle.batch_model.specs.Variants.{RunRow as Run};
    ghost use Rattle.run_index.specs.Nodes.{runs_at};

    ghost Value = { List Run };

    ghost view = { λ r. runs_at r.tables.now.run_slots r.places };
}

impl<'a> Iterator for NodeRuns<'a> {
    type Item = &'a RunRow;

    ghost next_gives = { YieldsFirstRef (λ runs. runs) };

    ghost remaining = { item_count (λ runs. runs) };

    fn next(&mut self) -> Option<&'a RunRow> {
        while let Some(place) = self.places.next() {
            if let Some(run) = self.tables.run_at(place) {
                return Some(run);
            }
        }
        None
    }
}

/// Whether there is a run at this place, and it is on the node.
fn is_on_node_at(tables: &Tables, node: u64, place: usize) -> bool
    ensures { result ≡ holds (is_on_node node) (slot_at tables.now.run_slots place) }
{
    match tables.run_at(place) {
        None => false,
        Some(run) => run.node == node,
    }
}

impl RunsOfNodes {
    /// No runs. It does not allocate.
    pub fn new(alloc: Global) -> RunsOfNodes
        ensures { HasNodeRuns result [] }
    {
        RunsOfNodes {
            chains: TextChains::new(alloc),
        }
    }

    /// Makes room for this many more runs. The only error is out of memory.
    pub fn reserve(&mut self, additional: usize) -> Result<(), NoMemory>
        ensures runs { (slots : List (Option Run)) → HasNodeRuns self.old slots → HasNodeRuns self.new slots }
        ensures room { OnOk result (additional ≤ self.new.room) }
    {
        self.chains.reserve(additional)
    }

    /// Adds a place to those of the node.
    fn add(&mut self, node: u64, place: usize)
        requires { 0 < self.old.room }
        ensures places { (other : List ℕ) → places_of self.new other ≡ with_place (places_of self.old) (number_text node) place other }
        ensures room { self.new.room + 1 ≡ self.old.room }
    {
        let text = KeyText::of_number(node);
        self.chains.add(text.as_slice(), place);
    }

    /// Follows a run that is put at this place, that of a run or the one after the last, before it is put. It does not allocate.
    pub fn put(&mut self, tables: &Tables, run: &RunRow, place: usize)
        requires { 0 < self.old.room }
        ensures runs { (before : Option ℕ) → place ≡ unwrap_or before (length tables.now.run_slots) → HasNodeRuns self.old tables.now.run_slots → HasNodeRuns self.new (put_at before run.now tables.now.run_slots) }
        ensures room { self.old.room ≤ self.new.room + 1 }
    {
        if !is_on_node_at(tables, run.node, place) {
            self.add(run.node, place);
        }
    }

    /// Follows the run at this place, if there is one, after those at the places before it. It does not allocate.
    fn add_next(&mut self, tables: &Tables, place: usize)
        requires place { place < length tables.now.run_slots }
        requires room { 0 < self.old.room }
        ensures { HasNodeRuns self.old (take place tables.now.run_slots) → HasNodeRuns self.new (take (place + 1) tables.now.run_slots) }
    {
        match tables.run_at(place) {
            None => {}
            Some(run) => self.add(run.node, place),
        }
    }

    /// The runs of the tables. The only error is out of memory.
    pub fn of_tables(alloc: Global, tables: &Tables) -> Result<RunsOfNodes, NoMemory>
        ensures { IfOk result (λ runs. HasNodeRuns runs tables.now.run_slots) }
    {
        let mut runs = RunsOfNodes::new(alloc);
        for place in 0..tables.run_place_count() {
            runs.reserve(1)?;
            runs.add_next(tables, place);
        }
        Ok(runs)
    }

    /// The runs at the places of the node: those on it, and perhaps others. It does not allocate.
    pub fn on_node<'a>(&'a self, tables: &'a Tables, node: u64) -> NodeRuns<'a>
        requires { HasNodeRuns self.now tables.now.run_slots }
        ensures { AreOnNode node result tables.now.state.runs }
    {
        tables.places_known();
        let text = KeyText::of_number(node);
        NodeRuns {
            tables,
            places: self.chains.places(text.as_slice()),
        }
    }
}
