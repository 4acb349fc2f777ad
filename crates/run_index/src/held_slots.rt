//! The slots that are held on each node.
ghost use Rattle.std.specs.Prelude.{◌≡◌, ◌+◌, ◌<◌, ◌≤◌, ◌^◌, ℕ, Bool, true, List, Option, Some, None, [], length, take, set, sum_by, IfOk, OnOk};
ghost use Rattle.kept_table.specs.Slots.{AreApart, rows, slot_at};
ghost use Rattle.text_chains.specs.Places.{value_of};
ghost use Rattle.bt_rows.specs.Texts.{task_text};
ghost use Rattle.batch_model.specs.Runs.{is_present};
ghost use Rattle.batch_model.specs.Slots.{owns, held_slots};
ghost use Rattle.batch_model.specs.Variants.{TaskRow, RunRow};
ghost use Rattle.run_index.specs.Attempts.{HasRuns};
ghost use Rattle.run_index.specs.Held.{kept_sum, run_held, task_held, is_owned, IsCounted, AreCounted, HasHeld, HasKeys};

use crate::named_tasks::place_of_run;
use crate::node_sums::NodeSums;
use crate::row_tests::{is_placed, is_present};
use crate::runs_of_attempts::RunsOfAttempts;
use bt_base::NoMemory;
use bt_rows::run::RunRow;
use bt_rows::tables::Tables;
use bt_rows::task::TaskRow;
use std::alloc::Global;
use std::marker::Model;

/// The slots that the runs of the present attempts of placed tasks hold, by nodes.
///
/// Contracts see the sums by the numbers of the nodes, and beside them the room: how many more runs can be put without allocating.
pub struct HeldSlots {
    sums: NodeSums,
}

impl Drop for HeldSlots {
    fn drop(self) {
        let HeldSlots { sums: _sums } = self;
    }
}

impl Model for HeldSlots {
    ghost use Rattle.run_index.specs.Held.{SumsView};

    ghost Value = { SumsView };

    ghost view = { λ h. h.sums };
}

/// The slots of the run.
fn slots_of(run: &RunRow) -> u8
    ensures value { result ≡ run.now.slots }
    ensures byte { run.now.slots < 256 }
{
    run.slots
}

/// Tells callers that the places of runs are fewer than 2 ^ 64.
fn run_places_known(tables: &Tables)
    ensures { length tables.now.run_slots < 2 ^ 64 }
{
    let _few = tables.run_place_count();
}

/// Whether the run is of the present attempt of this task, and the task is placed.
fn owns(task: &TaskRow, run: &RunRow) -> bool
    ensures { result ≡ owns run.now task.now }
{
    is_placed(task) && is_present(task, run)
}

/// Whether the run is of the present attempt of a placed task.
fn is_owned(tables: &Tables, run: &RunRow) -> bool
    requires { AreApart task_text tables.now.task_slots }
    ensures { result ≡ is_owned tables.now.state.tasks run.now }
{
    tables.places_known();
    match place_of_run(tables, run) {
        None => false,
        Some(place) => match tables.task_at(place) {
            None => false,
            Some(task) => owns(task, run),
        },
    }
}

impl HeldSlots {
    /// No runs. It does not allocate.
    pub fn new(alloc: Global) -> HeldSlots
        ensures { (tasks : List TaskRow) → HasHeld result tasks [] }
    {
        HeldSlots {
            sums: NodeSums::new(alloc),
        }
    }

    /// Makes room for this many more runs. The only error is out of memory.
    pub fn reserve(&mut self, additional: usize) -> Result<(), NoMemory>
        ensures held { (tasks : List TaskRow) (slots : List (Option RunRow)) → HasHeld self.old tasks slots → HasHeld self.new tasks slots }
        ensures room { OnOk result (additional ≤ self.new.room) }
    {
        self.sums.reserve(additional)
    }

    /// The slots that are held on the node.
    pub fn held(&self, tables: &Tables, node: u64) -> u128
        requires { HasHeld self.now tables.now.state.tasks tables.now.run_slots }
        ensures { result ≡ held_slots tables.now.state node }
    {
        tables.places_known();
        self.sums.sum(node)
    }

    /// Takes the run's slots, if it holds them.
    fn take_if(&mut self, run: &RunRow, holds: bool)
        requires counted { IsCounted self.old run.now }
        requires enough { holds ≡ true → run.now.slots ≤ kept_sum self.old run.now.node }
        ensures sums { (test : RunRow → Bool) (node : ℕ) → holds ≡ test run.now → kept_sum self.new node + run_held test node run.now ≡ kept_sum self.old node }
        ensures keys { HasKeys self.old self.new }
        ensures room { self.new.room ≡ self.old.room }
    {
        if holds {
            self.sums.take(run.node, run.slots);
        }
    }

    /// Adds the run's slots, if it holds them.
    fn add_if(&mut self, run: &RunRow, holds: bool)
        requires counted { IsCounted self.old run.now }
        requires small { holds ≡ true → kept_sum self.old run.now.node + run.now.slots < 2 ^ 128 }
        ensures sums { (test : RunRow → Bool) (node : ℕ) → holds ≡ test run.now → kept_sum self.new node ≡ kept_sum self.old node + run_held test node run.now }
        ensures keys { HasKeys self.old self.new }
        ensures room { self.new.room ≡ self.old.room }
    {
        if holds {
            self.sums.add(run.node, run.slots);
        }
    }

    /// Takes the slots of the run at this place, if it is of the task's present attempt.
    fn take_at(&mut self, tables: &Tables, task: &TaskRow, place: usize)
        requires counted { AreCounted self.old tables.now.run_slots }
        requires enough { (node : ℕ) → value_of (run_held (is_present task.now) node) (slot_at tables.now.run_slots place) ≤ kept_sum self.old node }
        ensures sums { (node : ℕ) → kept_sum self.new node + value_of (run_held (is_present task.now) node) (slot_at tables.now.run_slots place) ≡ kept_sum self.old node }
        ensures keys { HasKeys self.old self.new }
        ensures room { self.new.room ≡ self.old.room }
    {
        match tables.run_at(place) {
            None => {}
            Some(run) => self.take_if(run, is_present(task, run)),
        }
    }

    /// Adds the slots of the run at this place, if it is of the task's present attempt.
    fn add_at(&mut self, tables: &Tables, task: &TaskRow, place: usize)
        requires counted { AreCounted self.old tables.now.run_slots }
        requires small { (node : ℕ) → kept_sum self.old node + value_of (run_held (is_present task.now) node) (slot_at tables.now.run_slots place) < 2 ^ 128 }
        ensures sums { (node : ℕ) → kept_sum self.new node ≡ kept_sum self.old node + value_of (run_held (is_present task.now) node) (slot_at tables.now.run_slots place) }
        ensures keys { HasKeys self.old self.new }
        ensures room { self.new.room ≡ self.old.room }
    {
        match tables.run_at(place) {
            None => {}
            Some(run) => self.add_if(run, is_present(task, run)),
        }
    }

    /// Takes the slots of the runs of the task's present attempt.
    fn take_runs(&mut self, tables: &Tables, runs: &RunsOfAttempts, task: &TaskRow)
        requires runs { HasRuns runs.now tables.now.run_slots }
        requires counted { AreCounted self.old tables.now.run_slots }
        requires enough { (node : ℕ) → sum_by (run_held (is_present task.now) node) (rows tables.now.run_slots) ≤ kept_sum self.old node }
        ensures sums { (node : ℕ) → kept_sum self.new node + sum_by (run_held (is_present task.now) node) (rows tables.now.run_slots) ≡ kept_sum self.old node }
        ensures counted { AreCounted self.new tables.now.run_slots }
        ensures room { self.new.room ≡ self.old.room }
    {
        for place in runs.places(task) {
            self.take_at(tables, task, place);
        }
    }

    /// Adds the slots of the runs of the task's present attempt.
    fn add_runs(&mut self, tables: &Tables, runs: &RunsOfAttempts, task: &TaskRow)
        requires runs { HasRuns runs.now tables.now.run_slots }
        requires counted { AreCounted self.old tables.now.run_slots }
        requires small { (node : ℕ) → kept_sum self.old node + sum_by (run_held (is_present task.now) node) (rows tables.now.run_slots) < 2 ^ 128 }
        ensures sums { (node : ℕ) → kept_sum self.new node ≡ kept_sum self.old node + sum_by (run_held (is_present task.now) node) (rows tables.now.run_slots) }
        ensures counted { AreCounted self.new tables.now.run_slots }
        ensures room { self.new.room ≡ self.old.room }
    {
        for place in runs.places(task) {
            self.add_at(tables, task, place);
        }
    }

    /// Takes the slots that the task's runs hold.
    fn take_task(&mut self, tables: &Tables, runs: &RunsOfAttempts, task: &TaskRow)
        requires runs { HasRuns runs.now tables.now.run_slots }
        requires counted { AreCounted self.old tables.now.run_slots }
        requires enough { (node : ℕ) → task_held (rows tables.now.run_slots) node task.now ≤ kept_sum self.old node }
        ensures sums { (node : ℕ) → kept_sum self.new node + task_held (rows tables.now.run_slots) node task.now ≡ kept_sum self.old node }
        ensures counted { AreCounted self.new tables.now.run_slots }
        ensures room { self.new.room ≡ self.old.room }
    {
        if is_placed(task) {
            self.take_runs(tables, runs, task);
        }
    }

    /// Adds the slots that the task's runs hold.
    fn add_task(&mut self, tables: &Tables, runs: &RunsOfAttempts, task: &TaskRow)
        requires runs { HasRuns runs.now tables.now.run_slots }
        requires counted { AreCounted self.old tables.now.run_slots }
        requires small { (node : ℕ) → kept_sum self.old node + task_held (rows tables.now.run_slots) node task.now < 2 ^ 128 }
        ensures sums { (node : ℕ) → kept_sum self.new node ≡ kept_sum self.old node + task_held (rows tables.now.run_slots) node task.now }
        ensures counted { AreCounted self.new tables.now.run_slots }
        ensures room { self.new.room ≡ self.old.room }
    {
        if is_placed(task) {
            self.add_runs(tables, runs, task);
        }
    }

    /// Gives back the slots of the task at this place, before it is removed or replaced. It does not allocate.
    pub fn release_task(&mut self, tables: &Tables, runs: &RunsOfAttempts, place: usize)
        requires runs { HasRuns runs.now tables.now.run_slots }
        requires apart { AreApart task_text tables.now.task_slots }
        requires held { HasHeld self.old (rows tables.now.task_slots) tables.now.run_slots }
        ensures held { HasHeld self.new (rows (set tables.now.task_slots place None)) tables.now.run_slots }
        ensures room { self.new.room ≡ self.old.room }
    {
        match tables.task_at(place) {
            None => {}
            Some(task) => self.take_task(tables, runs, task),
        }
    }

    /// Holds the slots of the task at this place, after it was put. It does not allocate.
    pub fn hold_task(&mut self, tables: &Tables, runs: &RunsOfAttempts, place: usize)
        requires runs { HasRuns runs.now tables.now.run_slots }
        requires apart { AreApart task_text tables.now.task_slots }
        requires held { HasHeld self.old (rows (set tables.now.task_slots place None)) tables.now.run_slots }
        ensures held { HasHeld self.new (rows tables.now.task_slots) tables.now.run_slots }
        ensures room { self.new.room ≡ self.old.room }
    {
        run_places_known(tables);
        match tables.task_at(place) {
            None => {}
            Some(task) => self.add_task(tables, runs, task),
        }
    }

    /// Adds the slots of a new run, if its task is placed.
    fn hold(&mut self, tables: &Tables, run: &RunRow)
        requires room { 0 < self.old.room }
        requires apart { AreApart task_text tables.now.task_slots }
        requires small { (node : ℕ) → kept_sum self.old node < 2 ^ 80 }
        ensures sums { (node : ℕ) → kept_sum self.new node ≡ kept_sum self.old node + run_held (is_owned tables.now.state.tasks) node run.now }
        ensures keys { HasKeys self.old self.new }
        ensures counted { IsCounted self.new run.now }
        ensures room { self.old.room ≤ self.new.room + 1 }
    {
        let _slots = slots_of(run);
        self.sums.add_node(run.node);
        self.add_if(run, is_owned(tables, run));
    }

    /// Gives back the slots of the run at this place, before it is removed or replaced. It does not allocate.
    pub fn release_run(&mut self, tables: &Tables, place: usize)
        requires apart { AreApart task_text tables.now.task_slots }
        requires held { HasHeld self.old tables.now.state.tasks tables.now.run_slots }
        ensures held { HasHeld self.new tables.now.state.tasks (set tables.now.run_slots place None) }
        ensures room { self.new.room ≡ self.old.room }
    {
        match tables.run_at(place) {
            None => {}
            Some(run) => self.take_if(run, is_owned(tables, run)),
        }
    }

    /// Holds the slots of the run at this place, after it was put. It does not allocate.
    pub fn hold_run(&mut self, tables: &Tables, place: usize)
        requires room { 0 < self.old.room }
        requires apart { AreApart task_text tables.now.task_slots }
        requires held { HasHeld self.old tables.now.state.tasks (set tables.now.run_slots place None) }
        ensures held { HasHeld self.new tables.now.state.tasks tables.now.run_slots }
        ensures room { self.old.room ≤ self.new.room + 1 }
    {
        run_places_known(tables);
        match tables.run_at(place) {
            None => {}
            Some(run) => self.hold(tables, run),
        }
    }

    /// Holds the slots of the run at this place, if there is one, after those at the places before it. It does not allocate.
    fn hold_next(&mut self, tables: &Tables, place: usize)
        requires place { place < length tables.now.run_slots }
        requires room { 0 < self.old.room }
        requires apart { AreApart task_text tables.now.task_slots }
        requires held { HasHeld self.old tables.now.state.tasks (take place tables.now.run_slots) }
        ensures { HasHeld self.new tables.now.state.tasks (take (place + 1) tables.now.run_slots) }
    {
        run_places_known(tables);
        match tables.run_at(place) {
            None => {}
            Some(run) => self.hold(tables, run),
        }
    }

    /// The slots that are held in the tables. The only error is out of memory.
    pub fn of_tables(alloc: Global, tables: &Tables) -> Result<HeldSlots, NoMemory>
        ensures { IfOk result (λ held. HasHeld held tables.now.state.tasks tables.now.run_slots) }
    {
        tables.keys_known();
        let mut held = HeldSlots::new(alloc);
        for place in 0..tables.run_place_count() {
            held.reserve(1)?;
            held.hold_next(tables, place);
        }
        Ok(held)
    }
}
