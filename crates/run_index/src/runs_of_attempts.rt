//! The places of the runs of each attempt.
ghost use Rattle.std.specs.Prelude.{◌≡◌, ◌+◌, ◌<◌, ◌≤◌, ◌&&◌, ℕ, List, [], Option, Some, None, length, take, IfOk, OnOk};
ghost use Rattle.std.specs.Option.{option_copied, unwrap_or};
ghost use Rattle.kept_table.specs.Slots.{slot_at, holds, put_at, clear_at};
ghost use Rattle.batch_model.specs.Runs.{is_present, is_busy_for, is_main};
ghost use Rattle.batch_model.specs.Tasks.{is_busy, main_run};
ghost use Rattle.batch_model.specs.Variants.{RunRow};
ghost use Rattle.text_chains.specs.Chains.{places_of};
ghost use Rattle.run_index.specs.Attempts.{HasRuns, lowest_from, lower, present_text};

use crate::attempt_text::AttemptText;
use crate::chains::add_place;
use crate::row_tests::{is_busy_for, is_main_for};
use bt_base::NoMemory;
use bt_rows::run::RunRow;
use bt_rows::tables::Tables;
use bt_rows::task::TaskRow;
use std::alloc::Global;
use std::marker::Model;
use text_chains::{Places, TextChains};

/// The places of the runs of each attempt of a task.
///
/// Contracts see the places by the text of the attempt, and beside them the room: how many more runs can be put without allocating.
pub struct RunsOfAttempts {
    chains: TextChains,
}

impl Drop for RunsOfAttempts {
    fn drop(self) {
        let RunsOfAttempts { chains: _chains } = self;
    }
}

impl Model for RunsOfAttempts {
    ghost use Rattle.text_chains.specs.Chains.{ChainsView};

    ghost Value = { ChainsView };

    ghost view = { λ r. r.chains };
}

/// Whether the run at this place is of the task's present attempt and has not ended.
fn is_busy_at(tables: &Tables, task: &TaskRow, place: usize) -> bool
    ensures { result ≡ holds (is_busy_for task.now) (slot_at tables.now.run_slots place) }
{
    match tables.run_at(place) {
        None => false,
        Some(run) => is_busy_for(task, run),
    }
}

/// Whether the run at this place is the main run of the task's present attempt.
fn is_main_at(tables: &Tables, task: &TaskRow, place: usize) -> bool
    ensures { result ≡ holds (λ run. is_present task.now run && is_main run.kind) (slot_at tables.now.run_slots place) }
{
    match tables.run_at(place) {
        None => false,
        Some(run) => is_main_for(task, run),
    }
}

/// The lower of two places.
fn lower(least: Option<usize>, place: usize) -> usize
    ensures { result ≡ lower least place }
{
    match least {
        None => place,
        Some(least) => least.min(place),
    }
}

impl RunsOfAttempts {
    /// No runs. It does not allocate.
    pub fn new(alloc: Global) -> RunsOfAttempts
        ensures { HasRuns result [] }
    {
        RunsOfAttempts {
            chains: TextChains::new(alloc),
        }
    }

    /// Makes room for this many more runs. The only error is out of memory.
    pub fn reserve(&mut self, additional: usize) -> Result<(), NoMemory>
        ensures runs { (slots : List (Option RunRow)) → HasRuns self.old slots → HasRuns self.new slots }
        ensures room { OnOk result (additional ≤ self.new.room) }
    {
        self.chains.reserve(additional)
    }

    /// Adds a run that is put at this place: that of a run, or the one after the last. It does not allocate.
    pub fn add(&mut self, run: &RunRow, place: usize)
        requires { 0 < self.old.room }
        ensures runs { (slots : List (Option RunRow)) (before : Option ℕ) → place ≡ unwrap_or before (length slots) → HasRuns self.old slots → HasRuns self.new (put_at before run.now slots) }
        ensures room { self.old.room ≤ self.new.room + 1 }
    {
        match AttemptText::of_run(run) {
            None => {}
            Some(text) => add_place(&mut self.chains, text.as_slice(), place),
        }
    }

    /// Follows the run at this place, if there is one, after those at the places before it. It does not allocate.
    fn add_next(&mut self, tables: &Tables, place: usize)
        requires place { place < length tables.now.run_slots }
        requires room { 0 < self.old.room }
        ensures { HasRuns self.old (take place tables.now.run_slots) → HasRuns self.new (take (place + 1) tables.now.run_slots) }
    {
        match tables.run_at(place) {
            None => {}
            Some(run) => self.add(run, place),
        }
    }

    /// The runs of the tables. The only error is out of memory.
    pub fn of_tables(alloc: Global, tables: &Tables) -> Result<RunsOfAttempts, NoMemory>
        ensures { IfOk result (λ runs. HasRuns runs tables.now.run_slots) }
    {
        let mut runs = RunsOfAttempts::new(alloc);
        for place in 0..tables.run_place_count() {
            runs.reserve(1)?;
            runs.add_next(tables, place);
        }
        Ok(runs)
    }

    /// The places of the runs of the task's present attempt, and perhaps others.
    pub fn places(&self, task: &TaskRow) -> Places<'_>
        ensures { result ≡ places_of self.now (present_text task.now) }
    {
        let text = AttemptText::present(task);
        self.chains.places(text.as_slice())
    }

    /// Whether a run of the task's present attempt has not ended.
    pub fn is_busy(&self, tables: &Tables, task: &TaskRow) -> bool
        requires { HasRuns self.now tables.now.run_slots }
        ensures { result ≡ is_busy tables.now.state task.now }
    {
        tables.places_known();
        let text = AttemptText::present(task);
        self.chains
            .places(text.as_slice())
            .any(|place| is_busy_at(tables, task, place))
    }

    /// The place of the main run of the task's present attempt.
    fn main_place(&self, tables: &Tables, task: &TaskRow) -> Option<usize>
        ensures { result ≡ lowest_from (λ place. holds (λ run. is_present task.now run && is_main run.kind) (slot_at tables.now.run_slots place)) None (places_of self.now (present_text task.now)) }
    {
        let text = AttemptText::present(task);
        let mut least = None;
        for place in self.chains.places(text.as_slice()) {
            if is_main_at(tables, task, place) {
                least = Some(lower(least, place));
            }
        }
        least
    }

    /// The main run of the task's present attempt.
    pub fn main_run<'a>(&self, tables: &'a Tables, task: &TaskRow) -> Option<&'a RunRow>
        requires { HasRuns self.now tables.now.run_slots }
        ensures { option_copied result ≡ main_run tables.now.state task.now }
    {
        tables.places_known();
        match self.main_place(tables, task) {
            None => None,
            Some(place) => tables.run_at(place),
        }
    }
}
