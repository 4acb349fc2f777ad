//! The tables with what is kept beside them.
ghost use Rattle.std.specs.Prelude.{◌≡◌, ◌+◌, ◌<◌, ◌≤◌, List, Option, Some, length, IfOk, IfSome, OnOk};
ghost use Rattle.std.specs.List.{find};
ghost use Rattle.std.specs.Option.{option_copied};
ghost use Rattle.kept_table.specs.Slots.{slot_at, clear_at, place_of};
ghost use Rattle.bt_rows.specs.Keys.{task_has_ids};
ghost use Rattle.bt_rows.specs.Changes.{apply_change, apply_changes, tasks_placed, runs_placed};
ghost use Rattle.batch_model.specs.Readiness.{is_number_satisfied};
ghost use Rattle.batch_model.specs.Settling.{is_over};
ghost use Rattle.batch_model.specs.Slots.{held_slots};
ghost use Rattle.batch_model.specs.Tasks.{is_busy, main_run};
ghost use Rattle.batch_model.specs.Variants.{TaskRow, RunRow};
ghost use Rattle.run_index.specs.Named.{place_of_run};
ghost use Rattle.run_index.specs.Nodes.{AreOnNode};
ghost use Rattle.task_index.specs.Over.{AreOver};
ghost use Rattle.task_index.specs.Active.{AreItemsOf, is_active_within};
ghost use Rattle.machine_index.specs.Indexed.{IsIndexed};
ghost use Rattle.task_index.specs.Timed.{AreTimed, is_overdue};
ghost use Rattle.run_index.specs.Queued.{AreNumbered, lowest_queued};
ghost use Rattle.run_index.specs.Seats.{lowest_at, asked_runs};

use crate::index_parts::{RunParts, TaskParts};
use bt_base::{Id, List, Moment, NoMemory, Shared};
use bt_rows::run::RunRow;
use bt_rows::tables::{Change, Tables};
use bt_rows::task::{TaskKey, TaskRow};
use run_index::{
    AskedRuns, HeldSlots, NodeRuns, QueuedRuns, RunsOfAttempts, RunsOfNodes, place_of_run,
};
use std::alloc::Global;
use std::marker::Model;
use std::mem;
use task_index::{ActiveTasks, NumberedTasks, PlacedTasks, TimedTasks};

/// Tables, and beside them what the due rules look for. Each change of the tables is followed.
///
/// Contracts see the state, and beside it the room: the number of changes that may be made without an allocation.
pub struct IndexedTables {
    tables: Tables,
    runs: RunsOfAttempts,
    active: ActiveTasks,
    over: PlacedTasks,
    held: HeldSlots,
    timed: TimedTasks,
    queued: QueuedRuns,
    asked: AskedRuns,
    numbered: NumberedTasks,
    nodes: RunsOfNodes,
    room: usize,
}

impl Drop for IndexedTables {
    fn drop(self) {
        let IndexedTables {
            tables: _tables,
            runs: _runs,
            active: _active,
            over: _over,
            held: _held,
            timed: _timed,
            queued: _queued,
            asked: _asked,
            numbered: _numbered,
            nodes: _nodes,
            room: _room,
        } = self;
    }
}

impl Model for IndexedTables {
    ghost use Rattle.machine_index.specs.Indexed.{IndexedView, IsIndexed, HasRoom};

    ghost Value = { IndexedView };

    ghost view = { λ i. record { state = i.tables.state; room = i.room } };

    ghost invariant = { λ i. IsIndexed i.tables.task_slots i.tables.run_slots i.runs i.active i.over i.held i.timed i.queued i.asked i.numbered i.nodes × HasRoom i.room i.tables.room i.runs.room i.active.room i.over.room i.held.room i.timed.room i.queued.room i.asked.room i.numbered.room i.nodes.room };
}

/// The place of the task that the run at this place names.
fn task_of_run_at(tables: &Tables, place: usize) -> Option<usize>
    ensures { result ≡ place_of_run tables.now.task_slots (slot_at tables.now.run_slots place) }
{
    match tables.run_at(place) {
        None => None,
        Some(run) => place_of_run(tables, run),
    }
}

/// Follows a task that is removed from this place, if there is one.
fn clear_active(active: &mut ActiveTasks, place: Option<usize>)
    requires { IfSome place (λ at. at < length active.old.items) }
    ensures items { (slots : List (Option TaskRow)) → AreItemsOf slots active.old.items → AreItemsOf (clear_at place slots) active.new.items }
    ensures room { active.new.room ≡ active.old.room }
{
    match place {
        None => {}
        Some(place) => active.clear(place),
    }
}

/// Follows a task that is removed from this place, if there is one.
fn clear_over(over: &mut PlacedTasks, place: Option<usize>)
    requires { IfSome place (λ at. at < length over.old.items) }
    ensures ranks { (runs : List RunRow) (slots : List (Option TaskRow)) → AreOver runs slots over.old.items → AreOver runs (clear_at place slots) over.new.items }
    ensures room { over.new.room ≡ over.old.room }
{
    match place {
        None => {}
        Some(place) => over.clear(place),
    }
}

/// Follows a task that is removed from this place, if there is one.
fn clear_timed(timed: &mut TimedTasks, place: Option<usize>)
    requires { IfSome place (λ at. at < length timed.old.items) }
    ensures ranks { (slots : List (Option TaskRow)) → AreTimed slots timed.old.items → AreTimed (clear_at place slots) timed.new.items }
    ensures room { timed.new.room ≡ timed.old.room }
{
    match place {
        None => {}
        Some(place) => timed.clear(place),
    }
}

/// The place of the task with the row's key. None if there is none.
fn place_of_row(tables: &Tables, row: &TaskRow) -> Option<usize>
    ensures { result ≡ place_of (task_has_ids row.now.job row.now.id) tables.now.task_slots }
{
    tables.task_place(&row.job, &row.id)
}

/// Whether more than half of the places are free, of tasks or of runs, whichever has more places.
fn is_sparse(tables: &Tables) -> bool {
    if tables.run_place_count() < tables.task_place_count() {
        tables.has_sparse_tasks()
    } else {
        tables.has_sparse_runs()
    }
}

/// What is kept beside these tables. The only error is out of memory.
fn parts_of(alloc: Global, tables: &Tables) -> Result<(RunParts, TaskParts), NoMemory>
    ensures { IfOk result (λ parts. IsIndexed tables.now.task_slots tables.now.run_slots parts.0.runs parts.1.active parts.1.over parts.0.held parts.1.timed parts.0.queued parts.0.asked parts.1.numbered parts.0.nodes) }
{
    tables.places_known();
    let runs = RunParts::of_tables(alloc, tables)?;
    let tasks = TaskParts::of_tables(alloc, tables, &runs.runs)?;
    Ok((runs, tasks))
}

impl IndexedTables {
    /// These tables with what is kept of them, and without room.
    fn of_parts(tables: Tables, runs: RunParts, tasks: TaskParts) -> IndexedTables
        requires { IsIndexed tables.task_slots tables.run_slots runs.runs tasks.active tasks.over runs.held tasks.timed runs.queued runs.asked tasks.numbered runs.nodes }
        ensures { result.state ≡ tables.state }
    {
        let RunParts {
            runs,
            held,
            queued,
            asked,
            nodes,
        } = runs;
        let TaskParts {
            active,
            over,
            timed,
            numbered,
        } = tasks;
        IndexedTables {
            tables,
            runs,
            active,
            over,
            held,
            timed,
            queued,
            asked,
            numbered,
            nodes,
            room: 0,
        }
    }

    /// These tables, with what is kept beside them, and without room. The only error is out of memory.
    pub fn of_tables(alloc: Global, tables: Tables) -> Result<IndexedTables, NoMemory>
        ensures { IfOk result (λ indexed. indexed.state ≡ tables.state) }
    {
        match parts_of(alloc, &tables) {
            Ok((runs, tasks)) => Ok(IndexedTables::of_parts(tables, runs, tasks)),
            Err(error) => {
                drop(tables);
                Err(error)
            }
        }
    }

    /// The tables.
    pub fn tables(&self) -> &Tables
        ensures { result.now.state ≡ self.now.state }
    {
        &self.tables
    }

    /// A copy without free places and without room. It fails only when out of memory.
    fn closed_up(&self, alloc: Global) -> Result<IndexedTables, NoMemory>
        ensures { IfOk result (λ copy. copy.state ≡ self.now.state) }
    {
        let copy = self.tables.copy()?;
        IndexedTables::of_tables(alloc, copy)
    }

    /// Closes up the free places of tasks and of runs, if there are many, and then leaves no room. It copies the tables: of tasks and
    /// runs fewer than three times the rows that were removed since it last did. It fails only when out of memory, and then they are
    /// as before.
    pub fn close_up(&mut self, alloc: Global) -> Result<(), NoMemory>
        ensures { self.new.state ≡ self.old.state }
    {
        if is_sparse(&self.tables) {
            let copy = self.closed_up(alloc)?;
            drop(mem::replace(self, copy));
        }
        Ok(())
    }

    /// Reserves room for these changes. It fails only when out of memory, and then the tables are as before, without room. The places
    /// of removed tasks and runs stay free until `close_up`.
    pub fn reserve(&mut self, changes: &[Change]) -> Result<(), NoMemory>
        ensures state { self.new.state ≡ self.old.state }
        ensures room { OnOk result (length changes.now ≤ self.new.room) }
    {
        let additional = changes.len();
        self.room = 0;
        self.tables.reserve(changes)?;
        self.runs.reserve(additional)?;
        self.active.reserve(additional)?;
        self.over.reserve(additional)?;
        self.held.reserve(additional)?;
        self.timed.reserve(additional)?;
        self.queued.reserve(additional)?;
        self.asked.reserve(additional)?;
        self.numbered.reserve(additional)?;
        self.nodes.reserve(additional)?;
        self.room = additional;
        Ok(())
    }

    /// Puts a task.
    fn put_task(&mut self, task: Shared<TaskRow>)
        requires { 1 ≤ self.old.room }
        ensures state { self.new.state ≡ apply_change (Change.PutTask task) self.old.state }
        ensures room { self.new.room + 1 ≡ self.old.room }
    {
        let row = task.get();
        let before = place_of_row(&self.tables, row);
        let place = before.unwrap_or(self.tables.task_place_count());
        self.tables.places_known();
        self.tables.keys_known();
        self.held.release_task(&self.tables, &self.runs, place);
        self.active.put(before, row);
        self.over.put(&self.tables, &self.runs, before, row);
        self.timed.put(before, row);
        self.numbered.put(row, place);
        self.tables.apply_one(Change::PutTask(task));
        self.tables.keys_known();
        self.held.hold_task(&self.tables, &self.runs, place);
        self.room -= 1;
    }

    /// Drops the task with this key.
    fn drop_task(&mut self, key: TaskKey)
        requires { 1 ≤ self.old.room }
        ensures state { self.new.state ≡ apply_change (Change.DropTask key) self.old.state }
        ensures room { self.new.room + 1 ≡ self.old.room }
    {
        let before = self.tables.task_place(&key.job, &key.id);
        let place = before.unwrap_or(self.tables.task_place_count());
        self.tables.keys_known();
        self.held.release_task(&self.tables, &self.runs, place);
        clear_active(&mut self.active, before);
        clear_over(&mut self.over, before);
        clear_timed(&mut self.timed, before);
        self.tables.apply_one(Change::DropTask(key));
        self.room -= 1;
    }

    /// Puts a run.
    fn put_run(&mut self, run: Shared<RunRow>)
        requires { 1 ≤ self.old.room }
        ensures state { self.new.state ≡ apply_change (Change.PutRun run) self.old.state }
        ensures room { self.new.room + 1 ≡ self.old.room }
    {
        let row = run.get();
        let before = self.tables.run_place(row.number);
        let place = before.unwrap_or(self.tables.run_place_count());
        let old_task = task_of_run_at(&self.tables, place);
        let new_task = place_of_run(&self.tables, row);
        self.tables.places_known();
        self.tables.keys_known();
        self.held.release_run(&self.tables, place);
        self.runs.add(row, place);
        self.queued.put(before, row);
        self.asked.put(before, row);
        self.nodes.put(&self.tables, row, place);
        self.tables.apply_one(Change::PutRun(run));
        self.tables.places_known();
        self.tables.keys_known();
        self.held.hold_run(&self.tables, place);
        self.over.refresh(&self.tables, &self.runs, old_task);
        self.over.refresh(&self.tables, &self.runs, new_task);
        self.room -= 1;
    }

    /// Drops the run with this number.
    fn drop_run(&mut self, number: u64)
        requires { 1 ≤ self.old.room }
        ensures state { self.new.state ≡ apply_change (Change.DropRun number) self.old.state }
        ensures room { self.new.room + 1 ≡ self.old.room }
    {
        let before = self.tables.run_place(number);
        let place = before.unwrap_or(self.tables.run_place_count());
        let old_task = task_of_run_at(&self.tables, place);
        self.tables.places_known();
        self.tables.keys_known();
        self.held.release_run(&self.tables, place);
        self.queued.clear(before);
        self.asked.clear(before);
        self.tables.apply_one(Change::DropRun(number));
        self.tables.places_known();
        self.over.refresh(&self.tables, &self.runs, old_task);
        self.room -= 1;
    }

    /// Makes a change of other rows than tasks and runs.
    fn change_others(&mut self, change: Change)
        requires room { 1 ≤ self.old.room }
        requires tasks { (slots : List (Option TaskRow)) → tasks_placed change slots ≡ slots }
        requires runs { (slots : List (Option RunRow)) → runs_placed change slots ≡ slots }
        ensures state { self.new.state ≡ apply_change change self.old.state }
        ensures room { self.new.room + 1 ≡ self.old.room }
    {
        self.tables.apply_one(change);
        self.room -= 1;
    }

    /// Makes one change. It does not allocate.
    pub fn apply_one(&mut self, change: Change)
        requires { 1 ≤ self.old.room }
        ensures state { self.new.state ≡ apply_change change self.old.state }
        ensures room { self.new.room + 1 ≡ self.old.room }
    {
        match change {
            Change::PutTask(task) => self.put_task(task),
            Change::DropTask(key) => self.drop_task(key),
            Change::PutRun(run) => self.put_run(run),
            Change::DropRun(number) => self.drop_run(number),
            others => self.change_others(others),
        }
    }

    /// Makes the changes from the first to the last. It does not allocate.
    pub fn apply(&mut self, changes: List<Change>)
        requires { length changes ≤ self.old.room }
        ensures { self.new.state ≡ apply_changes changes self.old.state }
    {
        for change in changes.into_vec() {
            self.apply_one(change);
        }
    }

    /// The first placed task of whose present attempt no run is unended. None if there is none.
    pub fn first_over(&self) -> Option<&TaskRow>
        ensures { option_copied result ≡ find (is_over self.now.state) self.now.state.tasks }
    {
        self.tables.places_known();
        self.over.first(&self.tables)
    }

    /// The first placed task, with no end wanted and no ending in place of its main command's, whose wall time is over at this moment.
    /// None if there is none.
    pub fn first_out_of_time(&self, now: Moment) -> Option<&TaskRow>
        ensures { option_copied result ≡ find (is_overdue now) self.now.state.tasks }
    {
        self.timed.first(&self.tables, now)
    }

    /// The first active task of the job, without instances, that asks for at most so many slots. None if there is none.
    pub fn first_active(&self, job: &Id, most: u8) -> Option<&TaskRow>
        ensures { option_copied result ≡ find (is_active_within job.now most) self.now.state.tasks }
    {
        self.active.first(&self.tables, job, most)
    }

    /// The least number of a queued run. None if no run is queued. It takes constant time, and does not allocate.
    pub fn lowest_queued(&self) -> Option<u64>
        requires { AreNumbered self.now.state }
        ensures { result ≡ lowest_queued self.now.state.runs }
    {
        self.queued.lowest(&self.tables)
    }

    /// The queued run with the lowest number of the nodes at this seat. None if there is none. It goes over the queued runs alone, and
    /// does not allocate.
    pub fn lowest_at(&self, seat: u8) -> Option<&RunRow>
        ensures { option_copied result ≡ lowest_at self.now.state seat }
    {
        self.queued.lowest_at(&self.tables, seat)
    }

    /// The numbers of the taken runs that are asked to stop, in order of adding. It goes over these runs alone. It fails only when out of
    /// memory.
    pub fn asked_runs(&self, alloc: Global) -> Result<List<u64>, NoMemory>
        ensures { IfOk result (λ numbers. numbers ≡ asked_runs self.now.state) }
    {
        self.asked.numbers(alloc, &self.tables)
    }

    /// The runs on the node, and perhaps others: those at the places of the node's runs, the one that was put first last. It does not
    /// allocate.
    pub fn runs_on(&self, node: u64) -> NodeRuns<'_>
        ensures { AreOnNode node result self.now.state.runs }
    {
        self.nodes.on_node(&self.tables, node)
    }

    /// Whether a task of the job whose id is this number is completed, and lets the tasks that depend on it go on. It looks at the tasks
    /// that have this number in the job, found by a hash map, and does not allocate.
    pub fn is_number_satisfied(&self, job: &Id, number: u64) -> bool
        ensures { result ≡ is_number_satisfied self.now.state job.now number }
    {
        self.numbered.is_satisfied(&self.tables, job, number)
    }

    /// Whether a run of the task's present attempt has not ended.
    pub fn is_busy(&self, task: &TaskRow) -> bool
        ensures { result ≡ is_busy self.now.state task.now }
    {
        self.runs.is_busy(&self.tables, task)
    }

    /// The main run of the task's present attempt.
    pub fn main_run(&self, task: &TaskRow) -> Option<&RunRow>
        ensures { option_copied result ≡ main_run self.now.state task.now }
    {
        self.runs.main_run(&self.tables, task)
    }

    /// The slots that the runs of placed tasks hold on the node.
    pub fn held(&self, node: u64) -> u128
        ensures { result ≡ held_slots self.now.state node }
    {
        self.tables.places_known();
        self.held.held(&self.tables, node)
    }
}
