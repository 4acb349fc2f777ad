//! The tables, and changes of them. Rows are found by their keys in `lookup`.
ghost use Rattle.std.specs.Prelude.{◌≡◌, ◌≤◌, ◌+◌, length, OnOk, OnErr, IfOk};
ghost use Rattle.kept_table.specs.Slots.{rows};
ghost use Rattle.bt_rows.specs.State.{State, empty_state};
ghost use Rattle.bt_rows.specs.Changes.{apply_change, apply_changes, tasks_placed, runs_placed};

use crate::job::JobRow;
use crate::node::NodeRow;
use crate::pool::PoolRow;
use crate::prep::{PrepKey, PrepRow};
use crate::run::RunRow;
use crate::sample::{SampleKey, SampleRow};
use crate::scale::ScaleRow;
use crate::task::{TaskKey, TaskRow};
use bt_base::{Id, List, NoMemory, Shared};
use kept_table::{Keyed, Rows, Table};
use std::alloc::Global;
use std::marker::Model;

/// The rows of a service, each kind in order of adding.
///
/// Contracts see them as a `State`, and beside it the tasks and the runs by their places, and the room: the number of changes
/// that may be applied without an allocation.
pub struct Tables {
    pub(crate) pools: Table<Shared<PoolRow>>,
    pub(crate) nodes: Table<Shared<NodeRow>>,
    pub(crate) jobs: Table<Shared<JobRow>>,
    pub(crate) tasks: Table<Shared<TaskRow>>,
    pub(crate) runs: Table<Shared<RunRow>>,
    pub(crate) preps: Table<Shared<PrepRow>>,
    pub(crate) samples: Table<Shared<SampleRow>>,
    pub(crate) scales: Table<Shared<ScaleRow>>,
    next_node: u64,
    next_run: u64,
    moment: u64,
    pub(crate) room: usize,
}

impl Drop for Tables {
    fn drop(self) {
        let Tables {
            pools: _pools,
            nodes: _nodes,
            jobs: _jobs,
            tasks: _tasks,
            runs: _runs,
            preps: _preps,
            samples: _samples,
            scales: _scales,
            next_node: _next_node,
            next_run: _next_run,
            moment: _moment,
            room: _room,
        } = self;
    }
}

impl Model for Tables {
    ghost use Rattle.kept_table.specs.Slots.{rows};
    ghost use Rattle.bt_rows.specs.State.{StateWithRoom, State};

    ghost Value = { StateWithRoom };

    ghost use Rattle.bt_rows.specs.Room.{HasRoom};

    ghost view = { λ t. record {
      state = record { pools = rows t.pools.slots; nodes = rows t.nodes.slots; jobs = rows t.jobs.slots; tasks = rows t.tasks.slots; runs = rows t.runs.slots; preps = rows t.preps.slots; samples = rows t.samples.slots; scales = rows t.scales.slots; next_node = t.next_node; next_run = t.next_run; moment = t.moment };
      task_slots = t.tasks.slots;
      run_slots = t.runs.slots;
      room = t.room;
    } };

    ghost invariant = { HasRoom };
}

/// One change of the tables. A row that is put replaces the one with its key, or else goes to the end; a dropped key that no
/// row has changes nothing.
#[derive(Drop)]
pub enum Change {
    /// Puts a pool.
    PutPool(Shared<PoolRow>),
    /// Drops the pool with this id.
    DropPool(Id),
    /// Puts a node.
    PutNode(Shared<NodeRow>),
    /// Drops the node with this number.
    DropNode(u64),
    /// Puts a job.
    PutJob(Shared<JobRow>),
    /// Drops the job with this id.
    DropJob(Id),
    /// Puts a task.
    PutTask(Shared<TaskRow>),
    /// Drops the task with this key.
    DropTask(TaskKey),
    /// Puts a run.
    PutRun(Shared<RunRow>),
    /// Drops the run with this number.
    DropRun(u64),
    /// Puts a preparation.
    PutPrep(Shared<PrepRow>),
    /// Drops the preparation with this key.
    DropPrep(PrepKey),
    /// Puts a sample.
    PutSample(Shared<SampleRow>),
    /// Drops the sample with this key.
    DropSample(SampleKey),
    /// Puts the scaling of a pool.
    PutScale(Shared<ScaleRow>),
    /// Drops the scaling of the pool with this id.
    DropScale(Id),
    /// Sets the numbers of the next node and of the next run.
    Counters(u64, u64),
    /// Sets the last moment, in milliseconds since 1970.
    Now(u64),
}

/// Two tables.
type Both<A, B> = (Table<Shared<A>>, Table<Shared<B>>);

/// Copies of two tables, without room. It fails only when out of memory.
fn copy_both<A: Keyed + Drop, B: Keyed + Drop>(
    first: &Table<Shared<A>>,
    second: &Table<Shared<B>>,
) -> Result<Both<A, B>, NoMemory>
    ensures first { IfOk result (λ copies. rows copies.0.slots ≡ rows first.now.slots) }
    ensures second { IfOk result (λ copies. rows copies.1.slots ≡ rows second.now.slots) }
{
    let first = first.copy()?;
    let second = second.copy()?;
    Ok((first, second))
}

impl Tables {
    /// Tables without rows, with the counters 1 and the moment 0. It does not allocate.
    pub fn empty(alloc: Global) -> Tables
        ensures { result.state ≡ empty_state }
    {
        Tables {
            pools: Table::new(alloc),
            nodes: Table::new(alloc),
            jobs: Table::new(alloc),
            tasks: Table::new(alloc),
            runs: Table::new(alloc),
            preps: Table::new(alloc),
            samples: Table::new(alloc),
            scales: Table::new(alloc),
            next_node: 1,
            next_run: 1,
            moment: 0,
            room: 0,
        }
    }

    /// The pools, in order of adding.
    pub fn pools(&self) -> Rows<'_, PoolRow>
        ensures { result ≡ self.now.state.pools }
    {
        self.pools.rows()
    }

    /// The nodes, in order of adding.
    pub fn nodes(&self) -> Rows<'_, NodeRow>
        ensures { result ≡ self.now.state.nodes }
    {
        self.nodes.rows()
    }

    /// The jobs, in order of adding.
    pub fn jobs(&self) -> Rows<'_, JobRow>
        ensures { result ≡ self.now.state.jobs }
    {
        self.jobs.rows()
    }

    /// The tasks of all jobs, in order of adding.
    pub fn tasks(&self) -> Rows<'_, TaskRow>
        ensures { result ≡ self.now.state.tasks }
    {
        self.tasks.rows()
    }

    /// The runs, in order of making.
    pub fn runs(&self) -> Rows<'_, RunRow>
        ensures { result ≡ self.now.state.runs }
    {
        self.runs.rows()
    }

    /// The preparations of jobs on nodes, in order of adding.
    pub fn preps(&self) -> Rows<'_, PrepRow>
        ensures { result ≡ self.now.state.preps }
    {
        self.preps.rows()
    }

    /// The samples, in order of adding.
    pub fn samples(&self) -> Rows<'_, SampleRow>
        ensures { result ≡ self.now.state.samples }
    {
        self.samples.rows()
    }

    /// The scalings of pools, in order of adding.
    pub fn scales(&self) -> Rows<'_, ScaleRow>
        ensures { result ≡ self.now.state.scales }
    {
        self.scales.rows()
    }

    /// The greatest moment that was handed in so far, in milliseconds since 1970.
    pub fn moment(&self) -> u64
        ensures { result ≡ self.now.state.moment }
    {
        self.moment
    }

    /// The number of the next node that is made.
    pub fn next_node(&self) -> u64
        ensures { result ≡ self.now.state.next_node }
    {
        self.next_node
    }

    /// The number of the next run that is made.
    pub fn next_run(&self) -> u64
        ensures { result ≡ self.now.state.next_run }
    {
        self.next_run
    }

    /// Copies of the tables of pools and nodes, and of those of jobs and tasks. It fails only when out of memory.
    fn copy_jobs(&self) -> Result<(Both<PoolRow, NodeRow>, Both<JobRow, TaskRow>), NoMemory>
        ensures pools { IfOk result (λ copies. rows copies.0.0.slots ≡ self.now.state.pools) }
        ensures nodes { IfOk result (λ copies. rows copies.0.1.slots ≡ self.now.state.nodes) }
        ensures jobs { IfOk result (λ copies. rows copies.1.0.slots ≡ self.now.state.jobs) }
        ensures tasks { IfOk result (λ copies. rows copies.1.1.slots ≡ self.now.state.tasks) }
    {
        let nodes = copy_both(&self.pools, &self.nodes)?;
        let tasks = copy_both(&self.jobs, &self.tasks)?;
        Ok((nodes, tasks))
    }

    /// Copies of the tables of runs and preparations, and of those of samples and scalings. It fails only when out of memory.
    fn copy_runs(&self) -> Result<(Both<RunRow, PrepRow>, Both<SampleRow, ScaleRow>), NoMemory>
        ensures runs { IfOk result (λ copies. rows copies.0.0.slots ≡ self.now.state.runs) }
        ensures preps { IfOk result (λ copies. rows copies.0.1.slots ≡ self.now.state.preps) }
        ensures samples { IfOk result (λ copies. rows copies.1.0.slots ≡ self.now.state.samples) }
        ensures scales { IfOk result (λ copies. rows copies.1.1.slots ≡ self.now.state.scales) }
    {
        let preps = copy_both(&self.runs, &self.preps)?;
        let scales = copy_both(&self.samples, &self.scales)?;
        Ok((preps, scales))
    }

    /// A copy of the tables, without room. It fails only when out of memory.
    pub fn copy(&self) -> Result<Tables, NoMemory>
        ensures { IfOk result (λ copy. copy.state ≡ self.now.state) }
    {
        let ((pools, nodes), (jobs, tasks)) = self.copy_jobs()?;
        let ((runs, preps), (samples, scales)) = self.copy_runs()?;
        Ok(Tables {
            pools,
            nodes,
            jobs,
            tasks,
            runs,
            preps,
            samples,
            scales,
            next_node: self.next_node,
            next_run: self.next_run,
            moment: self.moment,
            room: 0,
        })
    }

    /// Reserves room for these changes. The places of tasks and runs stay. It fails only when out of memory, and then the tables
    /// are as before.
    pub fn reserve(&mut self, changes: &[Change]) -> Result<(), NoMemory>
        ensures state { self.new.state ≡ self.old.state }
        ensures tasks { self.new.task_slots ≡ self.old.task_slots }
        ensures runs { self.new.run_slots ≡ self.old.run_slots }
        ensures room { OnOk result (length changes.now ≤ self.new.room) }
    {
        let changes = changes.len();
        self.room = 0;
        self.pools.reserve(changes)?;
        self.nodes.reserve(changes)?;
        self.jobs.reserve(changes)?;
        self.tasks.add_room(changes)?;
        self.runs.add_room(changes)?;
        self.preps.reserve(changes)?;
        self.samples.reserve(changes)?;
        self.scales.reserve(changes)?;
        self.room = changes;
        Ok(())
    }

    /// Makes one change. It does not allocate.
    pub fn apply_one(&mut self, change: Change)
        requires { 1 ≤ self.old.room }
        ensures state { self.new.state ≡ apply_change change self.old.state }
        ensures tasks { self.new.task_slots ≡ tasks_placed change self.old.task_slots }
        ensures runs { self.new.run_slots ≡ runs_placed change self.old.run_slots }
        ensures room { self.new.room + 1 ≡ self.old.room }
    {
        self.room -= 1;
        match change {
            Change::PutPool(row) => self.pools.put(row),
            Change::DropPool(key) => self.pools.drop_by_key(&key),
            Change::PutNode(row) => self.nodes.put(row),
            Change::DropNode(key) => self.nodes.drop_by_key(&key),
            Change::PutJob(row) => self.jobs.put(row),
            Change::DropJob(key) => self.jobs.drop_by_key(&key),
            Change::PutTask(row) => self.tasks.put(row),
            Change::DropTask(key) => self.tasks.drop_by_key(&key),
            Change::PutRun(row) => self.runs.put(row),
            Change::DropRun(key) => self.runs.drop_by_key(&key),
            Change::PutPrep(row) => self.preps.put(row),
            Change::DropPrep(key) => self.preps.drop_by_key(&key),
            Change::PutSample(row) => self.samples.put(row),
            Change::DropSample(key) => self.samples.drop_by_key(&key),
            Change::PutScale(row) => self.scales.put(row),
            Change::DropScale(key) => self.scales.drop_by_key(&key),
            Change::Counters(node, run) => {
                self.next_node = node;
                self.next_run = run;
            }
            Change::Now(moment) => self.moment = moment,
        }
    }

    /// Makes the changes from the first to the last. It does not allocate.
    pub fn apply(&mut self, changes: List<Change>)
        requires { length changes ≤ self.old.room }
        ensures { self.new.state ≡ apply_changes changes self.old.state }
    {
        for change in changes.into_vec() {
            self.apply_one(change);
        }
    }
}
