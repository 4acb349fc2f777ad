//! The places of tasks and runs, which stay the same until free places are closed up; and the numbers of rows.
ghost use Rattle.std.specs.Prelude.{◌≡◌, length, map, Some, OnOk, OnErr};
ghost use Rattle.std.specs.Option.{option_copied};
ghost use Rattle.kept_table.specs.Slots.{AreApart, place_of, slot_at, rows, is_sparse};
ghost use Rattle.bt_rows.specs.Keys.{task_has_ids, run_has_number};
ghost use Rattle.bt_rows.specs.Texts.{run_text, task_text};

use crate::run::RunRow;
use crate::tables::Tables;
use crate::task::TaskRow;
use bt_base::{Id, NoMemory};
use kept_table::KeyText;

impl Tables {
    /// The number of pools.
    pub fn pool_count(&self) -> usize
        ensures { result ≡ length self.now.state.pools }
    {
        self.pools.row_count()
    }

    /// The number of nodes.
    pub fn node_count(&self) -> usize
        ensures { result ≡ length self.now.state.nodes }
    {
        self.nodes.row_count()
    }

    /// The number of jobs.
    pub fn job_count(&self) -> usize
        ensures { result ≡ length self.now.state.jobs }
    {
        self.jobs.row_count()
    }

    /// The number of tasks of all jobs.
    pub fn task_count(&self) -> usize
        ensures { result ≡ length self.now.state.tasks }
    {
        self.tasks.row_count()
    }

    /// The place of the task of the job with the first id that has the second id, but for case. None if there is none. It does not
    /// allocate.
    #[tactic(auto, using(crate::proofs::FoundByText::place_by_ids))]
    pub fn task_place(&self, job: &Id, id: &Id) -> Option<usize>
        ensures { result ≡ place_of (task_has_ids job.now id.now) self.now.task_slots }
    {
        self.tasks.place_of_text(&KeyText::of_ids(job, id))
    }

    /// The place of the run with this number. None if there is none. It does not allocate.
    pub fn run_place(&self, number: u64) -> Option<usize>
        ensures { result ≡ place_of (run_has_number number) self.now.run_slots }
    {
        self.runs.place_of(&number)
    }

    /// The task at this place. None if the place is free, or is not one of the tables'.
    pub fn task_at(&self, place: usize) -> Option<&TaskRow>
        ensures { option_copied result ≡ slot_at self.now.task_slots place }
    {
        self.tasks.shared_at(place)
    }

    /// The run at this place. None if the place is free, or is not one of the tables'.
    pub fn run_at(&self, place: usize) -> Option<&RunRow>
        ensures { option_copied result ≡ slot_at self.now.run_slots place }
    {
        self.runs.shared_at(place)
    }

    /// The number of places of tasks, with the free ones.
    pub fn task_place_count(&self) -> usize
        ensures { result ≡ length self.now.task_slots }
    {
        self.tasks.place_count()
    }

    /// The number of places of runs, with the free ones.
    pub fn run_place_count(&self) -> usize
        ensures { result ≡ length self.now.run_slots }
    {
        self.runs.place_count()
    }

    /// Tells callers that the tasks and the runs of the state are those in the places. It does nothing at run time.
    pub fn places_known(&self)
        ensures tasks { rows self.now.task_slots ≡ self.now.state.tasks }
        ensures runs { rows self.now.run_slots ≡ self.now.state.runs }
    {
        let _ = &self.tasks;
    }

    /// Tells callers that no two tasks and no two runs have the same key. It does nothing at run time.
    pub fn keys_known(&self)
        ensures tasks { AreApart task_text self.now.task_slots }
        ensures runs { AreApart run_text self.now.run_slots }
    {
        let _tasks = self.tasks.slots();
        let _runs = self.runs.slots();
    }

    /// Whether more than half of the places of tasks are free.
    pub fn has_sparse_tasks(&self) -> bool
        ensures { result ≡ is_sparse self.now.task_slots }
    {
        self.tasks.is_sparse()
    }

    /// Whether more than half of the places of runs are free.
    pub fn has_sparse_runs(&self) -> bool
        ensures { result ≡ is_sparse self.now.run_slots }
    {
        self.runs.is_sparse()
    }

    /// Closes up the free places of tasks, and leaves no room for changes. It fails only when out of memory, and then all places
    /// are as before.
    pub fn close_up_tasks(&mut self) -> Result<(), NoMemory>
        ensures state { self.new.state ≡ self.old.state }
        ensures closed { OnOk result (self.new.task_slots ≡ map (λ row. Some row) self.old.state.tasks) }
        ensures unchanged { OnErr result (self.new.task_slots ≡ self.old.task_slots) }
        ensures runs { self.new.run_slots ≡ self.old.run_slots }
    {
        self.room = 0;
        self.tasks.close_up(0)
    }

    /// Closes up the free places of runs, and leaves no room for changes. It fails only when out of memory, and then all places are
    /// as before.
    pub fn close_up_runs(&mut self) -> Result<(), NoMemory>
        ensures state { self.new.state ≡ self.old.state }
        ensures closed { OnOk result (self.new.run_slots ≡ map (λ row. Some row) self.old.state.runs) }
        ensures unchanged { OnErr result (self.new.run_slots ≡ self.old.run_slots) }
        ensures tasks { self.new.task_slots ≡ self.old.task_slots }
    {
        self.room = 0;
        self.runs.close_up(0)
    }
}
