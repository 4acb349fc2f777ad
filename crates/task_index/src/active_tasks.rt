//! The active tasks of each job.
ghost use Rattle.std.specs.Prelude.{◌≡◌, ◌+◌, ◌<◌, ◌≤◌, List, [], Option, Some, None, length, take, set, IfOk, IfSome, OnOk};
ghost use Rattle.std.specs.List.{find};
ghost use Rattle.std.specs.Option.{option_copied};
ghost use Rattle.kept_table.specs.Keys.{id_text};
ghost use Rattle.kept_table.specs.Slots.{place_of, put_at};
ghost use Rattle.bt_rows.specs.Keys.{same_task};
ghost use Rattle.batch_model.specs.Variants.{TaskRow};
ghost use Rattle.task_index.specs.Active.{AreItemsOf, is_active_single, is_active_within, active_rank};

use bt_base::{Id, NoMemory};
use bt_rows::tables::Tables;
use bt_rows::task::{TaskRow, TaskStage};
use first_tree::NO_RANK;
use kept_table::KeyText;
use ranked_groups::RankedGroups;
use std::alloc::Global;
use std::marker::Model;

/// The active tasks of each job that have no instances, by the slots that they ask for.
///
/// Contracts see an item for each place of the tables' tasks, and beside them the room: how many more tasks can be put without allocating.
pub struct ActiveTasks {
    groups: RankedGroups,
}

impl Drop for ActiveTasks {
    fn drop(self) {
        let ActiveTasks { groups: _groups } = self;
    }
}

impl Model for ActiveTasks {
    ghost use Rattle.ranked_groups.specs.Items.{GroupsView};

    ghost Value = { GroupsView };

    ghost view = { λ r. r.groups };
}

/// Whether the task is active, and on one node.
fn is_active_single(task: &TaskRow) -> bool
    ensures { result ≡ is_active_single task.now }
{
    task.stage == TaskStage::Active && task.settings.is_single()
}

/// The slots that such a task asks for, and no rank of another one.
fn active_rank(task: &TaskRow) -> u64
    ensures { result ≡ active_rank task.now }
{
    if is_active_single(task) {
        u64::from(task.slots)
    } else {
        NO_RANK
    }
}

/// The group of the task: the text of its job's id.
fn group_of(task: &TaskRow) -> KeyText
    ensures { result ≡ id_text task.now.job }
{
    KeyText::of_id(&task.job)
}

impl ActiveTasks {
    /// No tasks. It does not allocate.
    pub fn new(alloc: Global) -> ActiveTasks
        ensures { AreItemsOf [] result.items }
    {
        ActiveTasks {
            groups: RankedGroups::new(alloc),
        }
    }

    /// Makes room for this many more tasks. The only error is out of memory.
    pub fn reserve(&mut self, additional: usize) -> Result<(), NoMemory>
        ensures items { self.new.items ≡ self.old.items }
        ensures room { OnOk result (additional ≤ self.new.room) }
    {
        self.groups.reserve(additional)
    }

    /// Follows a task that is put at the place of the one with its key, or else at the end. It does not allocate.
    pub fn put(&mut self, before: Option<usize>, task: &TaskRow)
        requires room { 0 < self.old.room }
        requires place { IfSome before (λ place. place < length self.old.items) }
        ensures items { (slots : List (Option TaskRow)) → before ≡ place_of (λ old. same_task old task.now) slots → AreItemsOf slots self.old.items → AreItemsOf (put_at before task.now slots) self.new.items }
        ensures room { self.old.room ≤ self.new.room + 1 }
    {
        match before {
            None => {
                let group = group_of(task);
                self.groups.push(group.as_slice(), active_rank(task));
            }
            Some(place) => self.groups.set(place, active_rank(task)),
        }
    }

    /// Follows the task at this place, or the free place, after those before it. It does not allocate.
    fn push_next(&mut self, tables: &Tables, place: usize)
        requires place { place < length tables.now.task_slots }
        requires room { 0 < self.old.room }
        ensures { AreItemsOf (take place tables.now.task_slots) self.old.items → AreItemsOf (take (place + 1) tables.now.task_slots) self.new.items }
    {
        match tables.task_at(place) {
            None => self.groups.push(&[], NO_RANK),
            Some(task) => {
                let group = group_of(task);
                self.groups.push(group.as_slice(), active_rank(task));
            }
        }
    }

    /// The tasks of the tables. The only error is out of memory.
    pub fn of_tables(alloc: Global, tables: &Tables) -> Result<ActiveTasks, NoMemory>
        ensures { IfOk result (λ active. AreItemsOf tables.now.task_slots active.items) }
    {
        let mut active = ActiveTasks::new(alloc);
        for place in 0..tables.task_place_count() {
            active.reserve(1)?;
            active.push_next(tables, place);
        }
        Ok(active)
    }

    /// Follows a task that is removed from this place. It does not allocate.
    pub fn clear(&mut self, place: usize)
        requires { place < length self.old.items }
        ensures items { (slots : List (Option TaskRow)) → AreItemsOf slots self.old.items → AreItemsOf (set slots place None) self.new.items }
        ensures room { self.new.room ≡ self.old.room }
    {
        self.groups.set(place, NO_RANK);
    }

    /// The first active task of the job, without instances, that asks for at most so many slots. None if there is none. It does not allocate.
    pub fn first<'a>(&self, tables: &'a Tables, job: &Id, most: u8) -> Option<&'a TaskRow>
        requires { AreItemsOf tables.now.task_slots self.now.items }
        ensures { option_copied result ≡ find (is_active_within job.now most) tables.now.state.tasks }
    {
        tables.places_known();
        let group = KeyText::of_id(job);
        match self.groups.first(group.as_slice(), u64::from(most)) {
            None => None,
            Some(place) => tables.task_at(place),
        }
    }
}
