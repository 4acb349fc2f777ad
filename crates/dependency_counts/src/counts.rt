//! The counts of a job.
ghost use Rattle.std.specs.Prelude.{◌≡◌, [], true, false, IfOk, OnErr, IfSome, if◌then◌else◌};
ghost use Rattle.std.specs.Option.{option_copied, option_map};
ghost use Rattle.std.specs.List.{find, position};
ghost use Rattle.dependency_counts.specs.Counts.{Live as LiveTask, has_key, is_live, waiting_at, is_ready_at, is_unblocked_in, after, after_key, first_ready, are_of_job, has_id, has_few_ranges, is_new, with_task, without_task, with_satisfied};

use crate::dependencies::{is_unblocked, waiting_count};
use crate::live::{CountKey, Live};
use crate::steps::Steps;
use bt_base::{Duplicate, Id, NoMemory};
use bt_rows::task::TaskRow;
use std::alloc::Global;
use std::marker::Model;
use std::sync::ledger::Ledger;

/// The live tasks of a job in the order of adding, and whether each satisfies those that depend on it. Contracts see it as the list of
/// these. It is a list that each call scans.
pub struct Counts {
    lives: Vec<Live>,
    next: u64,
}

impl Drop for Counts {
    fn drop(self) {
        let Counts {
            lives: _lives,
            next: _next,
        } = self;
    }
}

impl Model for Counts {
    ghost use Rattle.std.specs.Prelude.{List};
    ghost use Rattle.batch_model.specs.Finding.{Each};
    ghost use Rattle.dependency_counts.specs.Counts.{Live as LiveTask, is_kept};

    ghost Value = { List LiveTask };

    ghost view = { λ counts. counts.lives.items };

    ghost invariant = { λ counts. Each (is_kept counts.next) counts.lives.items };
}

impl Counts {
    /// Counts without tasks. It does not allocate.
    pub fn new(alloc: Global) -> Counts
        ensures { result ≡ [] }
    {
        Counts {
            lives: Vec::new(alloc),
            next: 0,
        }
    }

    /// Whether the key is one of a live task. It does not allocate.
    pub fn is_live(&self, key: CountKey) -> bool
        ensures { result ≡ is_live self.now key }
    {
        self.lives.iter().any(|live| live.key.number == key.number)
    }

    /// Whether each live task is of the job. It does not allocate.
    pub fn are_of_job(&self, job: &Id) -> bool
        ensures { result ≡ are_of_job self.now job.now }
    {
        self.lives.iter().all(|live| live.task.job.same(job))
    }

    /// Whether a live task has the id. It does not allocate.
    pub fn has_id(&self, id: &Id) -> bool
        ensures { result ≡ has_id self.now id.now }
    {
        self.lives.iter().any(|live| live.task.id.same(id))
    }

    /// Adds a task, which does not satisfy, and returns its key. The only error is out of memory, also after 2^64 - 1 tasks were
    /// added; it changes nothing.
    pub fn add_task(&mut self, task: &TaskRow) -> Result<CountKey, NoMemory>
        requires one_job { are_of_job self.old task.now.job ≡ true }
        requires new_id { has_id self.old task.now.id ≡ false }
        requires few_ranges { has_few_ranges task.now ≡ true }
        ensures new_key { IfOk result (λ key. is_new self.old key ≡ true) }
        ensures ok { IfOk result (λ key. self.new ≡ with_task self.old key task.now) }
        ensures err { OnErr result (self.new ≡ self.old) }
    {
        let key = CountKey { number: self.next };
        let Some(next) = self.next.checked_add(1) else {
            return Err(NoMemory);
        };
        let task = task.copy()?;
        self.lives.push(Live {
            key,
            task,
            satisfies: false,
        })?;
        self.next = next;
        Ok(key)
    }

    /// Removes a task. It does not allocate.
    pub fn remove_task(&mut self, key: CountKey)
        requires { is_live self.old key ≡ true }
        ensures { self.new ≡ without_task self.old key }
    {
        remove_key(&mut self.lives, key);
    }

    /// Records whether the task satisfies those that depend on it. It does not allocate.
    pub fn set_satisfied<L: Ledger>(&mut self, key: CountKey, yes: bool, steps: &mut Steps<L>)
        requires { is_live self.old key ≡ true }
        ensures { self.new ≡ with_satisfied self.old key yes }
    {
        set_satisfied(&mut self.lives, key, yes, steps);
    }

    /// How many of the ids, and of the numbers of the ranges, that the task names are not satisfied. It does not allocate.
    pub fn waiting(&self, key: CountKey) -> u64
        requires { is_live self.now key ≡ true }
        ensures { result ≡ waiting_at self.now key }
    {
        match find_key(&self.lives, key) {
            None => 0,
            Some(live) => waiting_count(&self.lives, &live.task),
        }
    }

    /// Whether all that the task names is satisfied. It does not allocate.
    pub fn is_ready(&self, key: CountKey) -> bool
        requires { is_live self.now key ≡ true }
        ensures { result ≡ is_ready_at self.now key }
    {
        match find_key(&self.lives, key) {
            None => false,
            Some(live) => is_unblocked(&self.lives, live),
        }
    }

    /// The first ready task after the one with this key, or the first of all without one, in the order of adding. It does not
    /// allocate.
    pub fn first_ready_after(&self, key: Option<CountKey>) -> Option<CountKey>
        requires { IfSome key (λ one. is_live self.now one ≡ true) }
        ensures { result ≡ first_ready self.now key }
    {
        match key {
            None => first_ready(&self.lives, &self.lives),
            Some(key) => first_ready(&self.lives, after_key(&self.lives, key)),
        }
    }
}

/// The live task with this key.
fn find_key(lives: &[Live], key: CountKey) -> Option<&Live>
    ensures { option_copied result ≡ find (has_key key) lives.now }
{
    lives.iter().find(|live| live.key.number == key.number)
}

/// The place of the live task with this key.
fn place_of(lives: &[Live], key: CountKey) -> Option<usize>
    ensures { result ≡ position (has_key key) lives.now }
{
    lives.iter().position(|live| live.key.number == key.number)
}

/// The tasks after the one with this key.
fn after_key(lives: &[Live], key: CountKey) -> &[Live]
    ensures { result.now ≡ after_key key lives.now }
{
    match place_of(lives, key) {
        None => &[],
        Some(place) => &lives[place + 1..],
    }
}

/// The key of the first of some tasks that is ready among the live ones.
fn first_ready(lives: &[Live], tasks: &[Live]) -> Option<CountKey>
    ensures { result ≡ option_map (λ (live : LiveTask). live.key) (find (is_unblocked_in lives.now) tasks.now) }
{
    match tasks.iter().find(|live| is_unblocked(lives, live)) {
        None => None,
        Some(live) => Some(live.key),
    }
}

/// Removes the tasks with this key.
fn remove_key(lives: &mut Vec<Live>, key: CountKey)
    ensures { lives.new.items ≡ without_task lives.old.items key }
{
    lives.retain(|live| live.key.number != key.number);
}

/// Records in the task with this key whether it satisfies, and counts a step for each task that is looked at.
fn set_satisfied<L: Ledger>(lives: &mut Vec<Live>, key: CountKey, yes: bool, steps: &mut Steps<L>)
    ensures { lives.new.items ≡ with_satisfied lives.old.items key yes }
{
    for live in lives.iter_mut() {
        steps.tick();
        set_in(live, key, yes);
    }
}

/// Records whether the task satisfies, if it has this key.
fn set_in(live: &mut Live, key: CountKey, yes: bool)
    ensures { live.new ≡ (if has_key key live.old then record live.old { satisfies = yes } else live.old) }
{
    if live.key.number == key.number {
        live.satisfies = yes;
    }
}
