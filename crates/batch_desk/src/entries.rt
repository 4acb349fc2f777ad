//! The calls of a journal as they are stored.
ghost use Rattle.std.specs.Prelude.{◌≡◌, ◌+◌, ◌<◌, ◌≤◌, [], ◌∷◌, ◌++◌, length, nat_lt, OnOk, vec_len, vec_capacity, slice_get};
ghost use Rattle.std.specs.Option.{option_map};
ghost use Rattle.batch_desk.specs.History.{fault_count};
ghost use Rattle.batch_desk.specs.Entries.{entry_of, faults_at, faults_in, mark_at, outcome_of, refusals_in};

use crate::entry::{Entry, Mark, Stop};
use bt_base::{Moment, NoMemory};
use bt_rows::event::Event;
use bt_rows::refusal::Refusal;
use std::alloc::Global;
use std::marker::Model;

/// The most calls: the place of a refusal is stored in 32 bits.
const MOST_CALLS: usize = 4_294_967_295;

/// What became of a call, without its refusal.
#[derive(Clone, Copy, Debug, PartialEq, Eq)]
enum Outcome {
    /// It was made, and was not refused.
    Made,
    /// It was made, and refused.
    Refused,
    /// It was not saved, and left undone.
    KeeperFault,
}

/// A call without its refusal. Its small fields stand together, so that there are no gaps between them.
struct StoredCall {
    moment: Moment,
    event: Event,
    dues: u64,
    /// The place of its refusal, if it was refused; else how many calls before it were refused.
    refusal: u32,
    outcome: Outcome,
    stop: Stop,
}

impl Drop for StoredCall {
    fn drop(self) {
        let StoredCall {
            moment: _moment,
            event: _event,
            dues: _dues,
            refusal: _refusal,
            outcome: _outcome,
            stop: _stop,
        } = self;
    }
}

/// An entry of a journal, of which the event stays in the journal. The fields are those of `Entry`.
#[derive(Clone, Copy)]
pub struct EntryRef<'a> {
    /// The moment that was given, in milliseconds since 1970.
    pub moment: Moment,
    /// What was asked.
    pub event: &'a Event,
    /// What became of the event.
    pub mark: Mark,
    /// How many due steps were made after the event.
    pub dues: u64,
    /// Why no more due steps were made.
    pub stop: Stop,
}

/// The entries of a journal, oldest first. Since few calls are refused, the refusals stand in a list of their own.
///
/// Contracts see the list of the entries, and beside it the room: how many more can be pushed without allocating.
pub struct Entries {
    calls: Vec<StoredCall>,
    refusals: Vec<Refusal>,
    room: usize,
}

impl Drop for Entries {
    fn drop(self) {
        let Entries {
            calls: _calls,
            refusals: _refusals,
            room: _room,
        } = self;
    }
}

impl Model for Entries {
    ghost use Rattle.batch_desk.specs.Entries.{EntriesView, HasRoom, HaveRefusals, entries_of};

    ghost Value = { EntriesView };

    ghost view = { λ e. record { items = entries_of e.refusals.items e.calls.items; room = e.room } };

    ghost invariant = { λ e. HaveRefusals e.refusals.items e.calls.items × HasRoom e.calls e.refusals e.room };
}

/// What became of a call, without its refusal.
fn outcome_of(mark: Mark) -> Outcome
    ensures { result ≡ outcome_of mark }
{
    match mark {
        Mark::Done(None) => Outcome::Made,
        Mark::Done(Some(_)) => Outcome::Refused,
        Mark::KeeperFault => Outcome::KeeperFault,
    }
}

/// Adds the refusal to the others, if the call was refused. It cannot run out of memory.
fn add_refusal(refusals: &mut Vec<Refusal>, mark: Mark)
    requires { vec_len refusals.old < vec_capacity refusals.old }
    ensures items { refusals.new.items ≡ refusals.old.items ++ refusals_in mark }
    ensures capacity { vec_capacity refusals.new ≡ vec_capacity refusals.old }
    ensures few { vec_len refusals.new ≤ vec_len refusals.old + 1 }
{
    match mark {
        Mark::Done(Some(refusal)) => refusals.push_reserved(refusal),
        Mark::Done(None) | Mark::KeeperFault => {}
    }
}

/// What became of a stored call, by all refusals.
fn mark_at(refusals: &[Refusal], call: &StoredCall) -> Mark
    ensures { result ≡ mark_at refusals.now call.now }
{
    match call.outcome {
        Outcome::Made => Mark::Done(None),
        Outcome::Refused => {
            let refusal = refusals.get(call.refusal as usize);
            Mark::Done(Some(refusal.copied().unwrap_or(Refusal::UnreadableBody)))
        }
        Outcome::KeeperFault => Mark::KeeperFault,
    }
}

/// Whether the call stopped at a keeper fault.
fn is_fault(call: &StoredCall) -> bool
    ensures { result ≡ nat_lt 0 (faults_at call.now) }
{
    match call.stop {
        Stop::KeeperFault => true,
        Stop::Rest | Stop::Memory => false,
    }
}

/// Whether any of the calls stopped at a keeper fault.
fn any_fault(calls: &[StoredCall]) -> bool
    ensures { result ≡ nat_lt 0 (faults_in calls.now) }
{
    for call in calls {
        if is_fault(call) {
            return true;
        }
    }
    false
}

impl Entries {
    /// No entries. It does not allocate.
    pub(crate) fn new(alloc: Global) -> Entries
        ensures items { result.items ≡ [] }
    {
        Entries {
            calls: Vec::new(alloc),
            refusals: Vec::new(alloc),
            room: 0,
        }
    }

    /// The number of entries.
    pub fn len(&self) -> usize
        ensures { result ≡ length self.now.items }
    {
        self.calls.len()
    }

    /// The entry at this place, from 0 on. None if there are not as many.
    pub fn get(&self, at: usize) -> Option<EntryRef<'_>>
        ensures { option_map entry_of result ≡ slice_get self.now.items at }
    {
        let call = self.calls.get(at)?;
        Some(EntryRef {
            moment: call.moment,
            event: &call.event,
            mark: mark_at(&self.refusals, call),
            dues: call.dues,
            stop: call.stop,
        })
    }

    /// Whether any entry records a keeper fault.
    pub fn has_faults(&self) -> bool
        ensures { result ≡ nat_lt 0 (fault_count self.now.items) }
    {
        any_fault(&self.calls)
    }

    /// Makes room for one more. The only error is out of memory, also where there are 4,294,967,295 entries.
    pub(crate) fn reserve(&mut self) -> Result<(), NoMemory>
        ensures items { self.new.items ≡ self.old.items }
        ensures room { OnOk result (0 < self.new.room) }
    {
        if self.calls.len() >= MOST_CALLS {
            return Err(NoMemory);
        }
        self.calls.reserve(1)?;
        self.refusals.reserve(1)?;
        self.room = 1;
        Ok(())
    }

    /// Adds an entry at the end. It cannot run out of memory.
    pub(crate) fn push(&mut self, entry: Entry)
        requires { 0 < self.old.room }
        ensures { self.new.items ≡ self.old.items ++ entry ∷ [] }
    {
        let refusal = self.refusals.len() as u32;
        add_refusal(&mut self.refusals, entry.mark);
        self.calls.push_reserved(StoredCall {
            moment: entry.moment,
            event: entry.event,
            dues: entry.dues,
            refusal,
            outcome: outcome_of(entry.mark),
            stop: entry.stop,
        });
        self.room -= 1;
    }
}
