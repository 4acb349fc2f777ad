//! The desk and its journal.
ghost use Rattle.std.specs.Prelude.{◌≡◌, ◌≤◌, None, IfOk, IfErr, IfSome, OnOk, OnErr, nat_lt, length};
ghost use Rattle.std.specs.Option.{option_copied};
ghost use Rattle.bt_rows.specs.Changes.{apply_changes};
ghost use Rattle.batch_model.specs.Opening.{opening};
ghost use Rattle.batch_model.specs.Sound.{IsSound};
ghost use Rattle.run_index.specs.Queued.{lowest_queued};
ghost use Rattle.run_index.specs.Seats.{asked_runs, lowest_at};
ghost use Rattle.batch_keeper.specs.Told.{FailsWithCause};
ghost use Rattle.table_reads.specs.Reads.{read_reply};
ghost use Rattle.batch_desk.specs.Kept.{Tells};
ghost use Rattle.batch_desk.specs.Laws.{KeepsLaws};
ghost use Rattle.batch_desk.specs.History.{IsLegal, after_all, fault_count};
ghost use Rattle.batch_desk.specs.Answers.{AnswersCall, IsInOrder, HasSameOpening, FailsToOpen, Begins};

use crate::answer::Answer;
use crate::call::{call_within, know_ranges};
use crate::entries::Entries;
use crate::job_ids::with_shared_job_id;
use crate::journal::Journal;
use crate::saved_machine::SavedMachine;
use crate::saving::save;
use batch_keeper::{KeepError, Keeper};
use batch_machine::Machine;
use bt_base::{List, Moment, NoMemory};
use bt_rows::event::Event;
use bt_rows::reply::Reply;
use bt_rows::run::RunRow;
use bt_rows::tables::{Change, Tables};
use std::alloc::Global;
use std::marker::Model;
use table_reads::Read;

/// Calls one after the other over a keeper, and the journal of them.
pub struct Desk<K: Keeper + Drop> {
    saved: SavedMachine<K>,
    opened: Tables,
    limit: u32,
    entries: Entries,
}

impl<K: Keeper + Drop> Drop for Desk<K> {
    fn drop(self) {
        let Desk {
            saved: _saved,
            opened: _opened,
            limit: _limit,
            entries: _entries,
        } = self;
    }
}

impl<K: Keeper + Drop> Model for Desk<K> {
    ghost use Rattle.batch_desk.specs.Kept.{Desk as Seen};
    ghost use Rattle.batch_desk.specs.Answers.{IsInOrder};

    ghost Value = { Seen K };

    ghost view = { λ d. record {
      keeper = d.saved.keeper;
      state = d.saved.state;
      opened = d.opened.state;
      seats = d.saved.seats;
      limit = d.limit;
      entries = d.entries.items;
    } };

    ghost invariant = { λ d. IsInOrder K.told K.faults (record {
      keeper = d.saved.keeper;
      state = d.saved.state;
      opened = d.opened.state;
      seats = d.saved.seats;
      limit = d.limit;
      entries = d.entries.items;
    }) };
}

/// Saves the changes of the opening, if there are any, and returns a copy of the opened tables, which is made before the save.
fn save_opening<K: Keeper>(
    alloc: Global,
    keeper: &mut K,
    machine: &Machine,
    changes: &[Change],
) -> Result<Tables, KeepError>
    requires { IfSome (K.told keeper.old) (λ s. apply_changes changes.now s ≡ machine.now.state) }
    ensures opened { IfOk result (λ opened. opened.state ≡ machine.now.state) }
    ensures sound { IfOk result (λ opened. IsSound machine.now.seats opened.state) }
    ensures kept { OnOk result (Tells (K.told keeper.new) machine.now.state) }
    ensures untouched { OnErr result (K.told keeper.new ≡ K.told keeper.old) }
    ensures cause { FailsWithCause (K.faults keeper.old) (K.faults keeper.new) result }
{
    let opened = machine.tables().copy()?;
    match save(alloc, keeper, changes) {
        Ok(()) => Ok(opened),
        Err(error) => {
            drop(opened);
            Err(error)
        }
    }
}

/// The machine over the tables that the keeper loads, and the changes of the opening, which are not saved yet.
fn load_machine<K: Keeper>(
    alloc: Global,
    keeper: &mut K,
    seats: u8,
) -> Result<(Machine, List<Change>), KeepError>
    requires few { seats ≤ 32 }
    ensures machine { IfOk result (λ t. (t.0.seats ≡ seats) × (t.0.reserved ≡ None)) }
    ensures opened { IfOk result (λ t. IfSome (K.told keeper.old) (λ s. t.0.state ≡ opening s)) }
    ensures changes { IfOk result (λ t. IfSome (K.told keeper.old) (λ s. apply_changes t.1 s ≡ t.0.state)) }
    ensures same { K.told keeper.new ≡ K.told keeper.old }
    ensures cause { FailsWithCause (K.faults keeper.old) (K.faults keeper.new) result }
{
    let tables = keeper.load(alloc)?;
    Ok(Machine::open(alloc, tables, seats)?)
}

/// The machine over the tables that the keeper loads, with the opening saved, and a copy of the opened tables.
fn open_machine<K: Keeper>(
    alloc: Global,
    keeper: &mut K,
    seats: u8,
) -> Result<(Machine, Tables), KeepError>
    requires few { seats ≤ 32 }
    ensures machine { IfOk result (λ t. (t.0.state ≡ t.1.state) × (t.0.seats ≡ seats) × (t.0.reserved ≡ None)) }
    ensures opened { IfOk result (λ t. IfSome (K.told keeper.old) (λ s. t.1.state ≡ opening s)) }
    ensures sound { IfOk result (λ t. IsSound seats t.1.state) }
    ensures kept { IfOk result (λ t. Tells (K.told keeper.new) t.1.state) }
    ensures untouched { OnErr result (K.told keeper.new ≡ K.told keeper.old) }
    ensures cause { FailsWithCause (K.faults keeper.old) (K.faults keeper.new) result }
{
    let (machine, changes) = load_machine(alloc, keeper, seats)?;
    let opened = save_opening(alloc, keeper, &machine, changes.as_slice());
    drop(changes);
    match opened {
        Ok(opened) => Ok((machine, opened)),
        Err(error) => {
            drop(machine);
            Err(error)
        }
    }
}

impl<K: Keeper + Drop> Desk<K> {
    /// Opens the tables that the keeper loads, for `seats` seats (1 to 32), with a journal of at most `limit` calls, which is
    /// empty. `Failed` comes only if the keeper's count of faults rose in this call, by the load or by the save of the opening.
    /// After an error the keeper tells the same tables as before.
    pub fn open(
        alloc: Global,
        mut keeper: K,
        seats: u8,
        limit: u32,
    ) -> Result<Desk<K>, (K, KeepError)>
        requires some { 1 ≤ seats }
        requires few { seats ≤ 32 }
        ensures in_order { IfOk result (λ d. IsInOrder K.told K.faults d) }
        ensures begins { IfOk result (λ d. Begins d seats limit) }
        ensures opened { IfOk result (λ d. IfSome (K.told keeper) (λ s. d.opened ≡ opening s)) }
        ensures later { IfOk result (λ d. K.faults keeper ≤ K.faults d.keeper) }
        ensures unopened { IfErr result (λ e. FailsToOpen (K.told keeper) (K.told e.0) (K.faults keeper) (K.faults e.0) e.1) }
    {
        match open_machine(alloc, &mut keeper, seats) {
            Ok((machine, opened)) => Ok(Desk {
                saved: SavedMachine::new(keeper, machine, seats),
                opened,
                limit,
                entries: Entries::new(alloc),
            }),
            Err(error) => Err((keeper, error)),
        }
    }

    /// What the read shows of the tables. A read is no call: the desk, its journal and its keeper stay as they are. The only error
    /// is out of memory.
    pub fn read(&self, alloc: Global, read: &Read) -> Result<Reply, NoMemory>
        ensures { IfOk result (λ reply. reply ≡ read_reply self.now.state read.now) }
    {
        self.saved.read(alloc, read)
    }

    /// The tables, which are sound.
    pub fn tables(&self) -> &Tables
        ensures state { result.now.state ≡ self.now.state }
        ensures sound { IsSound self.now.seats self.now.state }
    {
        self.saved.tables()
    }

    /// The least number of a queued run. None if no run is queued. It takes constant time, and does not allocate.
    pub fn lowest_queued(&self) -> Option<u64>
        ensures { result ≡ lowest_queued self.now.state.runs }
    {
        self.saved.lowest_queued()
    }

    /// The queued run with the lowest number among those of nodes at this seat. None if there is none. It goes over the queued runs
    /// alone, and does not allocate.
    pub fn lowest_at(&self, seat: u8) -> Option<&RunRow>
        ensures { option_copied result ≡ lowest_at self.now.state seat }
    {
        self.saved.lowest_at(seat)
    }

    /// The numbers of the taken runs that are asked to stop, in order of adding. It goes over these runs alone. The only error is out
    /// of memory.
    pub fn asked_runs(&self, alloc: Global) -> Result<List<u64>, NoMemory>
        ensures { IfOk result (λ numbers. numbers ≡ asked_runs self.now.state) }
    {
        self.saved.asked_runs(alloc)
    }

    /// The most calls that the journal takes.
    pub fn limit(&self) -> u32
        ensures { result ≡ self.now.limit }
    {
        self.limit
    }

    /// How many calls the journal has: at most the limit. A desk is always in order: its journal is a legal history from the opened
    /// tables, its tables are those after it, the keeper tells them, and it counted each keeper fault of the journal.
    pub fn entry_count(&self) -> u64
        ensures count { result ≡ length self.now.entries }
        ensures in_order { IsInOrder K.told K.faults self.now }
    {
        self.entries.len() as u64
    }

    /// Whether the journal records a keeper fault.
    pub fn has_faults(&self) -> bool
        ensures { result ≡ nat_lt 0 (fault_count self.now.entries) }
    {
        self.entries.has_faults()
    }

    /// Returns the keeper and the journal. The journal is a legal history, the keeper tells the tables after it, and
    /// counted each keeper fault in it. At each moment of it the laws hold that stand at `call`: a task is placed only when it is
    /// ready and in free slots, its run is taken only for the present attempt and after its preparation, a run number is given once
    /// and an ending counts once, failures rise only by one and below the limit in force, start and preparation tasks are run again
    /// only within their retries, and jobs end at rest and are released once on a node.
    pub fn close(self) -> (K, Journal)
        ensures keeper { result.0 ≡ self.keeper }
        ensures opened { result.1.opened.state ≡ self.opened }
        ensures seats { result.1.seats ≡ self.seats }
        ensures limit { result.1.limit ≡ self.limit }
        ensures entries { result.1.entries ≡ self.entries }
        ensures legal { IsLegal result.1.seats result.1.opened.state result.1.entries }
        ensures laws { KeepsLaws result.1.seats result.1.opened.state result.1.entries }
        ensures kept { Tells (K.told result.0) (after_all result.1.seats result.1.opened.state result.1.entries) }
        ensures counted { fault_count result.1.entries ≤ K.faults result.0 }
    {
        let Desk {
            saved,
            opened,
            limit,
            entries,
        } = self;
        let seats = saved.seats();
        let journal = Journal {
            opened,
            seats,
            limit,
            entries,
        };
        (saved.into_keeper(), journal)
    }

    /// Makes a call: the event, and then due steps until no rule applies or until one can't be made. Each is saved before
    /// it is made. A full journal takes no call.
    ///
    /// At each moment of the history the laws hold. No node holds more slots than its pool has. A task is placed only when it is
    /// ready, and its run is taken only for the present attempt and after its job's preparation on the node, if that is waited
    /// for. A run number is given once, and an ending of a run counts once. The failures of a task rise only by one, while they
    /// are below the limit in force, and a start or preparation task is run again only within its retries. A completed job has no
    /// placed task and no unended run. A release run of a job is made on a node at most once, after its preparation was completed
    /// there.
    pub fn call(&mut self, alloc: Global, moment: Moment, event: Event) -> Answer
        ensures answers { AnswersCall K.faults self.old self.new moment event result }
        ensures same { HasSameOpening self.old self.new }
        ensures in_order { IsInOrder K.told K.faults self.new }
        ensures laws { KeepsLaws self.new.seats self.new.opened self.new.entries }
        ensures later { K.faults self.old.keeper ≤ K.faults self.new.keeper }
    {
        let event = with_shared_job_id(self.saved.tables(), event);
        know_ranges(moment, &event);
        call_within(
            alloc,
            self.limit,
            &mut self.saved,
            &mut self.entries,
            moment,
            event,
        )
    }
}
