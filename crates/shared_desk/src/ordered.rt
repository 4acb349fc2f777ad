//! The desk in the lock, and what it was opened with.
ghost use Rattle.std.specs.Prelude.{◌≡◌, IfOk};
ghost use Rattle.batch_model.specs.Sound.{IsSound};
ghost use Rattle.run_index.specs.Seats.{asked_runs};
ghost use Rattle.child_words.specs.Queued.{queued_at};
ghost use Rattle.batch_desk.specs.Answers.{AnswersCall, HasSameOpening, IsInOrder};

use crate::monitor::SeatQueues;
use batch_desk::{Answer, Desk, Entry};
use batch_keeper::Keeper;
use bt_base::{List, Moment, NoMemory};
use bt_rows::event::Event;
use bt_rows::tables::Tables;
use child_words::{StartableRun, with_words};
use counted_lock::Journaled;
use std::alloc::Global;
use std::marker::Model;

/// What a desk was opened with: the opened tables, the number of seats (1 to 32), and the most calls that its journal takes. No
/// value of it is made: it is for contracts and proofs alone.
#[derive(Drop)]
pub struct Origin {
    opened: Tables,
    seats: u8,
    limit: u32,
}

impl Model for Origin {
    ghost use Rattle.shared_desk.specs.Openings.{Opening};

    ghost Value = { Opening };

    ghost view = { λ o. record { opened = o.opened.state; seats = o.seats; limit = o.limit } };
}

/// A desk, of which contracts see that it is in order.
pub struct OrderedDesk<K: Keeper + Drop> {
    desk: Desk<K>,
}

impl<K: Keeper + Drop> Drop for OrderedDesk<K> {
    fn drop(self) {
        let OrderedDesk { desk: _desk } = self;
    }
}

impl<K: Keeper + Drop> Model for OrderedDesk<K> {
    ghost use Rattle.batch_desk.specs.Kept.{Desk as Seen};
    ghost use Rattle.batch_desk.specs.Answers.{IsInOrder};

    ghost Value = { Seen K };

    ghost view = { λ d. d.desk };

    ghost invariant = { λ d. IsInOrder K.told K.faults d.desk };
}

impl<K: Keeper + Drop> Journaled<Entry, Origin> for OrderedDesk<K> {
    ghost use Rattle.shared_desk.specs.Openings.{opening_of};

    ghost entries = { λ d. d.entries };

    ghost origin = { opening_of };

    fn entry_count(&self) -> u64 {
        self.desk.entry_count()
    }
}

impl<K: Keeper + Drop> SeatQueues for OrderedDesk<K> {
    fn lowest_number_at(&self, seat: u8) -> Option<u64> {
        match self.desk.lowest_at(seat) {
            Some(run) => Some(run.number),
            None => None,
        }
    }
}

impl<K: Keeper + Drop> OrderedDesk<K> {
    /// This desk.
    pub fn of(desk: Desk<K>) -> OrderedDesk<K>
        ensures { result ≡ desk }
    {
        // tells the check that the desk is in order
        let _ = desk.entry_count();
        OrderedDesk { desk }
    }

    /// The desk.
    pub fn into_desk(self) -> Desk<K>
        ensures desk { result ≡ self }
        ensures in_order { IsInOrder K.told K.faults self }
    {
        let OrderedDesk { desk } = self;
        desk
    }

    /// Makes a call, as `Desk::call` does.
    pub fn call(&mut self, alloc: Global, moment: Moment, event: Event) -> Answer
        ensures answers { AnswersCall K.faults self.old self.new moment event result }
        ensures same { HasSameOpening self.old self.new }
        ensures in_order { IsInOrder K.told K.faults self.new }
    {
        self.desk.call(alloc, moment, event)
    }

    /// The tables, which are sound.
    pub fn tables(&self) -> &Tables
        ensures state { result.now.state ≡ self.now.state }
        ensures sound { IsSound self.now.seats self.now.state }
        ensures in_order { IsInOrder K.told K.faults self.now }
    {
        self.desk.tables()
    }

    /// The lowest queued run at the seat, with the words that its child program is started with. None if no run is queued there. The
    /// only error is out of memory.
    pub fn queued_at(&self, alloc: Global, seat: u8) -> Result<Option<StartableRun>, NoMemory>
        ensures { IfOk result (λ queued. queued ≡ queued_at self.now.state seat) }
    {
        match self.desk.lowest_at(seat) {
            None => Ok(None),
            Some(run) => Ok(Some(with_words(alloc, self.desk.tables(), run)?)),
        }
    }

    /// The numbers of the taken runs that are asked to stop. The only error is out of memory.
    pub fn asked_runs(&self, alloc: Global) -> Result<List<u64>, NoMemory>
        ensures { IfOk result (λ numbers. numbers ≡ asked_runs self.now.state) }
    {
        self.desk.asked_runs(alloc)
    }
}
