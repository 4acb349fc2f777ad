//! What answers calls and reads, such as a desk. Contracts see an asker by a relation between its states: an exchange is a call at a
//! moment or a read, each with what it was answered, and a list of exchanges leads from one state to a later one. No asker keeps
//! that list; a desk keeps its calls in its journal, which is the law of this file.
ghost use Rattle.batch_desk.specs.Desks.{IsExchange, EntersItsCalls};
ghost use Rattle.batch_desk.specs.Exchanges.{Exchange, Called, Looked};

use crate::answer::Answer;
use crate::desk::Desk;
use batch_keeper::Keeper;
use bt_base::{Moment, NoMemory};
use bt_rows::event::Event;
use bt_rows::reply::Reply;
use std::alloc::Global;
use table_reads::Read;

/// What answers calls and reads.
pub trait Ask {
    /// A relation between the asker before an exchange, the exchange, and the asker after it. It says which answers an exchange may
    /// have.
    ghost exchanged: { Self → Exchange → Self → Type 0 };

    /// Makes a call of this event at this moment, and returns its answer.
    fn ask(&mut self, alloc: Global, moment: Moment, event: Event) -> Answer
        ensures { exchanged self.old (Called moment event result) self.new };

    /// What the read shows. The only error is out of memory.
    fn look(&mut self, alloc: Global, read: &Read) -> Result<Reply, NoMemory>
        ensures { exchanged self.old (Looked read.now result) self.new };
}

impl<K: Keeper + Drop> Ask for Desk<K> {
    ghost exchanged = { IsExchange K.told K.faults };

    fn ask(&mut self, alloc: Global, moment: Moment, event: Event) -> Answer {
        self.call(alloc, moment, event)
    }

    fn look(&mut self, alloc: Global, read: &Read) -> Result<Reply, NoMemory> {
        self.read(alloc, read)
    }
}

/// The exchanges of a desk are in its journal: over exchanges it gets one entry for each call that was made, or that a keeper fault
/// left undone, in order, and no other. Its seats, the opened tables and the limit stay, it keeps each law that stands at
/// `Desk::call`, and its keeper's count of faults does not fall.
pub fn exchanges_are_in_the_journal<K: Keeper + Drop>(_desk: &Desk<K>)
    ensures { EntersItsCalls K.told K.faults }
{}
