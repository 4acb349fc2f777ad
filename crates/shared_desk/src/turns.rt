//! Turns of a shared desk: a pass takes the desk out of the lock, calls or reads it as if it were alone, and puts it back.
ghost use Rattle.std.specs.Prelude.{◌≡◌};
ghost use Rattle.counted_lock.specs.Passes.{IsPassOf};
ghost use Rattle.shared_desk.specs.Sharing.{Asked, Looks, LooksAt, LooksAsked};
ghost use Rattle.shared_desk.specs.Turns.{HasTurn};

use crate::monitor::CallMonitor;
use crate::ordered::{OrderedDesk, Origin};
use crate::shared::{Pass, SharedDesk};
use batch_desk::{Answer, Entry};
use batch_keeper::Keeper;
use bt_base::{List, Moment, NoMemory};
use bt_rows::event::Event;
use bt_rows::reply::Reply;
use child_words::StartableRun;
use counted_lock::{Held, Journaled};
use std::alloc::Global;
use std::sync::Wait;
use table_reads::{Read, read_reply};

/// A pass that has the turn.
type HeldPass<K> = Held<OrderedDesk<K>, Entry, Origin>;

impl<K: Keeper + Drop, M: CallMonitor + Drop> SharedDesk<K, M> {
    /// Waits for the turn, and takes the desk. Its tables are those after what the pass has then seen.
    fn begin<R: Wait>(&self, rt: &R, pass: Pass) -> (HeldPass<K>, OrderedDesk<K>)
        requires pass { IsPassOf self.now pass }
        ensures pass { IsPassOf self.now result.0 }
        ensures turn { HasTurn K.told K.faults self.now.origin pass result.0 result.1 }
    {
        let (held, desk) = self.lock.begin(rt, pass);
        // tells the check that the desk is in order
        let _ = desk.tables();
        (held, desk)
    }

    /// A call in a turn, of which the monitor hears. Its entry is added to the history in the same turn.
    pub(crate) fn asked<R: Wait>(
        &self,
        rt: &R,
        alloc: Global,
        pass: Pass,
        moment: Moment,
        event: Event,
    ) -> (Pass, Answer)
        requires pass { IsPassOf self.now pass }
        ensures pass { IsPassOf self.now result.0 }
        ensures number { result.0.number ≡ pass.number }
        ensures asked { Asked self.now.origin pass result.0 moment event result.1 }
    {
        let (held, mut desk) = self.begin(rt, pass);
        self.monitor.call_begins(moment, &event);
        let answer = desk.call(alloc, moment, event);
        self.monitor.call_answered(desk.entry_count(), &answer);
        self.monitor.runs_queued(&desk);
        match &answer {
            Answer::Done { .. } => (self.lock.enter(held, desk), answer),
            Answer::KeeperFault => (self.lock.enter(held, desk), answer),
            Answer::JournalFull => (self.lock.leave(held, desk), answer),
            Answer::Memory => (self.lock.leave(held, desk), answer),
        }
    }

    /// A read in a turn, which leaves the desk as it is.
    pub(crate) fn looked<R: Wait>(
        &self,
        rt: &R,
        alloc: Global,
        pass: Pass,
        read: &Read,
    ) -> (Pass, Result<Reply, NoMemory>)
        requires pass { IsPassOf self.now pass }
        ensures pass { IsPassOf self.now result.0 }
        ensures number { result.0.number ≡ pass.number }
        ensures looks { Looks self.now.origin pass result.0 read.now result.1 }
    {
        let (held, desk) = self.begin(rt, pass);
        let shown = read_reply(alloc, desk.tables(), read);
        (self.lock.leave(held, desk), shown)
    }

    /// A look at a seat in a turn, which leaves the desk as it is.
    pub(crate) fn looked_at<R: Wait>(
        &self,
        rt: &R,
        alloc: Global,
        pass: Pass,
        seat: u8,
    ) -> (Pass, Result<Option<StartableRun>, NoMemory>)
        requires pass { IsPassOf self.now pass }
        ensures pass { IsPassOf self.now result.0 }
        ensures number { result.0.number ≡ pass.number }
        ensures looks { LooksAt self.now.origin pass result.0 seat result.1 }
    {
        let (held, desk) = self.begin(rt, pass);
        let shown = desk.queued_at(alloc, seat);
        (self.lock.leave(held, desk), shown)
    }

    /// A look at the runs that are asked to stop, in a turn, which leaves the desk as it is.
    pub(crate) fn looked_asked<R: Wait>(
        &self,
        rt: &R,
        alloc: Global,
        pass: Pass,
    ) -> (Pass, Result<List<u64>, NoMemory>)
        requires pass { IsPassOf self.now pass }
        ensures pass { IsPassOf self.now result.0 }
        ensures number { result.0.number ≡ pass.number }
        ensures looks { LooksAsked self.now.origin pass result.0 result.1 }
    {
        let (held, desk) = self.begin(rt, pass);
        let shown = desk.asked_runs(alloc);
        (self.lock.leave(held, desk), shown)
    }
}
