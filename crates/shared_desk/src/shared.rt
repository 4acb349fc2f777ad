//! The desk that threads share, and its passes.
ghost use Rattle.std.specs.Prelude.{◌≡◌, [], map, None, IfOk, IfErr};
ghost use Rattle.counted_lock.specs.Views.{places_of, unnumbered, stamped};
ghost use Rattle.counted_lock.specs.Passes.{IsPassOf, IsNew};
ghost use Rattle.shared_desk.specs.Openings.{opening_of};
ghost use Rattle.shared_desk.specs.Sharing.{Asked, Looks, LooksAt, LooksAsked, SeesMore};

use crate::monitor::CallMonitor;
use crate::ordered::{OrderedDesk, Origin};
use batch_desk::{Answer, Desk, Entry};
use batch_keeper::Keeper;
use bt_base::{List, Moment, NoMemory};
use bt_rows::event::Event;
use bt_rows::reply::Reply;
use child_words::StartableRun;
use counted_lock::CountedLock;
use std::alloc::Global;
use std::marker::Model;
use std::mem;
use std::sync::Wait;
use table_reads::Read;

/// The right to call a shared desk in a turn, under a number that no other pass of the desk has. It may go to another thread.
/// Contracts see what it has seen: the beginning of the history of all calls, each with the number of the pass that made it.
pub type Pass = counted_lock::Pass<Entry, Origin>;

/// A desk that threads call and read, one at a time. Contracts see what tells it from other shared desks, and what it was opened
/// with.
#[derive(Drop)]
pub struct SharedDesk<K: Keeper + Drop, M: CallMonitor + Drop> {
    pub(crate) lock: CountedLock<OrderedDesk<K>, Entry, Origin>,
    pub(crate) monitor: M,
}

impl<K: Keeper + Drop, M: CallMonitor + Drop> Model for SharedDesk<K, M> {
    ghost use Rattle.counted_lock.specs.Passes.{LockIdentity};
    ghost use Rattle.shared_desk.specs.Openings.{Opening};

    ghost Value = { LockIdentity Opening };

    ghost view = { λ s. s.lock };
}

impl<K: Keeper + Drop, M: CallMonitor + Drop> SharedDesk<K, M> {
    /// Shares a desk, with the first pass, whose number is 0. The pass has seen the desk's journal, whose calls have no number, and
    /// has no places. No other call is ever without a number. The monitor hears of each call. The error returns the desk if memory runs out.
    pub fn open(
        alloc: Global,
        desk: Desk<K>,
        monitor: M,
    ) -> Result<(SharedDesk<K, M>, Pass), Desk<K>>
        ensures pass { IfOk result (λ r. IsPassOf r.0 r.1) }
        ensures origin { IfOk result (λ r. r.0.origin ≡ opening_of desk) }
        ensures number { IfOk result (λ r. r.1.number ≡ 0) }
        ensures seen { IfOk result (λ r. r.1.seen ≡ map (stamped None) desk.entries) }
        ensures places { IfOk result (λ r. places_of r.1.number r.1.seen ≡ []) }
        ensures opened { IfOk result (λ r. unnumbered r.1.seen ≡ desk.entries) }
        ensures err { IfErr result (λ d. d ≡ desk) }
    {
        match CountedLock::open(alloc, OrderedDesk::of(desk)) {
            Ok((lock, pass)) => Ok((SharedDesk { lock, monitor }, pass)),
            Err(ordered) => Err(ordered.into_desk()),
        }
    }

    /// What hears of each call.
    pub fn monitor(&self) -> &M {
        &self.monitor
    }

    /// Makes a call in a turn, which it waits for: the event, and then due steps, as `Desk::call` does. What the pass has then seen
    /// is a legal history that begins with what it had seen and ends with the call under its number, and the answer is that of the
    /// tables before the call. `JournalFull` comes only if what the pass has then seen has as many calls as the journal takes; then,
    /// and if memory runs out before the event is saved, the history has no new call of the pass.
    pub fn ask<R: Wait>(
        &self,
        rt: &R,
        alloc: Global,
        pass: &mut Pass,
        moment: Moment,
        event: Event,
    ) -> Answer
        requires pass { IsPassOf self.now pass.old }
        ensures pass { IsPassOf self.now pass.new }
        ensures number { pass.new.number ≡ pass.old.number }
        ensures asked { Asked self.now.origin pass.old pass.new moment event result }
    {
        let mine = mem::replace(pass, Pass::blank());
        let (mine, answer) = self.asked(rt, alloc, mine, moment, event);
        *pass = mine;
        self.monitor.turn_left();
        answer
    }

    /// What the read shows in a turn, which it waits for, of the tables after the history that the pass has then seen. That begins
    /// with what the pass had seen, and has no new call of it. The only error is out of memory.
    pub fn look<R: Wait>(
        &self,
        rt: &R,
        alloc: Global,
        pass: &mut Pass,
        read: &Read,
    ) -> Result<Reply, NoMemory>
        requires pass { IsPassOf self.now pass.old }
        ensures pass { IsPassOf self.now pass.new }
        ensures number { pass.new.number ≡ pass.old.number }
        ensures looks { Looks self.now.origin pass.old pass.new read.now result }
    {
        let mine = mem::replace(pass, Pass::blank());
        let (mine, shown) = self.looked(rt, alloc, mine, read);
        *pass = mine;
        shown
    }

    /// The lowest queued run at the seat, in a turn, which it waits for, of the tables after the history that the pass has then seen,
    /// with the words that its child program is started with; None if no run is queued there. The history begins with what the pass
    /// had seen, and has no new call of it. The only error is out of memory.
    pub fn queued_at<R: Wait>(
        &self,
        rt: &R,
        alloc: Global,
        pass: &mut Pass,
        seat: u8,
    ) -> Result<Option<StartableRun>, NoMemory>
        requires pass { IsPassOf self.now pass.old }
        ensures pass { IsPassOf self.now pass.new }
        ensures number { pass.new.number ≡ pass.old.number }
        ensures looks { LooksAt self.now.origin pass.old pass.new seat result }
    {
        let mine = mem::replace(pass, Pass::blank());
        let (mine, shown) = self.looked_at(rt, alloc, mine, seat);
        *pass = mine;
        shown
    }

    /// The numbers of the taken runs that are asked to stop, in a turn, which it waits for, of the tables after the history that the
    /// pass has then seen. That begins with what the pass had seen, and has no new call of it. The only error is out of memory.
    pub fn asked_runs<R: Wait>(
        &self,
        rt: &R,
        alloc: Global,
        pass: &mut Pass,
    ) -> Result<List<u64>, NoMemory>
        requires pass { IsPassOf self.now pass.old }
        ensures pass { IsPassOf self.now pass.new }
        ensures number { pass.new.number ≡ pass.old.number }
        ensures looks { LooksAsked self.now.origin pass.old pass.new result }
    {
        let mine = mem::replace(pass, Pass::blank());
        let (mine, shown) = self.looked_asked(rt, alloc, mine);
        *pass = mine;
        shown
    }

    /// Makes a new pass, which has seen what the given one has seen, and has a number of its own and no places. It does not
    /// allocate, and tries again if another pass is split at the same moment. The error comes only if 2^64 - 1 passes were made.
    pub fn split<R: Wait>(&self, rt: &R, pass: &mut Pass) -> Result<Pass, NoMemory>
        requires pass { IsPassOf self.now pass.old }
        ensures same { pass.new ≡ pass.old }
        ensures pass { IfOk result (λ q. IsPassOf self.now q) }
        ensures new { IfOk result (λ q. IsNew pass.old q) }
    {
        let mine = mem::replace(pass, Pass::blank());
        let (mine, other) = self.lock.split(rt, mine);
        *pass = mine;
        other.ok_or(NoMemory)
    }

    /// Tells each pass what the other has seen: both have then seen one history that begins with what each had seen. The two have
    /// different numbers. It does not allocate, and does not wait.
    pub fn meet(&self, one: &mut Pass, other: &mut Pass)
        requires one { IsPassOf self.now one.old }
        requires other { IsPassOf self.now other.old }
        ensures passes { IsPassOf self.now one.new × IsPassOf self.now other.new }
        ensures numbers { (one.new.number ≡ one.old.number) × (other.new.number ≡ other.old.number) }
        ensures one { SeesMore one.old one.new }
        ensures other { SeesMore other.old other.new }
        ensures same { one.new.seen ≡ other.new.seen }
        ensures apart { one.old.number ≡ other.old.number → ⊥ }
    {
        let first = mem::replace(one, Pass::blank());
        let second = mem::replace(other, Pass::blank());
        let (first, second) = self.lock.meet(first, second);
        *one = first;
        *other = second;
    }
}
