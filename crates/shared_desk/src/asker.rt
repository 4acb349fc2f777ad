//! An asker over a shared desk.
ghost use Rattle.std.specs.Prelude.{◌≡◌};
ghost use Rattle.counted_lock.specs.Passes.{IsPassOf};
ghost use Rattle.shared_desk.specs.Askers.{EntersItsCalls};

use crate::monitor::CallMonitor;
use crate::shared::{Pass, SharedDesk};
use batch_desk::{Answer, Ask};
use batch_keeper::Keeper;
use bt_base::{Moment, NoMemory};
use bt_rows::event::Event;
use bt_rows::reply::Reply;
use std::alloc::Global;
use std::marker::Model;
use std::sync::Wait;
use table_reads::Read;

/// A pass of a shared desk as an asker: its calls and reads are those of the pass, each in a turn that it waits for.
#[derive(Drop)]
pub struct Asker<'a, R: Wait, K: Keeper + Drop, M: CallMonitor + Drop> {
    rt: &'a R,
    desk: &'a SharedDesk<K, M>,
    pass: Pass,
}

impl<'a, R: Wait, K: Keeper + Drop, M: CallMonitor + Drop> Model for Asker<'a, R, K, M> {
    ghost use Rattle.counted_lock.specs.Passes.{IsPassOf};
    ghost use Rattle.shared_desk.specs.Askers.{AskerState};

    ghost Value = { AskerState };

    ghost view = { λ a. record { desk = a.desk.now; pass = a.pass } };

    ghost invariant = { λ a. IsPassOf a.desk.now a.pass };
}

impl<K: Keeper + Drop, M: CallMonitor + Drop> SharedDesk<K, M> {
    /// An asker with this pass, which this desk made. It does not allocate.
    pub fn asker<'a, R: Wait>(&'a self, rt: &'a R, pass: Pass) -> Asker<'a, R, K, M>
        requires pass { IsPassOf self.now pass }
        ensures desk { result.desk ≡ self.now }
        ensures pass { result.pass ≡ pass }
    {
        Asker {
            rt,
            desk: self,
            pass,
        }
    }
}

impl<'a, R: Wait, K: Keeper + Drop, M: CallMonitor + Drop> Asker<'a, R, K, M> {
    /// Returns the pass. It does not allocate.
    pub fn into_pass(self) -> Pass
        ensures pass { result ≡ self.entry.pass }
        ensures made { IsPassOf self.entry.desk result }
    {
        let Asker { pass, .. } = self;
        pass
    }
}

impl<'a, R: Wait, K: Keeper + Drop, M: CallMonitor + Drop> Ask for Asker<'a, R, K, M> {
    ghost use Rattle.shared_desk.specs.Askers.{IsSharedExchange};

    ghost exchanged = { IsSharedExchange };

    fn ask(&mut self, alloc: Global, moment: Moment, event: Event) -> Answer {
        let desk = self.desk;
        desk.ask(self.rt, alloc, &mut self.pass, moment, event)
    }

    fn look(&mut self, alloc: Global, read: &Read) -> Result<Reply, NoMemory> {
        let desk = self.desk;
        desk.look(self.rt, alloc, &mut self.pass, read)
    }
}

/// The exchanges of an asker stand in the history that its pass has then seen: it begins with what the pass had seen, and the new
/// places of the pass are those of the calls that were made, or that a keeper fault left undone, in order.
pub fn exchanges_stand_in_the_history<R: Wait, K: Keeper + Drop, M: CallMonitor + Drop>(
    _asker: &Asker<'_, R, K, M>,
)
    ensures { EntersItsCalls }
{}
