//! A machine whose tables its keeper keeps: each step is saved before it is made.
ghost use Rattle.std.specs.Prelude.{◌≡◌, ◌≤◌, [], None, IfOk, OnOk, OnErr, IsErrOf, IsSome, length};
ghost use Rattle.std.specs.Option.{option_copied};
ghost use Rattle.bt_base.specs.Causes.{Rose};
ghost use Rattle.bt_rows.specs.declared.reply.Reply.TheVariants.{Step};
ghost use Rattle.batch_model.specs.Dues.{due_step};
ghost use Rattle.batch_model.specs.Events.{event_step};
ghost use Rattle.batch_model.specs.Sound.{IsSound};
ghost use Rattle.run_index.specs.Queued.{lowest_queued};
ghost use Rattle.run_index.specs.Seats.{asked_runs, lowest_at};
ghost use Rattle.batch_keeper.specs.Told.{FailsWithCause};
ghost use Rattle.table_reads.specs.Reads.{read_reply};
ghost use Rattle.batch_desk.specs.Kept.{Tells};
ghost use Rattle.batch_desk.specs.History.{due_state, due_list, StopsSo};
ghost use Rattle.batch_desk.specs.Turns.{IsStep, IsDueTurn};

use crate::entry::Stop;
use crate::saving::make_saved;
use batch_keeper::{KeepError, Keeper};
use batch_machine::Machine;
use bt_base::{List, Moment, NoMemory};
use bt_rows::due::Due;
use bt_rows::event::Event;
use bt_rows::reply::Reply;
use bt_rows::run::RunRow;
use bt_rows::tables::Tables;
use std::alloc::Global;
use std::marker::Model;
use table_reads::Read;

/// A keeper, and the machine beside it. Each step is saved before it is made.
pub struct SavedMachine<K: Keeper + Drop> {
    keeper: K,
    machine: Machine,
    seats: u8,
}

impl<K: Keeper + Drop> Drop for SavedMachine<K> {
    fn drop(self) {
        let SavedMachine {
            keeper: _keeper,
            machine: _machine,
            seats: _seats,
        } = self;
    }
}

impl<K: Keeper + Drop> Model for SavedMachine<K> {
    ghost use Rattle.std.specs.Prelude.{◌≡◌, None};
    ghost use Rattle.batch_desk.specs.Kept.{SavedMachine as Seen, Tells};

    ghost Value = { Seen K };

    ghost view = { λ p. record { keeper = p.keeper; state = p.machine.state; seats = p.seats } };

    ghost invariant = { λ p. record {
      kept : Tells (K.told p.keeper) p.machine.state;
      seated : p.machine.seats ≡ p.seats;
      free : p.machine.reserved ≡ None;
    } };
}

/// What a due step's reply shows.
fn due_of(reply: Reply) -> Due
    requires { IsStep reply }
    ensures { reply ≡ Step result }
{
    match reply {
        Reply::Step(due) => due,
        _ => unreachable!(),
    }
}

impl<K: Keeper + Drop> SavedMachine<K> {
    pub fn new(keeper: K, machine: Machine, seats: u8) -> SavedMachine<K>
        requires kept { Tells (K.told keeper) machine.state }
        requires seated { machine.seats ≡ seats }
        requires free { machine.reserved ≡ None }
        ensures { result ≡ record { keeper = keeper; state = machine.state; seats = seats } }
    {
        SavedMachine {
            keeper,
            machine,
            seats,
        }
    }

    /// Returns the keeper.
    pub fn into_keeper(self) -> K
        ensures keeper { result ≡ self.keeper }
        ensures kept { Tells (K.told result) self.state }
    {
        let SavedMachine {
            keeper,
            machine,
            seats: _,
        } = self;
        drop(machine);
        keeper
    }

    /// What the read shows of the tables. The only error is out of memory.
    pub fn read(&self, alloc: Global, read: &Read) -> Result<Reply, NoMemory>
        ensures { IfOk result (λ reply. reply ≡ read_reply self.now.state read.now) }
    {
        self.machine.read(alloc, read)
    }

    /// The tables.
    pub fn tables(&self) -> &Tables
        ensures state { result.now.state ≡ self.now.state }
        ensures sound { IsSound self.now.seats self.now.state }
    {
        self.machine.tables()
    }

    /// The least number of a queued run. None if no run is queued. It takes constant time, and does not allocate.
    pub fn lowest_queued(&self) -> Option<u64>
        ensures { result ≡ lowest_queued self.now.state.runs }
    {
        self.machine.lowest_queued()
    }

    /// The queued run with the lowest number among those of nodes at this seat. None if there is none. It goes over the queued runs
    /// alone, and does not allocate.
    pub fn lowest_at(&self, seat: u8) -> Option<&RunRow>
        ensures { option_copied result ≡ lowest_at self.now.state seat }
    {
        self.machine.lowest_at(seat)
    }

    /// The numbers of the taken runs that are asked to stop, in order of adding. It goes over these runs alone. The only error is out
    /// of memory.
    pub fn asked_runs(&self, alloc: Global) -> Result<List<u64>, NoMemory>
        ensures { IfOk result (λ numbers. numbers ≡ asked_runs self.now.state) }
    {
        self.machine.asked_runs(alloc)
    }

    /// How many seats there are.
    pub fn seats(&self) -> u8
        ensures { result ≡ self.now.seats }
    {
        self.seats
    }

    /// Makes an event alone, without the due steps that follow it.
    pub fn event(
        &mut self,
        alloc: Global,
        moment: Moment,
        event: &Event,
    ) -> Result<Reply, KeepError>
        ensures ok { IfOk result (λ reply. event_step moment event.now self.old.state ≡ record { reply = reply; state = self.new.state }) }
        ensures err { OnErr result (self.new.state ≡ self.old.state) }
        ensures seats { self.new.seats ≡ self.old.seats }
        ensures kept { Tells (K.told self.new.keeper) self.new.state }
        ensures cause { FailsWithCause (K.faults self.old.keeper) (K.faults self.new.keeper) result }
    {
        let plan = self.machine.plan(alloc, moment, event)?;
        make_saved(alloc, &mut self.machine, &mut self.keeper, plan)
    }

    /// Makes the due step, and returns what it shows; None if no rule applies. `Failed` comes only if one does.
    fn due_step(&mut self, alloc: Global) -> Result<Option<Due>, KeepError>
        ensures ok { IfOk result (IsDueTurn self.old.seats self.old.state self.new.state) }
        ensures err { OnErr result (self.new.state ≡ self.old.state) }
        ensures failed { IsErrOf result KeepError.Failed → IsSome (due_step self.old.seats self.old.state) }
        ensures seats { self.new.seats ≡ self.old.seats }
        ensures kept { Tells (K.told self.new.keeper) self.new.state }
        ensures cause { FailsWithCause (K.faults self.old.keeper) (K.faults self.new.keeper) result }
    {
        let Some(plan) = self.machine.plan_due(alloc)? else {
            return Ok(None);
        };
        let reply = make_saved(alloc, &mut self.machine, &mut self.keeper, plan)?;
        Ok(Some(due_of(reply)))
    }

    /// Makes due steps until no rule applies, or until one can't be made, and adds what each shows.
    fn add_due_steps(&mut self, alloc: Global, dues: &mut Vec<Due>) -> Stop
        requires { dues.old.items ≡ [] }
        ensures state { self.new.state ≡ due_state self.old.seats (length dues.new.items) self.old.state }
        ensures dues { dues.new.items ≡ due_list self.old.seats (length dues.new.items) self.old.state }
        ensures stop { StopsSo self.old.seats result self.new.state }
        ensures seats { self.new.seats ≡ self.old.seats }
        ensures later { K.faults self.old.keeper ≤ K.faults self.new.keeper }
        ensures fault { result ≡ Stop.KeeperFault → Rose (K.faults self.old.keeper) (K.faults self.new.keeper) }
    {
        loop {
            if dues.reserve(1).is_err() {
                return Stop::Memory;
            }
            match self.due_step(alloc) {
                Ok(None) => return Stop::Rest,
                Ok(Some(due)) => dues.push_reserved(due),
                Err(KeepError::Failed) => return Stop::KeeperFault,
                Err(KeepError::Memory) => return Stop::Memory,
            }
        }
    }

    /// Makes due steps until no rule applies, or until one can't be made: what they show, and why they stopped.
    pub fn due_steps(&mut self, alloc: Global) -> (List<Due>, Stop)
        ensures state { self.new.state ≡ due_state self.old.seats (length result.0) self.old.state }
        ensures dues { result.0 ≡ due_list self.old.seats (length result.0) self.old.state }
        ensures stop { StopsSo self.old.seats result.1 self.new.state }
        ensures seats { self.new.seats ≡ self.old.seats }
        ensures kept { Tells (K.told self.new.keeper) self.new.state }
        ensures later { K.faults self.old.keeper ≤ K.faults self.new.keeper }
        ensures fault { result.1 ≡ Stop.KeeperFault → Rose (K.faults self.old.keeper) (K.faults self.new.keeper) }
    {
        let mut dues = Vec::new(alloc);
        let stop = self.add_due_steps(alloc, &mut dues);
        // tells the check what the type says of keeper and machine
        let _ = &self.keeper;
        (List::of_vec(dues), stop)
    }
}
