//! A keeper over a store.
ghost use Rattle.std.specs.Prelude.{◌≡◌, ◌+◌, ◌-◌, ◌^◌, ◌≤◌, min, false, true, IfOk, IfSome, OnOk, OnErr, IsErrOf};
ghost use Rattle.std.specs.Option.{option_and_then};
ghost use Rattle.bt_rows.specs.State.{State};
ghost use Rattle.batch_model.specs.WellFormed.{IsWellFormed};
ghost use Rattle.batch_keeper.specs.Told.{FailsWithCause};
ghost use Rattle.store_keeper.specs.Reading.{state_in};
ghost use Rattle.store_keeper.specs.Found.{IsContentOf, IsStoreFault};
ghost use Rattle.store_keeper.specs.Kept.{IsReadable};

use crate::edits::edits_of;
use crate::load_fault::{LoadFault, load_fault};
use crate::tables::tables_in;
use batch_keeper::{KeepError, Keeper};
use bt_rows::tables::{Change, Tables};
use keeper_store::{Store, Stored};
use std::alloc::Global;
use std::marker::Model;

/// A keeper of the tables over a store. Its count of faults is the store's and its own: it counts each load of a content that is not
/// that of well-formed tables.
#[derive(Drop)]
pub struct StoreKeeper<S: Store + Drop> {
    store: S,
    faults: u64,
    is_read: bool,
    fault: Option<LoadFault>,
}

impl<S: Store + Drop> Model for StoreKeeper<S> {
    ghost use Rattle.store_keeper.specs.Kept.{StoreKeeper as Seen, IsReadable};

    ghost Value = { Seen S };

    ghost view = { λ k. record { store = k.store; faults = k.faults; is_read = k.is_read } };

    ghost invariant = { λ k. IsReadable k.is_read (S.content k.store) };
}

impl<S: Store + Drop> StoreKeeper<S> {
    /// A keeper of the tables that the store contains. Nothing is read yet. It does not allocate.
    pub fn new(store: S) -> StoreKeeper<S>
        ensures { result ≡ record { store = store; faults = 0; is_read = false } }
    {
        StoreKeeper {
            store,
            faults: 0,
            is_read: false,
            fault: None,
        }
    }

    /// The store.
    pub fn store(&self) -> &S
        ensures { result.now ≡ self.now.store }
    {
        &self.store
    }

    /// Why the content that was read last is not that of well-formed tables. None if it is, if nothing was read, or if memory ran out for
    /// the fault. That the store itself failed does not change it.
    pub fn load_fault(&self) -> Option<&LoadFault> {
        self.fault.as_ref()
    }

    /// The store.
    pub fn into_store(self) -> S
        ensures { result ≡ self.store }
    {
        let StoreKeeper {
            store,
            faults: _,
            is_read: _,
            fault: _,
        } = self;
        store
    }

    /// Counts a fault of the keeper's own.
    fn count_fault(&mut self)
        ensures counted { self.new ≡ record self.old { faults = min (self.old.faults + 1) (2 ^ 64 - 1) } }
        ensures later { self.old.faults ≤ self.new.faults }
    {
        self.faults = self.faults.saturating_add(1);
    }

    /// Names the fault of the content.
    fn name_fault(&mut self, alloc: Global, stored: &Stored)
        ensures { self.new ≡ self.old }
    {
        self.fault = load_fault(alloc, stored).ok();
    }

    /// Reads the store, and counts a fault if its content is not that of well-formed tables.
    fn read(&mut self, alloc: Global) -> Result<Tables, KeepError>
        ensures found { IfOk result (λ tables. IfSome (S.content self.old.store) (λ stored. IsContentOf stored tables.state)) }
        ensures well_formed { IfOk result (λ tables. IsWellFormed tables.state) }
        ensures same { S.content self.new.store ≡ S.content self.old.store }
        ensures cause { FailsWithCause (S.faults self.old.store + self.old.faults) (S.faults self.new.store + self.new.faults) result }
        ensures refused { IsErrOf result KeepError.Failed → IsStoreFault (S.content self.old.store) (S.faults self.old.store) (S.faults self.new.store) }
        ensures own { OnErr result (IfSome (S.content self.old.store) (λ stored. (s : State) → IsContentOf stored s → self.new.faults ≡ self.old.faults)) }
        ensures unchanged { OnOk result (self.new.faults ≡ self.old.faults) }
        ensures read { OnOk result (self.new.is_read ≡ true) }
    {
        let stored = self.store.read(alloc)?;
        match tables_in(alloc, &stored)? {
            Some(tables) => {
                self.is_read = true;
                self.fault = None;
                Ok(tables)
            }
            None => {
                self.name_fault(alloc, &stored);
                self.count_fault();
                Err(KeepError::Failed)
            }
        }
    }

    /// Reads the store before the first save, if it was not read yet, so that no edit is made of what is not tables.
    fn read_once(&mut self, alloc: Global) -> Result<(), KeepError>
        ensures same { S.content self.new.store ≡ S.content self.old.store }
        ensures cause { FailsWithCause (S.faults self.old.store + self.old.faults) (S.faults self.new.store + self.new.faults) result }
        ensures readable { OnOk result (IsReadable true (S.content self.new.store)) }
    {
        if !self.is_read {
            drop(self.read(alloc)?);
        }
        Ok(())
    }
}

impl<S: Store + Drop> Keeper for StoreKeeper<S> {
    ghost told = { λ k. option_and_then state_in (S.content k.store) };

    ghost faults = { λ k. S.faults k.store + k.faults };

    /// Reads the store. If the store fails, its error is returned. Else the answer is `Failed`, and a fault of the keeper's own is
    /// counted, exactly if what was read is not the content of well-formed tables.
    fn load(&mut self, alloc: Global) -> Result<Tables, KeepError>
        ensures tables { IfOk result (λ tables. IfSome (option_and_then state_in (S.content self.old.store)) (λ s. tables.state ≡ s)) }
        ensures well_formed { IfOk result (λ tables. IsWellFormed tables.state) }
        ensures same { option_and_then state_in (S.content self.new.store) ≡ option_and_then state_in (S.content self.old.store) }
        ensures cause { FailsWithCause (S.faults self.old.store + self.old.faults) (S.faults self.new.store + self.new.faults) result }
        ensures found { IfOk result (λ tables. IfSome (S.content self.old.store) (λ stored. IsContentOf stored tables.state)) }
        ensures refused { IsErrOf result KeepError.Failed → IsStoreFault (S.content self.old.store) (S.faults self.old.store) (S.faults self.new.store) }
        ensures own { OnErr result (IfSome (S.content self.old.store) (λ stored. (s : State) → IsContentOf stored s → self.new.faults ≡ self.old.faults)) }
        ensures unchanged { OnOk result (self.new.faults ≡ self.old.faults) }
    {
        self.read(alloc)
    }

    /// Writes the edits that the changes are, all at once. Before the first save the store is read, if no load has answered `Ok` yet; an
    /// error of that is returned.
    fn save(&mut self, alloc: Global, changes: &[Change]) -> Result<(), KeepError> {
        self.read_once(alloc)?;
        let edits = edits_of(alloc, changes)?;
        self.store.write(alloc, edits.as_slice())
    }
}
