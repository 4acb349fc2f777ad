//! A keeper that never fails.
ghost use Rattle.std.specs.Prelude.{◌≡◌};
ghost use Rattle.batch_model.specs.WellFormed.{IsWellFormed};

use crate::error::KeepError;
use crate::keeper::Keeper;
use bt_base::{List, NoMemory, duplicates};
use bt_rows::tables::{Change, Tables};
use std::alloc::Global;
use std::marker::Model;

/// A keeper in memory that never fails. Contracts see it as the tables that it keeps.
pub struct SureKeeper {
    tables: Tables,
}

impl Drop for SureKeeper {
    fn drop(self) {
        let SureKeeper { tables: _tables } = self;
    }
}

impl Model for SureKeeper {
    ghost use Rattle.bt_rows.specs.State.{State};
    ghost use Rattle.batch_model.specs.WellFormed.{IsWellFormed};

    ghost Value = { State };

    ghost view = { λ k. k.tables.state };

    ghost invariant = { λ k. IsWellFormed k.tables.state };
}

impl SureKeeper {
    /// A keeper of these tables. It does not allocate.
    pub fn new(tables: Tables) -> SureKeeper
        requires { IsWellFormed tables.state }
        ensures { result ≡ tables.state }
    {
        SureKeeper { tables }
    }

    /// Closes up the places of removed tasks and runs, where more than half of the places are free. It fails only when out of
    /// memory.
    fn close_up(&mut self) -> Result<(), NoMemory>
        ensures { self.new ≡ self.old }
    {
        if self.tables.has_sparse_tasks() {
            self.tables.close_up_tasks()?;
        }
        if self.tables.has_sparse_runs() {
            self.tables.close_up_runs()?;
        }
        Ok(())
    }
}

impl Keeper for SureKeeper {
    ghost use Rattle.std.specs.Prelude.{Some};

    ghost told = { λ k. Some k };

    ghost faults = { λ _. 0 };

    fn load(&mut self, _: Global) -> Result<Tables, KeepError> {
        Ok(self.tables.copy()?)
    }

    fn save(&mut self, alloc: Global, changes: &[Change]) -> Result<(), KeepError> {
        let copies = duplicates(alloc, changes)?;
        self.close_up()?;
        self.tables.reserve(changes)?;
        self.tables.apply(List::of_vec(copies));
        Ok(())
    }
}
