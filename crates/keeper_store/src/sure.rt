//! A store that never fails.
ghost use Rattle.std.specs.Prelude.{◌≡◌};

use crate::content::Stored;
use crate::edit::Edit;
use crate::store::Store;
use batch_keeper::KeepError;
use bt_base::Duplicate;
use std::alloc::Global;
use std::marker::Model;

/// A store in memory that never fails. Contracts see it as what it contains.
pub struct SureStore {
    stored: Stored,
}

impl Drop for SureStore {
    fn drop(self) {
        let SureStore { stored: _stored } = self;
    }
}

impl Model for SureStore {
    ghost use Rattle.keeper_store.specs.declared.content.Stored.{Stored as Content};

    ghost Value = { Content };

    ghost view = { λ s. s.stored };
}

impl SureStore {
    /// A store that contains this. It does not allocate.
    pub fn new(stored: Stored) -> SureStore
        ensures { result ≡ stored }
    {
        SureStore { stored }
    }
}

impl Store for SureStore {
    ghost use Rattle.std.specs.Prelude.{Some};

    ghost content = { λ s. Some s };

    ghost faults = { λ _. 0 };

    fn read(&mut self, _: Global) -> Result<Stored, KeepError> {
        Ok(self.stored.copy()?)
    }

    /// Makes the edits in a copy of all that it contains, which then takes its place.
    fn write(&mut self, _: Global, edits: &[Edit]) -> Result<(), KeepError> {
        let mut stored = self.stored.copy()?;
        stored.edit_all(edits)?;
        self.stored = stored;
        Ok(())
    }
}
