//! The trait of keepers.
ghost use Rattle.std.specs.Prelude.{◌≡◌, ℕ, Option, IfOk, IfSome, OnOk, OnErr};
ghost use Rattle.bt_rows.specs.State.{State};
ghost use Rattle.bt_rows.specs.Changes.{apply_changes};
ghost use Rattle.batch_model.specs.WellFormed.{IsWellFormed};
ghost use Rattle.batch_keeper.specs.Told.{told_after, FailsWithCause};

use crate::error::KeepError;
use bt_rows::tables::{Change, Tables};
use std::alloc::Global;

/// A keeper of the tables.
pub trait Keeper {
    /// Its tables, if its content is visible to contracts.
    ghost told: { Self → Option State };

    /// How often it has failed. The count never falls.
    ghost faults: { Self → ℕ };

    /// Returns its tables, which are well formed. `Failed` comes only if the count of faults rose in this call; an error
    /// leaves the tables as before.
    fn load(&mut self, alloc: Global) -> Result<Tables, KeepError>
        ensures tables { IfOk result (λ tables. IfSome (told self.old) (λ s. tables.state ≡ s)) }
        ensures well_formed { IfOk result (λ tables. IsWellFormed tables.state) }
        ensures same { told self.new ≡ told self.old }
        ensures cause { FailsWithCause (faults self.old) (faults self.new) result };

    /// Makes these changes in order, all of them or none; they have to leave well-formed tables. `Failed` comes only if
    /// the count of faults rose in this call; an error leaves the tables as before.
    fn save(&mut self, alloc: Global, changes: &[Change]) -> Result<(), KeepError>
        requires { IfSome (told self.old) (λ s. IsWellFormed (apply_changes changes.now s)) }
        ensures ok { OnOk result (told self.new ≡ told_after changes.now (told self.old)) }
        ensures err { OnErr result (told self.new ≡ told self.old) }
        ensures cause { FailsWithCause (faults self.old) (faults self.new) result };
}
