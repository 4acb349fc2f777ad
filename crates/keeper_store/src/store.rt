//! The trait of stores.
ghost use Rattle.std.specs.Prelude.{◌≡◌, ℕ, Option, IfOk, IfSome, OnOk, OnErr};
ghost use Rattle.batch_keeper.specs.Told.{FailsWithCause};
ghost use Rattle.keeper_store.specs.declared.content.Stored.{Stored as Content};
ghost use Rattle.keeper_store.specs.Contents.{content_after};

use crate::content::Stored;
use crate::edit::Edit;
use batch_keeper::KeepError;
use std::alloc::Global;

/// A store of rows as texts.
pub trait Store {
    /// What it contains; None if contracts cannot see it.
    ghost content: { Self → Option Content };

    /// How often it has failed. The count never falls.
    ghost faults: { Self → ℕ };

    /// Returns all that it contains. `Failed` comes only if the count of faults rose in this call.
    fn read(&mut self, alloc: Global) -> Result<Stored, KeepError>
        ensures content { IfOk result (λ stored. IfSome (content self.old) (λ contained. stored ≡ contained)) }
        ensures same { content self.new ≡ content self.old }
        ensures cause { FailsWithCause (faults self.old) (faults self.new) result };

    /// Makes these edits in order, all of them or none. `Failed` comes only if the count of faults rose in this call; an error has
    /// made none.
    fn write(&mut self, alloc: Global, edits: &[Edit]) -> Result<(), KeepError>
        ensures ok { OnOk result (content self.new ≡ content_after edits.now (content self.old)) }
        ensures err { OnErr result (content self.new ≡ content self.old) }
        ensures cause { FailsWithCause (faults self.old) (faults self.new) result };
}
