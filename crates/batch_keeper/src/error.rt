//! Why a keeper did not do a call.
ghost use Rattle.std.specs.Prelude.{◌≡◌};
ghost use Rattle.batch_keeper.specs.declared.error.KeepError.TheVariants.{Memory as OutOfMemory};

use bt_base::NoMemory;

/// Why a keeper did not do a call.
#[derive(Clone, Copy, Debug, PartialEq, Eq)]
pub enum KeepError {
    /// It met a fault, which it counted.
    Failed,
    /// Memory ran out.
    Memory,
}

impl From<NoMemory> for KeepError {
    ghost from_gives = { λ _ e. e ≡ OutOfMemory };

    fn from(_: NoMemory) -> Self {
        KeepError::Memory
    }
}
