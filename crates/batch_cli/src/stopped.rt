//! Why a script was not done to its end.
ghost use Rattle.std.specs.Prelude.{◌≡◌};
ghost use Rattle.batch_cli.specs.declared.stopped.Stopped.TheVariants.{Memory as OutOfMemory, SinkFault as Sinking};

use bt_base::NoMemory;
use byte_streams::Failed;

/// Why a script was not done to its end.
#[derive(Clone, Copy, Debug, PartialEq, Eq)]
pub enum Stopped {
    /// Memory ran out.
    Memory,
    /// The sink failed.
    SinkFault,
}

impl From<NoMemory> for Stopped {
    ghost from_gives = { λ _ e. e ≡ OutOfMemory };

    fn from(_: NoMemory) -> Self {
        Stopped::Memory
    }
}

impl From<Failed> for Stopped {
    ghost from_gives = { λ _ e. e ≡ Sinking };

    fn from(_: Failed) -> Self {
        Stopped::SinkFault
    }
}
