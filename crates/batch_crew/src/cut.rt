//! Why lanes end.
ghost use Rattle.std.specs.Prelude.{◌≡◌};
ghost use Rattle.batch_crew.specs.declared.cut.Cut.TheVariants.{Memory as OutOfMemory};
ghost use Rattle.batch_crew.specs.Ends.{end_of};

use bt_base::NoMemory;

/// Why a turn was cut short.
#[derive(Clone, Copy, Debug, PartialEq, Eq)]
pub enum Cut {
    /// The journal of the desk has as many calls as it takes.
    JournalFull,
    /// Memory ran out.
    Memory,
}

impl From<NoMemory> for Cut {
    ghost from_gives = { λ _ e. e ≡ OutOfMemory };

    fn from(_error: NoMemory) -> Cut {
        Cut::Memory
    }
}

/// Why a lane ended.
#[derive(Clone, Copy, Debug, PartialEq, Eq)]
pub enum LaneEnd {
    /// The clock said that the service is to end, when no run was queued at the seat, or the queued one was not taken.
    Ended,
    /// The journal of the desk has as many calls as it takes.
    JournalFull,
    /// Memory ran out. A run whose child program was not started because memory ran out stays taken until the desk is opened again.
    Memory,
}

impl From<Cut> for LaneEnd {
    ghost from_gives = { λ cut e. e ≡ end_of cut };

    fn from(cut: Cut) -> LaneEnd {
        match cut {
            Cut::JournalFull => LaneEnd::JournalFull,
            Cut::Memory => LaneEnd::Memory,
        }
    }
}
