//! The endings of children that run in memory.
ghost use Rattle.std.specs.Prelude.{◌≡◌};
ghost use Rattle.child_runs.specs.Memory.{ending_of};

use crate::ran::ChildEnding;

/// The first ending that is listed for the run with this number; `Code(0)` if there is none.
pub(crate) fn ending_of(endings: &[(u64, ChildEnding)], number: u64) -> ChildEnding
    ensures { result ≡ ending_of endings.now number }
{
    for ending in endings {
        if ending.0 == number {
            return ending.1;
        }
    }
    ChildEnding::Code(0)
}
