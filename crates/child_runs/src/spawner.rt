//! The trait of spawners.
ghost use Rattle.std.specs.Prelude.{ℕ};
ghost use Rattle.child_runs.specs.Runs.{HasStartCause};
ghost use Rattle.child_runs.specs.declared.ran.ChildRun.{ChildRun as OneRun};

use crate::ran::Ran;
use crate::run_identity::RunIdentity;
use bt_base::Word;
use std::alloc::Global;

/// What starts child programs.
pub trait Spawner {
    /// How often it has failed. The count never falls.
    ghost faults: { Self → ℕ };

    /// A relation between the spawner, a child program that was to run, and the spawner after that.
    ghost ran: { Self → OneRun → Self → Type 0 };

    /// Starts the child program of the run with this number by these words, of which the first names the program, and waits
    /// for its end. What the run belongs to is for the child program alone, and no clause speaks of it. Returns `NotStarted`
    /// only if the count of faults rose in this call.
    fn run(&mut self, alloc: Global, run: &RunIdentity, number: u64, words: &[Word]) -> Ran
        ensures ran { ran self.old (record { number = number; words = words.now; how = result }) self.new }
        ensures cause { HasStartCause (faults self.old) (faults self.new) result };
}
