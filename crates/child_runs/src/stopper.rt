//! The trait of stoppers.
ghost use Rattle.std.specs.Prelude.{ℕ, is_ok};
ghost use Rattle.bt_base.specs.Causes.{HasCause};
ghost use Rattle.child_runs.specs.Stops.{Stop};

use byte_streams::Failed;

/// What asks child programs to stop.
pub trait Stopper {
    /// How often it has failed. The count never falls.
    ghost faults: { Self → ℕ };

    /// A relation between the stopper, a request that a child program stops, and the stopper after that.
    ghost stopped: { Self → Stop → Self → Type 0 };

    /// Asks the child program of the run with this number to stop; it may go on for some time. Returns `Failed` only if the
    /// count of faults rose in this call.
    fn stop(&mut self, number: u64) -> Result<(), Failed>
        ensures stopped { stopped self.old (record { number = number; done = is_ok result }) self.new }
        ensures cause { HasCause (faults self.old) (faults self.new) result };
}
