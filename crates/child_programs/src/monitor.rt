//! What is told of starts.
use std::io;

/// What lets child programs be started, and is told of those that cannot be yet, and of the list of runs. No clause speaks of it.
pub trait StartMonitor {
    /// The child program of the run with this number is about to be started. It may wait; the run ends as not started if it returns false.
    fn before_start(&self, _number: u64) -> bool {
        true
    }

    /// The child program of the run with this number cannot be started yet, for this cause; its start is tried again for up to 10
    /// minutes. It is told once for each start that waits.
    fn start_waits(&self, number: u64, cause: io::Error);

    /// The start of which `start_waits` was told waits no longer: the child program was started, or its command line cannot be.
    fn start_goes_on(&self, number: u64);

    /// The start of which `start_waits` was told was tried for 10 minutes, and last failed for this cause; the run ends as not
    /// started.
    fn start_given_up(&self, number: u64, cause: io::Error);

    /// A line of the list of runs could not be written, for this cause; the line is left out. It is told once for all spawners of a
    /// service, at the first such line.
    fn list_fails(&self, cause: io::Error);
}
