//! Stops of a timer.
ghost use Rattle.std.specs.Prelude.{◌≡◌, ◌+◌, ◌<◌, ◌≤◌, vec_len, vec_capacity, OnErr, OnOk};
ghost use Rattle.batch_crew.specs.Timers.{is_in, StopsRun, StopRuns};

use bt_base::NoMemory;
use byte_streams::Failed;
use child_runs::Stopper;

/// Whether the number is one of these.
fn is_in(numbers: &[u64], number: u64) -> bool
    ensures { result ≡ is_in numbers.now number }
{
    numbers.iter().any(|other| *other == number)
}

/// Stops the child program of the run with this number, unless it was stopped before.
fn stop_run<P: Stopper>(stopper: &mut P, number: u64, stopped: &mut Vec<u64>)
    requires room { vec_len stopped.old < vec_capacity stopped.old }
    ensures stops { StopsRun P.stopped P.faults number stopped.old.items stopper.old stopped.new.items stopper.new }
    ensures capacity { vec_capacity stopped.new ≡ vec_capacity stopped.old }
    ensures length { vec_len stopped.new ≤ vec_len stopped.old + 1 }
{
    if is_in(stopped.as_slice(), number) {
        return;
    }
    match stopper.stop(number) {
        Ok(()) => stopped.push_reserved(number),
        Err(Failed) => {}
    }
}

/// Stops the child programs of these runs, but of those that were stopped before, and keeps their numbers. A stop that failed is not
/// kept. The error comes if there is no memory for the numbers; then nothing is stopped.
pub fn stop_runs<P: Stopper>(
    stopper: &mut P,
    asked: &[u64],
    stopped: &mut Vec<u64>,
) -> Result<(), NoMemory>
    ensures stops { OnOk result (StopRuns P.stopped P.faults asked.now stopped.old.items stopper.old stopped.new.items stopper.new) }
    ensures same_stopper { OnErr result (stopper.new ≡ stopper.old) }
    ensures same { OnErr result (stopped.new.items ≡ stopped.old.items) }
{
    stopped.reserve(asked.len())?;
    for number in asked {
        stop_run(stopper, *number, stopped);
    }
    Ok(())
}
