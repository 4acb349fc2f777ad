//! A timer.
ghost use Rattle.std.specs.Prelude.{◌≡◌, true, length};
ghost use Rattle.counted_lock.specs.Passes.{IsPassOf};
ghost use Rattle.batch_crew.specs.Timers.{IsTimerTurned, RunsTimer};
ghost use Rattle.batch_crew.specs.declared.cut.LaneEnd.TheVariants.{Ended, JournalFull};

use crate::cut::{Cut, LaneEnd};
use crate::stopping::stop_runs;
use crate::ticking::tick_if_due;
use batch_keeper::Keeper;
use bt_base::Moment;
use bt_clock::Clock;
use child_runs::Stopper;
use shared_desk::{CallMonitor, Pass, SharedDesk};
use std::alloc::Global;
use std::sync::Wait;

/// What a timer has done.
#[derive(Drop)]
struct Progress {
    /// The moment of its last tick.
    last: Option<Moment>,
    /// The numbers of the runs whose child programs it stopped.
    stopped: Vec<u64>,
}

/// One turn: ticks if a tick is due, looks for the runs that are asked to stop, and stops the child programs of those that were not
/// stopped before.
fn timer_turn<K: Keeper + Drop, M: CallMonitor + Drop, P: Stopper, C: Clock, R: Wait>(
    rt: &R,
    alloc: Global,
    desk: &SharedDesk<K, M>,
    pass: &mut Pass,
    stopper: &mut P,
    clock: &mut C,
    progress: &mut Progress,
) -> Result<(), Cut>
    requires pass { IsPassOf desk.now pass.old }
    ensures pass { IsPassOf desk.now pass.new }
    ensures number { pass.new.number ≡ pass.old.number }
    ensures turned { IsTimerTurned desk.now.origin P.stopped P.faults C.gives
        (record { pass = pass.old; stopper = stopper.old; clock = clock.old; last = progress.old.last; stopped = progress.old.stopped.items })
        (record { pass = pass.new; stopper = stopper.new; clock = clock.new; last = progress.new.last; stopped = progress.new.stopped.items }) result }
{
    tick_if_due(rt, alloc, desk, pass, clock, &mut progress.last)?;
    let asked = desk.asked_runs(rt, alloc, pass)?;
    stop_runs(stopper, asked.as_slice(), &mut progress.stopped)?;
    Ok(())
}

/// Ticks, and has child programs stopped. The first turn ticks, and a later one if the clock's moment is at least `TICK_GAP_MS` after
/// that of the last tick. Each turn then stops the child programs of the taken runs that are asked to stop, of each once, and the clock
/// pauses. A stop that failed is tried again in the next turn.
///
/// It ends with `Ended` only if a pause of the clock said that the service is to end; then all runs that are asked to stop, by the tables
/// after what the pass has then seen, were stopped, but at most as many as the stopper's count of faults rose by. It ends with
/// `JournalFull` only if what the pass has then seen has as many calls as the journal takes, and with `Memory` if memory ran out. Returns
/// the pass.
pub fn run_timer<K: Keeper + Drop, M: CallMonitor + Drop, P: Stopper, C: Clock, R: Wait>(
    rt: &R,
    alloc: Global,
    desk: &SharedDesk<K, M>,
    pass: Pass,
    stopper: &mut P,
    clock: &mut C,
) -> (Pass, LaneEnd)
    requires pass { IsPassOf desk.now pass }
    ensures pass { IsPassOf desk.now result.0 }
    ensures number { result.0.number ≡ pass.number }
    ensures runs { RunsTimer desk.now.origin P.stopped P.faults C.gives C.pauses pass stopper.old clock.old result.0 stopper.new clock.new result.1 }
    ensures ended { result.1 ≡ Ended → C.has_ended clock.new ≡ true }
    ensures full { result.1 ≡ JournalFull → length result.0.seen ≡ desk.now.origin.limit }
{
    let mut pass = pass;
    let mut progress = Progress {
        last: None,
        stopped: Vec::new(alloc),
    };
    for _ in rt.forever() {
        let turned = timer_turn(rt, alloc, desk, &mut pass, stopper, clock, &mut progress);
        if let Err(cut) = turned {
            return (pass, cut.into());
        }
        if !clock.pause() {
            return (pass, LaneEnd::Ended);
        }
    }
    unreachable!()
}
