//! A lane.
ghost use Rattle.std.specs.Prelude.{◌≡◌, true, length};
ghost use Rattle.counted_lock.specs.Passes.{IsPassOf};
ghost use Rattle.batch_crew.specs.Lanes.{IsLane, RanFor};
ghost use Rattle.batch_crew.specs.declared.cut.LaneEnd.TheVariants.{Ended, JournalFull};

use crate::cut::LaneEnd;
use crate::turning::{Turned, turn};
use batch_keeper::Keeper;
use bt_clock::Clock;
use child_runs::Spawner;
use shared_desk::{CallMonitor, Pass, SharedDesk};
use std::alloc::Global;
use std::sync::Wait;

/// Takes turns at a seat. In each turn the lane looks for the lowest queued run of the node at the seat and the words of its
/// child program, takes the run, runs the child program, and tells how it ended, again after each keeper fault, for which it waits some
/// time, `LAST_RETRY_MS` at most. `NotStarted` is told only if the spawner's count of faults rose in that start. If no run is queued, or the
/// run was not taken, the clock pauses.
///
/// It ends with `Ended` only if a pause of the clock said that the service is to end, after a turn in which nothing was run; with `JournalFull`
/// only if what the pass has then seen has as many calls as the journal takes; and with `Memory` if memory ran out. Returns the pass.
pub fn run_lane<K: Keeper + Drop, M: CallMonitor + Drop, S: Spawner, C: Clock, R: Wait>(
    rt: &R,
    alloc: Global,
    desk: &SharedDesk<K, M>,
    pass: Pass,
    seat: u8,
    spawner: &mut S,
    clock: &mut C,
) -> (Pass, LaneEnd)
    requires pass { IsPassOf desk.now pass }
    ensures pass { IsPassOf desk.now result.0 }
    ensures number { result.0.number ≡ pass.number }
    ensures turns { IsLane desk.now.origin seat (RanFor S.ran S.faults) C.gives C.pauses
        (record { pass = pass; clock = clock.old }) spawner.old (record { pass = result.0; clock = clock.new }) spawner.new result.1 }
    ensures ended { result.1 ≡ Ended → C.has_ended clock.new ≡ true }
    ensures full { result.1 ≡ JournalFull → length result.0.seen ≡ desk.now.origin.limit }
{
    let mut pass = pass;
    for _ in rt.forever() {
        match turn(rt, alloc, desk, &mut pass, seat, spawner, clock) {
            Ok(Turned::Ran) => {}
            Ok(Turned::Rested) => {
                if !clock.pause() {
                    return (pass, LaneEnd::Ended);
                }
            }
            Err(cut) => return (pass, cut.into()),
        }
    }
    unreachable!()
}
