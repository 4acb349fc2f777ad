//! One turn of a lane.
ghost use Rattle.std.specs.Prelude.{◌≡◌};
ghost use Rattle.counted_lock.specs.Passes.{IsPassOf};
ghost use Rattle.batch_crew.specs.Lanes.{IsTurned, RanFor};

use crate::calls::{take, tell};
use crate::cut::Cut;
use batch_keeper::Keeper;
use bt_clock::Clock;
use child_runs::Spawner;
use shared_desk::{CallMonitor, Pass, SharedDesk};
use std::alloc::Global;
use std::sync::Wait;

/// What a turn came to.
#[derive(Clone, Copy, Debug, PartialEq, Eq)]
pub enum Turned {
    /// Nothing was run, and the lane pauses.
    Rested,
    /// A run was taken, its child program ran, and its ending was told.
    Ran,
}

/// One turn: looks for the lowest queued run at the seat, takes it, runs its child program, and tells how that ended.
pub fn turn<K: Keeper + Drop, M: CallMonitor + Drop, S: Spawner, C: Clock, R: Wait>(
    rt: &R,
    alloc: Global,
    desk: &SharedDesk<K, M>,
    pass: &mut Pass,
    seat: u8,
    spawner: &mut S,
    clock: &mut C,
) -> Result<Turned, Cut>
    requires pass { IsPassOf desk.now pass.old }
    ensures pass { IsPassOf desk.now pass.new }
    ensures number { pass.new.number ≡ pass.old.number }
    ensures turned { IsTurned desk.now.origin seat (RanFor S.ran S.faults) C.gives
        (record { pass = pass.old; clock = clock.old }) spawner.old (record { pass = pass.new; clock = clock.new }) spawner.new result }
{
    let Some(found) = desk.queued_at(rt, alloc, pass, seat)? else {
        return Ok(Turned::Rested);
    };
    let number = found.number();
    if !take(rt, alloc, desk, pass, clock, number)? {
        return Ok(Turned::Rested);
    }
    let Some(ending) = spawner
        .run(alloc, found.identity(), number, found.words())
        .ending()
    else {
        return Err(Cut::Memory);
    };
    tell(rt, alloc, desk, pass, clock, (number, ending))?;
    Ok(Turned::Ran)
}
