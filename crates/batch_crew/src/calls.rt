//! The calls of a lane.
ghost use Rattle.std.specs.Prelude.{◌≡◌, Some};
ghost use Rattle.counted_lock.specs.Passes.{IsPassOf};
ghost use Rattle.batch_crew.specs.Lanes.{take_outcome, tell_outcome, Takes, TellsOnce, Tells};

use crate::cut::Cut;
use batch_desk::{Answer, Entry};
use batch_keeper::Keeper;
use bt_clock::Clock;
use bt_rows::event::{Event, EventKind};
use bt_rows::reply::Reply;
use bt_rows::run::Ending;
use shared_desk::{CallMonitor, Pass, SharedDesk};
use std::alloc::Global;
use std::sync::Wait;
use std::thread::Parker;
use std::time::Duration;

/// How long a lane waits before it tells an ending again after the first keeper fault, in milliseconds.
pub const FIRST_RETRY_MS: u64 = 50;

/// How long a lane waits at most before it tells an ending again, in milliseconds.
pub const LAST_RETRY_MS: u64 = 5_000;

/// Waits for this time, in milliseconds, or less.
fn wait<R: Wait>(rt: &R, ms: u64) {
    Parker::new().park_timeout(rt, Duration::from_millis(ms));
}

/// Whether a run was taken.
fn take_outcome(answer: &Answer) -> Result<bool, Cut>
    ensures { result ≡ take_outcome answer.now }
{
    match answer {
        Answer::Done { reply, .. } => Ok(!matches!(reply, Reply::Refused(_))),
        Answer::KeeperFault => Ok(false),
        Answer::JournalFull => Err(Cut::JournalFull),
        Answer::Memory => Err(Cut::Memory),
    }
}

/// Whether the ending of a run was told; None if a keeper fault left the call undone.
fn tell_outcome(answer: &Answer) -> Option<Result<(), Cut>>
    ensures { result ≡ tell_outcome answer.now }
{
    match answer {
        Answer::Done { .. } => Some(Ok(())),
        Answer::KeeperFault => None,
        Answer::JournalFull => Some(Err(Cut::JournalFull)),
        Answer::Memory => Some(Err(Cut::Memory)),
    }
}

/// Takes the run with this number. Returns whether it was taken; a refusal and a keeper fault leave it.
pub fn take<K: Keeper + Drop, M: CallMonitor + Drop, C: Clock, R: Wait>(
    rt: &R,
    alloc: Global,
    desk: &SharedDesk<K, M>,
    pass: &mut Pass,
    clock: &mut C,
    number: u64,
) -> Result<bool, Cut>
    requires pass { IsPassOf desk.now pass.old }
    ensures pass { IsPassOf desk.now pass.new }
    ensures number { pass.new.number ≡ pass.old.number }
    ensures takes { Takes desk.now.origin C.gives
        (record { pass = pass.old; clock = clock.old }) (record { pass = pass.new; clock = clock.new }) number result }
{
    let moment = clock.now();
    let answer = desk.ask(rt, alloc, pass, moment, Event::new(EventKind::Take(number)));
    let taken = take_outcome(&answer);
    drop(answer);
    taken
}

/// Tells the ending of the run once. None if a keeper fault left the call undone.
fn tell_once<K: Keeper + Drop, M: CallMonitor + Drop, C: Clock, R: Wait>(
    rt: &R,
    alloc: Global,
    desk: &SharedDesk<K, M>,
    pass: &mut Pass,
    clock: &mut C,
    run: (u64, Ending),
) -> Option<Result<(), Cut>>
    requires pass { IsPassOf desk.now pass.old }
    ensures pass { IsPassOf desk.now pass.new }
    ensures number { pass.new.number ≡ pass.old.number }
    ensures tells { TellsOnce desk.now.origin C.gives
        (record { pass = pass.old; clock = clock.old }) (record { pass = pass.new; clock = clock.new }) run.0 run.1 result }
{
    let moment = clock.now();
    let event = Event::new(EventKind::End(run.0, run.1));
    let answer = desk.ask(rt, alloc, pass, moment, event);
    let told = tell_outcome(&answer);
    drop(answer);
    told
}

/// Tells the ending of the run, again after each keeper fault: at first after `FIRST_RETRY_MS`, then after twice the time before, and at
/// last each `LAST_RETRY_MS`. The clock is not asked for that.
pub fn tell<K: Keeper + Drop, M: CallMonitor + Drop, C: Clock, R: Wait>(
    rt: &R,
    alloc: Global,
    desk: &SharedDesk<K, M>,
    pass: &mut Pass,
    clock: &mut C,
    run: (u64, Ending),
) -> Result<(), Cut>
    requires pass { IsPassOf desk.now pass.old }
    ensures pass { IsPassOf desk.now pass.new }
    ensures number { pass.new.number ≡ pass.old.number }
    ensures tells { Tells desk.now.origin C.gives
        (record { pass = pass.old; clock = clock.old }) (record { pass = pass.new; clock = clock.new }) run.0 run.1 result }
{
    let mut retry_ms = FIRST_RETRY_MS;
    for _ in rt.forever() {
        if let Some(told) = tell_once(rt, alloc, desk, pass, clock, run) {
            return told;
        }
        wait(rt, retry_ms);
        retry_ms = retry_ms.saturating_mul(2).min(LAST_RETRY_MS);
    }
    unreachable!()
}
