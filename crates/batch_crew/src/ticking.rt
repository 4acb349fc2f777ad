//! Ticks of a timer.
ghost use Rattle.std.specs.Prelude.{◌≡◌};
ghost use Rattle.counted_lock.specs.Passes.{IsPassOf};
ghost use Rattle.batch_crew.specs.Timers.{is_tick_due, tick_outcome, TicksIfDue};

use crate::cut::Cut;
use batch_desk::Answer;
use batch_keeper::Keeper;
use bt_base::Moment;
use bt_clock::Clock;
use bt_rows::event::{Event, EventKind};
use shared_desk::{CallMonitor, Pass, SharedDesk};
use std::alloc::Global;
use std::sync::Wait;

/// The time between two ticks of a timer, in milliseconds.
pub const TICK_GAP_MS: u64 = 10_000;

/// Whether a tick is due at this moment, by the moment of the last one.
fn is_tick_due(last: Option<Moment>, moment: Moment) -> bool
    ensures { result ≡ is_tick_due last moment }
{
    match last {
        None => true,
        Some(last) => last.ms() + TICK_GAP_MS <= moment.ms(),
    }
}

/// What came of a tick.
fn tick_outcome(answer: &Answer) -> Result<(), Cut>
    ensures { result ≡ tick_outcome answer.now }
{
    match answer {
        Answer::Done { .. } => Ok(()),
        Answer::KeeperFault => Ok(()),
        Answer::JournalFull => Err(Cut::JournalFull),
        Answer::Memory => Err(Cut::Memory),
    }
}

/// Makes a tick if the clock says that one is due. A keeper fault leaves a tick undone, and it is not made again before the next one is
/// due.
pub fn tick_if_due<K: Keeper + Drop, M: CallMonitor + Drop, C: Clock, R: Wait>(
    rt: &R,
    alloc: Global,
    desk: &SharedDesk<K, M>,
    pass: &mut Pass,
    clock: &mut C,
    last: &mut Option<Moment>,
) -> Result<(), Cut>
    requires pass { IsPassOf desk.now pass.old }
    ensures pass { IsPassOf desk.now pass.new }
    ensures number { pass.new.number ≡ pass.old.number }
    ensures ticks { TicksIfDue desk.now.origin C.gives pass.old clock.old last.old pass.new clock.new last.new result }
{
    let moment = clock.now();
    if !is_tick_due(*last, moment) {
        return Ok(());
    }
    let answer = desk.ask(rt, alloc, pass, moment, Event::new(EventKind::Tick));
    let outcome = tick_outcome(&answer);
    drop(answer);
    *last = Some(moment);
    outcome
}
