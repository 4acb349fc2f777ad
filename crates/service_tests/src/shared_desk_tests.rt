//! A test of two passes in one thread, over a keeper in memory: what no clause says, that each call succeeds while memory is ample.
ghost use Rattle.std.specs.Prelude.{All, IfOk, IfSome};
ghost use Rattle.counted_lock.specs.Passes.{IsPassOf};

use batch_desk::{Answer, Ask, Desk};
use batch_keeper::SureKeeper;
use bt_base::{Id, Moment, NoMemory, Shared};
use bt_rows::event::{Event, EventKind, PoolSpec};
use bt_rows::pool::Fill;
use bt_rows::reply::{Item, Reply};
use bt_rows::tables::Tables;
use shared_desk::{NoMonitor, NotClosed, Pass, SharedDesk};
use std::alloc::Global;
use std::sync::Wait;
use std::test::Fail;
use table_reads::Read;

/// Adds a pool p without nodes.
fn pool_added(alloc: Global) -> Option<Event> {
    let id = Id::read(alloc, "p").ok()?;
    let spec = PoolSpec {
        id,
        dedicated: 0,
        low: 0,
        slots: 1,
        fill: Fill::Spread,
        inter: false,
        timeout: 900_000,
        start: None,
        scale: None,
    };
    Some(Event::new(EventKind::AddPool(Shared::new(alloc, spec).ok()?)))
}

/// Reads the pool p.
fn pool_read(alloc: Global) -> Option<Read> {
    let id = Id::read(alloc, "p").ok()?;
    Some(Read::GetPool(id))
}

/// A desk of empty tables and one seat.
fn empty_desk(alloc: Global) -> Result<Desk<SureKeeper>, Fail> {
    let keeper = SureKeeper::new(Tables::empty(alloc));
    match Desk::open(alloc, keeper, 1, 10) {
        Ok(desk) => Ok(desk),
        Err((keeper, _error)) => {
            drop(keeper);
            Err("memory is ample".into())
        }
    }
}

/// The desk, shared, with its first pass.
fn share(
    alloc: Global,
    desk: Desk<SureKeeper>,
) -> Result<(SharedDesk<SureKeeper, NoMonitor>, Pass), Fail>
    ensures { IfOk result (λ r. IsPassOf r.0 r.1) }
{
    match SharedDesk::open(alloc, desk, NoMonitor) {
        Ok(shared) => Ok(shared),
        Err(desk) => {
            drop(desk);
            Err("memory is ample".into())
        }
    }
}

/// Whether the call was made, and not refused.
fn is_accepted(answer: &Answer) -> bool {
    match answer {
        Answer::Done { reply, .. } => !matches!(reply, Reply::Refused(_)),
        Answer::KeeperFault => false,
        Answer::JournalFull => false,
        Answer::Memory => false,
    }
}

/// Whether the call was made in a turn, and not refused.
fn ask<R: Wait>(
    rt: &R,
    alloc: Global,
    desk: &SharedDesk<SureKeeper, NoMonitor>,
    pass: &mut Pass,
    moment: Moment,
    event: Event,
) -> bool
    requires { IsPassOf desk.now pass.old }
    ensures { IsPassOf desk.now pass.new }
{
    let answer = desk.ask(rt, alloc, pass, moment, event);
    let accepted = is_accepted(&answer);
    drop(answer);
    accepted
}

/// Whether the pool was added.
fn adds_pool<R: Wait>(
    rt: &R,
    alloc: Global,
    desk: &SharedDesk<SureKeeper, NoMonitor>,
    pass: &mut Pass,
) -> bool
    requires { IsPassOf desk.now pass.old }
    ensures { IsPassOf desk.now pass.new }
{
    let Some(moment) = Moment::of_ms(0) else {
        return false;
    };
    match pool_added(alloc) {
        Some(event) => ask(rt, alloc, desk, pass, moment, event),
        None => false,
    }
}

/// Whether the reply shows a pool.
fn is_pool(reply: &Result<Reply, NoMemory>) -> bool {
    matches!(reply, Ok(Reply::One(Item::Pool(_))))
}

/// Whether a read shows a pool in a turn of an asker.
fn look<R: Wait>(
    rt: &R,
    alloc: Global,
    desk: &SharedDesk<SureKeeper, NoMonitor>,
    pass: Pass,
    read: &Read,
) -> (Pass, bool)
    requires { IsPassOf desk.now pass }
    ensures { IsPassOf desk.now result.0 }
{
    let mut asker = desk.asker(rt, pass);
    let shown = asker.look(alloc, read);
    let shows = is_pool(&shown);
    drop(shown);
    (asker.into_pass(), shows)
}

/// Whether a read of the pool p shows it.
fn shows_pool<R: Wait>(
    rt: &R,
    alloc: Global,
    desk: &SharedDesk<SureKeeper, NoMonitor>,
    pass: Pass,
) -> (Pass, bool)
    requires { IsPassOf desk.now pass }
    ensures { IsPassOf desk.now result.0 }
{
    match pool_read(alloc) {
        Some(read) => {
            let shown = look(rt, alloc, desk, pass, &read);
            drop(read);
            shown
        }
        None => (pass, false),
    }
}

/// Whether no run is queued at seat 1.
fn has_no_queued<R: Wait>(
    rt: &R,
    alloc: Global,
    desk: &SharedDesk<SureKeeper, NoMonitor>,
    pass: &mut Pass,
) -> bool
    requires { IsPassOf desk.now pass.old }
    ensures { IsPassOf desk.now pass.new }
{
    let queued = desk.queued_at(rt, alloc, pass, 1);
    let has_none = matches!(queued, Ok(None));
    drop(queued);
    has_none
}

/// Whether no run is asked to stop.
fn has_no_asked<R: Wait>(
    rt: &R,
    alloc: Global,
    desk: &SharedDesk<SureKeeper, NoMonitor>,
    pass: &mut Pass,
) -> bool
    requires { IsPassOf desk.now pass.old }
    ensures { IsPassOf desk.now pass.new }
{
    match desk.asked_runs(rt, alloc, pass) {
        Ok(asked) => {
            let has_none = asked.as_slice().is_empty();
            drop(asked);
            has_none
        }
        Err(NoMemory) => false,
    }
}

/// Whether one pass adds the pool, meets the other, and the other one's read shows it.
fn use_both<R: Wait>(
    rt: &R,
    alloc: Global,
    desk: &SharedDesk<SureKeeper, NoMonitor>,
    first: Pass,
    second: Pass,
) -> ((Pass, Pass), bool)
    requires first { IsPassOf desk.now first }
    requires second { IsPassOf desk.now second }
    ensures first { IsPassOf desk.now result.0.0 }
    ensures second { IsPassOf desk.now result.0.1 }
{
    let mut first = first;
    let mut second = second;
    let idle = has_no_queued(rt, alloc, desk, &mut second);
    let unasked = has_no_asked(rt, alloc, desk, &mut second);
    let added = adds_pool(rt, alloc, desk, &mut first);
    desk.meet(&mut first, &mut second);
    let (second, shows) = shows_pool(rt, alloc, desk, second);
    ((first, second), idle && unasked && added && shows)
}

/// Closes the desk with both passes; the number of calls in its journal.
fn close_both(
    desk: SharedDesk<SureKeeper, NoMonitor>,
    passes: Vec<Pass>,
    second: Pass,
) -> Result<usize, Fail>
    requires first { All (IsPassOf desk) passes.items }
    requires second { IsPassOf desk second }
{
    let mut passes = passes;
    if passes.push(second).is_err() {
        drop(desk);
        return Err("memory is ample".into());
    }
    match desk.close(passes) {
        Ok((keeper, journal)) => {
            drop(keeper);
            let calls = journal.entries.len();
            drop(journal);
            Ok(calls)
        }
        Err(out) => {
            drop(out);
            Err("not closed with both passes".into())
        }
    }
}

/// Closes the desk with one of two passes, which is refused, and then with both; the number of calls in its journal.
fn close_twice(
    desk: SharedDesk<SureKeeper, NoMonitor>,
    passes: Vec<Pass>,
    second: Pass,
) -> Result<usize, Fail>
    requires first { All (IsPassOf desk) passes.items }
    requires second { IsPassOf desk second }
{
    match desk.close(passes) {
        Ok((keeper, journal)) => {
            drop(keeper);
            drop(journal);
            drop(second);
            Err("closed with one of two passes".into())
        }
        Err(out) => {
            let NotClosed {
                desk,
                passes,
                given,
                made,
            } = out;
            if given == 1 && made == 2 {
                close_both(desk, passes, second)
            } else {
                drop(desk);
                drop(passes);
                drop(second);
                Err("other counts".into())
            }
        }
    }
}

/// A list of one pass; None if memory runs out.
fn one_pass(
    alloc: Global,
    desk: &SharedDesk<SureKeeper, NoMonitor>,
    pass: Pass,
) -> Option<Vec<Pass>>
    requires { IsPassOf desk.now pass }
    ensures { IfSome result (λ passes. All (IsPassOf desk.now) passes.items) }
{
    let mut passes = Vec::new(alloc);
    match passes.push(pass) {
        Ok(()) => Some(passes),
        Err(_) => None,
    }
}

/// Uses both passes and closes the desk; the number of calls in its journal.
fn use_and_close<R: Wait>(
    rt: &R,
    alloc: Global,
    desk: SharedDesk<SureKeeper, NoMonitor>,
    first: Pass,
    second: Pass,
) -> Result<usize, Fail>
    requires first { IsPassOf desk first }
    requires second { IsPassOf desk second }
{
    let ((first, second), used) = use_both(rt, alloc, &desk, first, second);
    match one_pass(alloc, &desk, first) {
        Some(passes) if used => close_twice(desk, passes, second),
        _ => {
            drop(desk);
            drop(second);
            Err("a call fails, or the pool is not shown".into())
        }
    }
}

/// The same with a second pass, which is split off the first.
fn split_and_use<R: Wait>(
    rt: &R,
    alloc: Global,
    desk: SharedDesk<SureKeeper, NoMonitor>,
    first: Pass,
) -> Result<usize, Fail>
    requires { IsPassOf desk first }
{
    let mut first = first;
    match desk.split(rt, &mut first) {
        Ok(second) => use_and_close(rt, alloc, desk, first, second),
        Err(NoMemory) => {
            drop(desk);
            drop(first);
            Err("no second pass".into())
        }
    }
}

#[test]
fn passes_share_a_desk_and_close_it(rt: HostRuntime) -> Result<(), Fail> {
    let alloc = rt.alloc();
    let (desk, first) = share(alloc, empty_desk(alloc)?)?;
    let calls = split_and_use(&rt, alloc, desk, first)?;
    assert_eq!(rt; calls, 1);
    Ok(())
}
