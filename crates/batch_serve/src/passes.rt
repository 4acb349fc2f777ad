//! The passes of workers.
ghost use Rattle.std.specs.Prelude.{◌≡◌, ◌+◌, ◌<◌, ◌≤◌, ◌++◌, [], All, map, length, nat_eq, vec_len, vec_capacity};
ghost use Rattle.bt_rows.specs.Lists.{AreDistinct};
ghost use Rattle.batch_desk.specs.Kept.{Tells};
ghost use Rattle.batch_desk.specs.Laws.{KeepsLaws};
ghost use Rattle.batch_desk.specs.History.{IsLegal, after_all, fault_count};
ghost use Rattle.counted_lock.specs.Passes.{IsNew, IsPassOf};
ghost use Rattle.counted_lock.specs.Views.{places_of, unnumbered};
ghost use Rattle.shared_desk.specs.Sharing.{IsSharedJournal};
ghost use Rattle.batch_serve.specs.Passes.{AtEach, IsGiven, IsSameKind};

use crate::worker::Worker;
use batch_desk::Journal;
use batch_keeper::Keeper;
use shared_desk::{CallMonitor, NotClosed, Pass, SharedDesk};
use std::mem;
use std::sync::Wait;

/// A new pass that is split from the given one. It is tried again until it is there: the only error comes once 2^64 - 1 passes were
/// made.
fn new_pass<K: Keeper + Drop, M: CallMonitor + Drop, R: Wait>(
    rt: &R,
    desk: &SharedDesk<K, M>,
    pass: &mut Pass,
) -> Pass
    requires pass { IsPassOf desk.now pass.old }
    ensures same { pass.new ≡ pass.old }
    ensures pass { IsPassOf desk.now result }
    ensures new { IsNew pass.old result }
{
    for _ in rt.forever() {
        if let Ok(new) = desk.split(rt, pass) {
            return new;
        }
    }
    unreachable!()
}

/// Gives the worker the next pass, and replaces it by a new one with a greater number. Both have made no calls.
fn give_pass<K: Keeper + Drop, M: CallMonitor + Drop, W, R: Wait>(
    rt: &R,
    desk: &SharedDesk<K, M>,
    next: &mut Pass,
    worker: &mut Worker<W>,
)
    requires next { IsPassOf desk.now next.old }
    requires fresh { places_of next.old.number next.old.seen ≡ [] }
    requires opened { unnumbered next.old.seen ≡ [] }
    ensures next { IsPassOf desk.now next.new }
    ensures fresh { places_of next.new.number next.new.seen ≡ [] }
    ensures opened { unnumbered next.new.seen ≡ [] }
    ensures given { IsGiven desk.now worker.old worker.new }
    ensures number { worker.new.pass.number ≡ next.old.number }
    ensures above { next.old.number < next.new.number }
{
    let new = new_pass(rt, desk, next);
    worker.pass = mem::replace(next, new);
}

/// Gives each worker a pass, the first one the next pass. No two of them have the same number. The next pass is then another one, which has
/// made no calls.
pub(crate) fn give_passes<K: Keeper + Drop, M: CallMonitor + Drop, W, R: Wait>(
    rt: &R,
    desk: &SharedDesk<K, M>,
    next: &mut Pass,
    workers: &mut [Worker<W>],
)
    requires next { IsPassOf desk.now next.old }
    requires fresh { places_of next.old.number next.old.seen ≡ [] }
    requires opened { unnumbered next.old.seen ≡ [] }
    ensures next { IsPassOf desk.now next.new }
    ensures fresh { places_of next.new.number next.new.seen ≡ [] }
    ensures opened { unnumbered next.new.seen ≡ [] }
    ensures given { AtEach (IsGiven desk.now) workers.old workers.new }
    ensures distinct { AreDistinct nat_eq (map (λ w. w.pass.number) workers.new) }
{
    for worker in workers.iter_mut() {
        give_pass(rt, desk, next, worker);
    }
}

/// Takes the pass of the worker.
fn take_pass<W>(worker: &mut Worker<W>) -> Pass
    ensures pass { result ≡ worker.old.pass }
    ensures same { IsSameKind worker.old worker.new }
{
    mem::replace(&mut worker.pass, Pass::blank())
}

/// Takes the passes of the workers, in order. There is room for them.
pub(crate) fn take_passes<W>(workers: &mut [Worker<W>], passes: &mut Vec<Pass>)
    requires room { vec_len passes.old + length workers.old ≤ vec_capacity passes.old }
    ensures taken { passes.new.items ≡ passes.old.items ++ map (λ w. w.pass) workers.old }
    ensures same { AtEach IsSameKind workers.old workers.new }
{
    for worker in workers.iter_mut() {
        passes.push_reserved(take_pass(worker));
    }
}

/// Closes the desk with these passes. It is tried again until it is closed: the only error comes if not all passes are here.
pub(crate) fn close<K: Keeper + Drop, M: CallMonitor + Drop, R: Wait>(
    rt: &R,
    desk: SharedDesk<K, M>,
    passes: Vec<Pass>,
) -> (K, Journal)
    requires passes { All (IsPassOf desk) passes.items }
    ensures shared { IsSharedJournal result.1 passes.items }
    ensures opened { result.1.opened.state ≡ desk.origin.opened }
    ensures seats { result.1.seats ≡ desk.origin.seats }
    ensures limit { result.1.limit ≡ desk.origin.limit }
    ensures within { length result.1.entries ≤ result.1.limit }
    ensures legal { IsLegal result.1.seats result.1.opened.state result.1.entries }
    ensures laws { KeepsLaws result.1.seats result.1.opened.state result.1.entries }
    ensures kept { Tells (K.told result.0) (after_all result.1.seats result.1.opened.state result.1.entries) }
    ensures counted { fault_count result.1.entries ≤ K.faults result.0 }
{
    let mut open = (desk, passes);
    for _ in rt.forever() {
        let (desk, passes) = open;
        match desk.close(passes) {
            Ok(closed) => return closed,
            Err(NotClosed { desk, passes, .. }) => open = (desk, passes),
        }
    }
    unreachable!()
}
