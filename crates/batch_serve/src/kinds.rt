//! What lanes, timers and doors do.
ghost use Rattle.std.specs.Prelude.{◌≡◌, IsSome, false};
ghost use Rattle.counted_lock.specs.Passes.{IsPassOf};
ghost use Rattle.batch_serve.specs.Works.{LaneWorks, TimerWorks, DoorWorks, Works, IsReady};

use crate::monitor::ServiceMonitor;
use crate::work::Work;
use crate::worker::{Door, Lane, Timer, WorkerKind};
use batch_crew::{run_lane, run_timer};
use batch_desk::Ask;
use batch_http::{HttpService, serve_links};
use batch_keeper::Keeper;
use bt_clock::Clock;
use child_runs::{Spawner, Stopper};
use link_doors::Listener;
use shared_desk::{Pass, SharedDesk};
use std::alloc::Global;
use std::sync::Wait;

/// The work of a lane.
fn work_lane<K: Keeper + Drop, M: ServiceMonitor + Drop, S: Spawner, C: Clock, R: Wait>(
    rt: &R,
    alloc: Global,
    desk: &SharedDesk<K, M>,
    pass: Pass,
    lane: &mut Lane<S, C>,
) -> Pass
    requires pass { IsPassOf desk.now pass }
    ensures pass { IsPassOf desk.now result }
    ensures number { result.number ≡ pass.number }
    ensures works { LaneWorks desk.now S.Spawner C.Clock pass lane.old result lane.new }
{
    let (pass, end) = run_lane(
        rt,
        alloc,
        desk,
        pass,
        lane.seat,
        &mut lane.spawner,
        &mut lane.clock,
    );
    lane.end = Some(end);
    desk.monitor().lane_ended(lane.seat, end);
    pass
}

/// The work of a timer.
fn work_timer<K: Keeper + Drop, M: ServiceMonitor + Drop, P: Stopper, C: Clock, R: Wait>(
    rt: &R,
    alloc: Global,
    desk: &SharedDesk<K, M>,
    pass: Pass,
    timer: &mut Timer<P, C>,
) -> Pass
    requires pass { IsPassOf desk.now pass }
    ensures pass { IsPassOf desk.now result }
    ensures number { result.number ≡ pass.number }
    ensures works { TimerWorks desk.now P.Stopper C.Clock pass timer.old result timer.new }
{
    let (pass, end) = run_timer(rt, alloc, desk, pass, &mut timer.stopper, &mut timer.clock);
    timer.end = Some(end);
    desk.monitor().timer_ended(end);
    pass
}

/// A service over this asker and this clock. It is tried again until it is there: the only error is out of memory.
fn make_service<A: Ask, C: Clock, R: Wait>(
    rt: &R,
    alloc: Global,
    asker: A,
    clock: C,
) -> HttpService<A, C>
    ensures { result ≡ record { asker = asker; clock = clock } }
{
    let mut parts = (asker, clock);
    for _ in rt.forever() {
        let (asker, clock) = parts;
        match HttpService::new(alloc, asker, clock) {
            Ok(service) => return service,
            Err(back) => parts = back,
        }
    }
    unreachable!()
}

/// The work of a door.
fn work_door<K: Keeper + Drop, M: ServiceMonitor + Drop, N: Listener, C: Clock + Drop, R: Wait>(
    rt: &R,
    alloc: Global,
    desk: &SharedDesk<K, M>,
    pass: Pass,
    door: &mut Door<N, C>,
) -> Pass
    requires pass { IsPassOf desk.now pass }
    requires clock { IsSome door.old.clock }
    requires none_out { N.is_out door.old.listener ≡ false }
    ensures pass { IsPassOf desk.now result }
    ensures number { result.number ≡ pass.number }
    ensures works { DoorWorks desk.now N.Listener N.Link.Link C.Clock pass door.old result door.new }
{
    let Some(clock) = door.clock.take() else {
        unreachable!()
    };
    let mut service = make_service(rt, alloc, desk.asker(rt, pass), clock);
    let end = serve_links(rt, alloc, &mut service, &mut door.listener);
    let (asker, clock) = service.into_parts();
    door.clock = Some(clock);
    door.end = Some(end);
    desk.monitor().door_ended(end);
    asker.into_pass()
}

impl<S: Spawner, P: Stopper, N: Listener, C: Clock + Drop> Work for WorkerKind<S, P, N, C> {
    ghost can_work = { IsReady N.is_out };

    ghost worked = { λ desk p old q new. Works desk
        (record { spawner = S.Spawner; stopper = P.Stopper; listener = N.Listener; link = N.Link.Link; clock = C.Clock }) p old q new };

    fn work<K: Keeper + Drop, M: ServiceMonitor + Drop, R: Wait>(
        &mut self,
        rt: &R,
        alloc: Global,
        desk: &SharedDesk<K, M>,
        pass: Pass,
    ) -> Pass {
        match self {
            WorkerKind::Lane(lane) => work_lane(rt, alloc, desk, pass, lane),
            WorkerKind::Timer(timer) => work_timer(rt, alloc, desk, pass, timer),
            WorkerKind::Door(door) => work_door(rt, alloc, desk, pass, door),
        }
    }
}
