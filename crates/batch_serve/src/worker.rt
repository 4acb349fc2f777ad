//! The workers of a crew.
ghost use Rattle.std.specs.Prelude.{◌≡◌, None, Some};
ghost use Rattle.batch_serve.specs.declared.worker.WorkerKind.TheVariants.{Lane as LaneKind, Timer as TimerKind, Door as DoorKind};

use batch_crew::LaneEnd;
use batch_http::DoorEnd;
use link_doors::Listener;
use shared_desk::Pass;

/// A lane: it runs the child programs of the runs that are queued at a seat.
#[derive(Drop)]
pub struct Lane<S, C> {
    /// The seat, from 1.
    pub seat: u8,
    /// What starts child programs.
    pub spawner: S,
    /// The clock.
    pub clock: C,
    /// Why it ended; None before its work.
    pub end: Option<LaneEnd>,
}

/// A timer: it ticks, and has child programs stopped.
#[derive(Drop)]
pub struct Timer<P, C> {
    /// What stops child programs.
    pub stopper: P,
    /// The clock.
    pub clock: C,
    /// Why it ended; None before its work.
    pub end: Option<LaneEnd>,
}

/// A door: it serves the links of a listener as HTTP.
#[derive(Drop)]
pub struct Door<N: Listener, C> {
    /// What gives links.
    pub listener: N,
    /// The clock; None only while the door works.
    pub clock: Option<C>,
    /// How it ended; None before its work.
    pub end: Option<DoorEnd>,
}

/// What a worker is.
#[derive(Drop)]
pub enum WorkerKind<S, P, N: Listener, C> {
    /// A lane.
    Lane(Lane<S, C>),
    /// A timer.
    Timer(Timer<P, C>),
    /// A door.
    Door(Door<N, C>),
}

/// A worker of a crew, with its pass.
#[derive(Drop)]
pub struct Worker<W> {
    /// Its pass of the shared desk; a blank one before and after its work.
    pub pass: Pass,
    /// What it is.
    pub kind: W,
}

impl<W> Worker<W> {
    /// A worker without a pass.
    fn of(kind: W) -> Worker<W>
        ensures { result.kind ≡ kind }
    {
        Worker {
            pass: Pass::blank(),
            kind,
        }
    }
}

impl<S, P, N: Listener, C> Worker<WorkerKind<S, P, N, C>> {
    /// A lane at this seat, from 1. It does not allocate.
    pub fn lane(seat: u8, spawner: S, clock: C) -> Worker<WorkerKind<S, P, N, C>>
        ensures { result.kind ≡ LaneKind (record { seat = seat; spawner = spawner; clock = clock; end = None }) }
    {
        Worker::of(WorkerKind::Lane(Lane {
            seat,
            spawner,
            clock,
            end: None,
        }))
    }

    /// A timer. It does not allocate.
    pub fn timer(stopper: P, clock: C) -> Worker<WorkerKind<S, P, N, C>>
        ensures { result.kind ≡ TimerKind (record { stopper = stopper; clock = clock; end = None }) }
    {
        Worker::of(WorkerKind::Timer(Timer {
            stopper,
            clock,
            end: None,
        }))
    }

    /// A door over this listener. It does not allocate.
    pub fn door(listener: N, clock: C) -> Worker<WorkerKind<S, P, N, C>>
        ensures { result.kind ≡ DoorKind (record { listener = listener; clock = Some clock; end = None }) }
    {
        Worker::of(WorkerKind::Door(Door {
            listener,
            clock: Some(clock),
            end: None,
        }))
    }
}
