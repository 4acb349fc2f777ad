//! The workers of the service: lanes, the timer and doors.
ghost use Rattle.std.specs.Prelude.{◌≡◌, [], ◌∷◌, ◌++◌, max, false, replicate, All, IfOk, OnOk};
ghost use Rattle.std.specs.List.{repeat};
ghost use Rattle.batch.specs.Crew.{LaneOf, TimerRole, DoorRole, role_of, roles_of, lanes_to, lanes_per_seat, crew_of};
ghost use Rattle.batch.specs.Ready.{IsHostReady};

use crate::service::host::Host;
use crate::service::start::StartFault;
use batch_serve::{Worker, WorkerKind};
use child_programs::{ProgramSpawner, ProgramStopper, ProgramTable, ServiceFolders};
use cli_words::ServeOptions;
use service_host::{LaneWait, LogWriter, Reports, ServiceReports, TimerWait, Wakes, WorkerClock};
use sql_store::{StoreHealth, StoreSync};
use std::alloc::AllocError;
use std::sync::Arc;
use system_clock::SystemClock;
use tcp_links::TcpListener;

/// How many child programs may run at a seat: those of a node's tasks, and one more.
pub const LANES_PER_SEAT: u8 = 9;

/// A listener of the service.
pub type HostListener<R> = TcpListener<R, ServiceReports<R>>;

/// A worker of the service.
pub type HostWorker<R> = Worker<
    WorkerKind<
        ProgramSpawner<R, ServiceReports<R>>,
        ProgramStopper<R>,
        HostListener<R>,
        WorkerClock<R>,
    >,
>;

/// What the lanes, the timer and the doors of a service share: the clock, the table and the folders of child programs, and whether the writes of
/// the store fail.
#[derive(Drop)]
pub struct Shared<R: Host> {
    /// The runtime.
    pub rt: R,
    /// The clock of the system, of which each worker has one.
    pub clock: SystemClock<R>,
    /// The child programs.
    pub table: Arc<ProgramTable>,
    /// The folders of the service.
    pub folders: ServiceFolders,
    /// Whether the writes of the store fail; None without a store.
    pub health: Option<StoreHealth>,
    /// What the writes of the store wait in; None without a store.
    pub sync: Option<StoreSync<Reports<R>>>,
    /// What wakes the lanes and the timer.
    pub wakes: Arc<Wakes>,
}

impl<R: Host> Shared<R> {
    fn lane(&self, seat: u8) -> Result<HostWorker<R>, StartFault>
        ensures ready { IfOk result (λ worker. IsHostReady worker.kind) }
        ensures role { IfOk result (λ worker. role_of worker.kind ≡ LaneOf seat) }
    {
        let health = match &self.health {
            Some(health) => Some(health.share()?),
            None => None,
        };
        let reports = ServiceReports::new(self.rt, self.sync.as_ref())?;
        let spawner = ProgramSpawner::new(self.rt, &self.table, &self.folders, reports)?;
        let wait = LaneWait {
            wakes: Arc::try_clone(&self.wakes)?,
            seat,
            health,
        };
        let clock = WorkerClock::lane(self.rt, &self.clock, wait)?;
        Ok(Worker::lane(seat, spawner, clock))
    }

    fn timer(&self, log: LogWriter<R>) -> Result<HostWorker<R>, StartFault>
        ensures ready { IfOk result (λ worker. IsHostReady worker.kind) }
        ensures role { IfOk result (λ worker. role_of worker.kind ≡ TimerRole) }
    {
        let stopper = ProgramStopper::new(self.rt, &self.table)?;
        let wait = TimerWait {
            wakes: Arc::try_clone(&self.wakes)?,
            table: Arc::try_clone(&self.table)?,
        };
        let clock = WorkerClock::timer(self.rt, &self.clock, wait, log)?;
        Ok(Worker::timer(stopper, clock))
    }

    fn door(&self, listener: HostListener<R>) -> Result<HostWorker<R>, StartFault>
        requires none_out { listener.is_out ≡ false }
        ensures ready { IfOk result (λ worker. IsHostReady worker.kind) }
        ensures role { IfOk result (λ worker. role_of worker.kind ≡ DoorRole) }
    {
        Ok(Worker::door(listener, WorkerClock::door(self.rt, &self.clock)?))
    }
}

/// Adds a worker.
fn push_worker<R: Host>(
    workers: &mut Vec<HostWorker<R>>,
    worker: HostWorker<R>,
) -> Result<(), StartFault>
    requires all { All (λ w. IsHostReady w.kind) workers.old.items }
    requires one { IsHostReady worker.kind }
    ensures ready { OnOk result (All (λ w. IsHostReady w.kind) workers.new.items) }
    ensures role { OnOk result (roles_of workers.new.items ≡ roles_of workers.old.items ++ role_of worker.kind ∷ []) }
{
    workers.push(worker).map_err(AllocError::from)?;
    Ok(())
}

/// Adds a door.
fn push_door<R: Host>(
    shared: &Shared<R>,
    listener: HostListener<R>,
    workers: &mut Vec<HostWorker<R>>,
) -> Result<(), StartFault>
    requires none_out { listener.is_out ≡ false }
    requires all { All (λ w. IsHostReady w.kind) workers.old.items }
    ensures ready { OnOk result (All (λ w. IsHostReady w.kind) workers.new.items) }
    ensures roles { OnOk result (roles_of workers.new.items ≡ roles_of workers.old.items ++ DoorRole ∷ []) }
{
    push_worker(workers, shared.door(listener)?)
}

/// Adds so many doors, one at least. The last one has the listener of which the others are made.
fn push_doors<R: Host>(
    shared: &Shared<R>,
    listener: HostListener<R>,
    doors: u8,
    workers: &mut Vec<HostWorker<R>>,
) -> Result<(), StartFault>
    requires none_out { listener.is_out ≡ false }
    requires all { All (λ w. IsHostReady w.kind) workers.old.items }
    ensures ready { OnOk result (All (λ w. IsHostReady w.kind) workers.new.items) }
    ensures roles { OnOk result (roles_of workers.new.items ≡ roles_of workers.old.items ++ replicate (max 1 doors) DoorRole) }
{
    let others = doors.saturating_sub(1);
    for _made in 0..others {
        let another = listener
            .another()
            .map_err(|fault| StartFault::of_bind(fault, 0))?;
        push_door(shared, another, workers)?;
    }
    push_door(shared, listener, workers)?;
    Ok(())
}

/// Adds a lane at this seat.
fn push_lane<R: Host>(
    shared: &Shared<R>,
    seat: u8,
    workers: &mut Vec<HostWorker<R>>,
) -> Result<(), StartFault>
    requires all { All (λ w. IsHostReady w.kind) workers.old.items }
    ensures ready { OnOk result (All (λ w. IsHostReady w.kind) workers.new.items) }
    ensures roles { OnOk result (roles_of workers.new.items ≡ roles_of workers.old.items ++ LaneOf seat ∷ []) }
{
    push_worker(workers, shared.lane(seat)?)
}

/// Adds a lane for each seat.
fn push_lanes<R: Host>(
    shared: &Shared<R>,
    seats: u8,
    workers: &mut Vec<HostWorker<R>>,
) -> Result<(), StartFault>
    requires all { All (λ w. IsHostReady w.kind) workers.old.items }
    ensures ready { OnOk result (All (λ w. IsHostReady w.kind) workers.new.items) }
    ensures roles { OnOk result (roles_of workers.new.items ≡ roles_of workers.old.items ++ lanes_to seats) }
{
    for index in 0..seats {
        push_lane(shared, index + 1, workers)?;
    }
    Ok(())
}

/// Adds all lanes of all seats: first one for each seat, then another one for each, so that the seats lose about as many if the system
/// cannot make as many threads.
fn push_all_lanes<R: Host>(
    shared: &Shared<R>,
    seats: u8,
    workers: &mut Vec<HostWorker<R>>,
) -> Result<(), StartFault>
    requires all { All (λ w. IsHostReady w.kind) workers.old.items }
    ensures ready { OnOk result (All (λ w. IsHostReady w.kind) workers.new.items) }
    ensures roles { OnOk result (roles_of workers.new.items ≡ roles_of workers.old.items ++ repeat lanes_per_seat (lanes_to seats)) }
{
    for _round in 0..LANES_PER_SEAT {
        push_lanes(shared, seats, workers)?;
    }
    Ok(())
}

/// The number of workers.
pub fn worker_count(options: ServeOptions) -> usize {
    let lanes = usize::from(options.seats) * usize::from(LANES_PER_SEAT);
    lanes + usize::from(options.doors) + 1
}

/// The workers, in the order in which they begin: so many lanes for each seat, the timer, which writes the log, and the doors.
pub fn workers<R: Host>(
    options: ServeOptions,
    shared: &Shared<R>,
    log: LogWriter<R>,
    listener: HostListener<R>,
) -> Result<Vec<HostWorker<R>>, StartFault>
    requires none_out { listener.is_out ≡ false }
    ensures ready { IfOk result (λ workers. All (λ w. IsHostReady w.kind) workers.items) }
    ensures crew { IfOk result (λ workers. roles_of workers.items ≡ crew_of options.seats options.doors) }
{
    let mut workers = Vec::new(shared.rt.alloc());
    push_all_lanes(shared, options.seats, &mut workers)?;
    push_worker(&mut workers, shared.timer(log)?)?;
    push_doors(shared, listener, options.doors, &mut workers)?;
    Ok(workers)
}
