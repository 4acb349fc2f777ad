//! The command `serve`.
ghost use Rattle.std.specs.Prelude.{◌≡◌, ◌+◌, ◌≤◌, ◌⊎◌, All, [], length, None, Some, IsSome, IfSome, vec_len, vec_capacity};
ghost use Rattle.bt_base.specs.Causes.{Rose};
ghost use Rattle.batch_desk.specs.Answers.{IsInOrder};
ghost use Rattle.cli_words.specs.Commands.{command_of};
ghost use Rattle.cli_words.specs.Ranges.{IsInRange};
ghost use Rattle.counted_lock.specs.Passes.{IsPassOf};
ghost use Rattle.counted_lock.specs.Views.{places_of, unnumbered};
ghost use Rattle.batch_serve.specs.Ends.{status_of};
ghost use Rattle.batch_serve.specs.Works.{IsReady};
ghost use Rattle.batch_serve.specs.Passes.{AllServe};
ghost use Rattle.batch_serve.specs.Promises.{KeepsPromises};
ghost use Rattle.batch_serve.specs.Serving.{open_status, serve_options, IsOpenedFor, KeepsHistory, IsServed};
ghost use Rattle.batch_serve.specs.Statuses.{SaysListenFault, SaysMemory, SaysJournalFull, SaysDone};
ghost use Rattle.batch_serve.specs.declared.status.ServeStatus.TheVariants.{Memory as MemoryStatus, Usage as UsageStatus, SinkFault as SinkStatus, KeeperFault as KeeperStatus};
ghost use Rattle.batch_serve.specs.declared.status.ServeStatus.TheVariants.{ListenFault as ListenStatus, JournalFull as FullStatus, Done as DoneStatus};

use crate::crew::crew;
use crate::monitor::ServiceMonitor;
use crate::passes::{close, give_passes, take_passes};
use crate::status::{ServeStatus, status_of};
use crate::work::Work;
use crate::worker::{Worker, WorkerKind};
use batch_desk::{Desk, Journal};
use batch_keeper::{KeepError, Keeper};
use bt_base::{NoMemory, Word};
use bt_clock::Clock;
use byte_streams::{Failed, Sink, write_all};
use child_runs::{Spawner, Stopper};
use cli_words::{Command, Invocation, ServeOptions, read_command};
use link_doors::Listener;
use shared_desk::{Pass, SharedDesk};
use std::alloc::Global;
use std::sync::Wait;
use std::thread::Threads;

/// What the service leaves.
#[derive(Drop)]
pub struct Served<K> {
    /// How it ended.
    pub status: ServeStatus,
    /// The keeper.
    pub keeper: K,
    /// The calls; None exactly if no desk was opened.
    pub journal: Option<Journal>,
}

/// A service that opened no desk.
fn unopened<K>(status: ServeStatus, keeper: K) -> Served<K>
    ensures status { result.status ≡ status }
    ensures keeper { result.keeper ≡ keeper }
    ensures journal { result.journal ≡ None }
{
    Served {
        status,
        keeper,
        journal: None,
    }
}

/// A service whose desk no worker called.
fn unshared<K: Keeper + Drop>(status: ServeStatus, desk: Desk<K>) -> Served<K>
    requires { desk.entries ≡ [] }
    ensures status { result.status ≡ status }
    ensures journal { IsSome result.journal }
    ensures empty { IfSome result.journal (λ j. j.entries ≡ []) }
    ensures opened { IfSome result.journal (λ j. (j.seats ≡ desk.seats) × (j.limit ≡ desk.limit) × (j.opened.state ≡ desk.opened)) }
    ensures kept { IfSome result.journal (λ j. KeepsHistory K.told K.faults result.keeper j) }
{
    let (keeper, journal) = desk.close();
    Served {
        status,
        keeper,
        journal: Some(journal),
    }
}

/// The status of a service whose desk could not be opened.
fn open_status(error: KeepError) -> ServeStatus
    ensures { result ≡ open_status error }
{
    match error {
        KeepError::Failed => ServeStatus::KeeperFault,
        KeepError::Memory => ServeStatus::Memory,
    }
}

/// Has the workers work over the shared desk, and closes it. There is room for the passes of all workers and the first one.
fn run_crew<
    K: Keeper + Drop + Send,
    M: ServiceMonitor + Drop + Sync,
    W: Work + Send,
    R: Threads + Wait + Sync,
>(
    rt: &R,
    alloc: Global,
    desk: SharedDesk<K, M>,
    first: Pass,
    room: Vec<Pass>,
    workers: &mut [Worker<W>],
) -> (K, Journal)
    requires first { IsPassOf desk first }
    requires fresh { places_of first.number first.seen ≡ [] }
    requires opened { unnumbered first.seen ≡ [] }
    requires empty { room.items ≡ [] }
    requires room { length workers.old + 1 ≤ vec_capacity room }
    requires ready { All (λ w. W.can_work w.kind) workers.old }
    ensures opened { (result.1.seats ≡ desk.origin.seats) × (result.1.limit ≡ desk.origin.limit) × (result.1.opened.state ≡ desk.origin.opened) }
    ensures kept { KeepsHistory K.told K.faults result.0 result.1 }
    ensures serves { AllServe W.worked desk result.1.entries workers.old workers.new }
{
    let mut next = first;
    let mut passes = room;
    give_passes(rt, &desk, &mut next, workers);
    crew(rt, alloc, &desk, workers);
    passes.push_reserved(next);
    take_passes(workers, &mut passes);
    close(rt, desk, passes)
}

/// Says that the service listens, and has the workers work.
fn listen<
    K: Keeper + Drop + Send,
    M: ServiceMonitor + Drop + Sync,
    S: Spawner + Send,
    P: Stopper + Send,
    N: Listener + Send,
    C: Clock + Drop + Send,
    W: Sink,
    R: Threads + Wait + Sync,
>(
    rt: &R,
    alloc: Global,
    sink: &mut W,
    desk: Desk<K>,
    monitor: M,
    workers: &mut [Worker<WorkerKind<S, P, N, C>>],
) -> Served<K>
where
    N::Link: Send,
    requires empty { desk.entries ≡ [] }
    requires in_order { IsInOrder K.told K.faults desk }
    requires ready { All (λ w. IsReady N.is_out w.kind) workers.old }
    ensures served { IsServed (record { spawner = S.Spawner; stopper = P.Stopper; listener = N.Listener; link = N.Link.Link; clock = C.Clock })
        workers.old workers.new (W.taken sink.old) (W.taken sink.new) result.status result.journal }
    ensures journal { IsSome result.journal }
    ensures opened { IfSome result.journal (λ j. (j.seats ≡ desk.seats) × (j.limit ≡ desk.limit) × (j.opened.state ≡ desk.opened)) }
    ensures kept { IfSome result.journal (λ j. KeepsHistory K.told K.faults result.keeper j) }
    ensures no_usage { result.status ≡ UsageStatus → ⊥ }
    ensures no_keeper_fault { result.status ≡ KeeperStatus → ⊥ }
    ensures sink_fault { result.status ≡ SinkStatus → Rose (W.faults sink.old) (W.faults sink.new) }
{
    let mut room = Vec::new(alloc);
    let Some(count) = workers.len().checked_add(1) else {
        return unshared(ServeStatus::Memory, desk);
    };
    match room.reserve(count) {
        Ok(()) => {}
        Err(_) => return unshared(ServeStatus::Memory, desk),
    }
    match write_all(sink, b"listening\n") {
        Ok(()) => {}
        Err(Failed) => return unshared(ServeStatus::SinkFault, desk),
    }
    match SharedDesk::open(alloc, desk, monitor) {
        Ok((desk, first)) => {
            let (keeper, journal) = run_crew(rt, alloc, desk, first, room, workers);
            Served {
                status: status_of(workers),
                keeper,
                journal: Some(journal),
            }
        }
        Err(desk) => unshared(ServeStatus::Memory, desk),
    }
}

/// Opens the desk, and serves.
fn serve<
    K: Keeper + Drop + Send,
    M: ServiceMonitor + Drop + Sync,
    S: Spawner + Send,
    P: Stopper + Send,
    N: Listener + Send,
    C: Clock + Drop + Send,
    W: Sink,
    R: Threads + Wait + Sync,
>(
    rt: &R,
    alloc: Global,
    options: ServeOptions,
    sink: &mut W,
    keeper: K,
    monitor: M,
    workers: &mut [Worker<WorkerKind<S, P, N, C>>],
) -> Served<K>
where
    N::Link: Send,
    requires some { 1 ≤ options.seats }
    requires few { options.seats ≤ 32 }
    requires ready { All (λ w. IsReady N.is_out w.kind) workers.old }
    ensures served { IsServed (record { spawner = S.Spawner; stopper = P.Stopper; listener = N.Listener; link = N.Link.Link; clock = C.Clock })
        workers.old workers.new (W.taken sink.old) (W.taken sink.new) result.status result.journal }
    ensures opened { IfSome result.journal (λ j. IsOpenedFor options (K.told keeper) j) }
    ensures kept { IfSome result.journal (λ j. KeepsHistory K.told K.faults result.keeper j) }
    ensures untouched { result.journal ≡ None → K.told result.keeper ≡ K.told keeper }
    ensures no_usage { result.status ≡ UsageStatus → ⊥ }
    ensures sink_fault { result.status ≡ SinkStatus → Rose (W.faults sink.old) (W.faults sink.new) }
    ensures keeper_fault { result.status ≡ KeeperStatus → Rose (K.faults keeper) (K.faults result.keeper) }
{
    match Desk::open(alloc, keeper, options.seats, options.journal) {
        Ok(desk) => listen(rt, alloc, sink, desk, monitor, workers),
        Err((keeper, error)) => unopened(open_status(error), keeper),
    }
}

/// The options of `serve`, if this is that command.
fn options_of(invocation: &Option<Invocation>) -> Option<ServeOptions>
    requires ranges { IfSome invocation.now (λ i. IsInRange i.command) }
    ensures options { result ≡ serve_options invocation.now }
    ensures seats { IfSome result (λ options. (1 ≤ options.seats) × (options.seats ≤ 32)) }
{
    match invocation {
        Some(invocation) => match invocation.command {
            Command::Serve(options) => Some(options),
            Command::Replay(_)
            | Command::Calendar(_)
            | Command::Formula(_)
            | Command::Export
            | Command::Drill(_) => None,
        },
        None => None,
    }
}

/// Does the command `serve` that the words are: opens a desk over the keeper, writes the line `listening` to the sink, and has the workers
/// work, each in a thread of its own where one can be made, until all of them have ended. Then it closes the desk, and returns its
/// keeper and its journal. The monitor hears of each call, in the order of the journal, and how each worker ended.
///
/// `Usage` comes exactly if the words are not a command `serve`, unless memory runs out before that is known; `KeeperFault` only if the
/// keeper's count of faults rose at the opening, and `SinkFault` only if that of the sink rose. The status is otherwise what the ends of
/// the workers say: `ListenFault` if a listener failed, whose count of faults rose, else `Memory` if a worker or a connection ran out of
/// memory, else `JournalFull` if a worker found the journal full, which then has as many entries as its limit, else `Done`. `Memory` also
/// comes if memory runs out before the workers begin.
pub fn serve_words<
    K: Keeper + Drop + Send,
    M: ServiceMonitor + Drop + Sync,
    S: Spawner + Send,
    P: Stopper + Send,
    N: Listener + Send,
    C: Clock + Drop + Send,
    W: Sink,
    R: Threads + Wait + Sync,
>(
    rt: &R,
    alloc: Global,
    words: &[Word],
    sink: &mut W,
    keeper: K,
    monitor: M,
    workers: &mut [Worker<WorkerKind<S, P, N, C>>],
) -> Served<K>
where
    N::Link: Send,
    requires ready { All (λ w. IsReady N.is_out w.kind) workers.old }
    ensures served { IsServed (record { spawner = S.Spawner; stopper = P.Stopper; listener = N.Listener; link = N.Link.Link; clock = C.Clock })
        workers.old workers.new (W.taken sink.old) (W.taken sink.new) result.status result.journal }
    ensures promises { IfSome result.journal (λ j. KeepsPromises (record { spawner = S.Spawner; stopper = P.Stopper; listener = N.Listener; link = N.Link.Link; clock = C.Clock })
        workers.old workers.new result.status j) }
    ensures opened { IfSome result.journal (λ j. IfSome (serve_options (command_of words.now)) (λ options. IsOpenedFor options (K.told keeper) j)) }
    ensures kept { IfSome result.journal (λ j. KeepsHistory K.told K.faults result.keeper j) }
    ensures untouched { result.journal ≡ None → K.told result.keeper ≡ K.told keeper }
    ensures usage { result.status ≡ UsageStatus → serve_options (command_of words.now) ≡ None }
    ensures no_command { serve_options (command_of words.now) ≡ None → (result.status ≡ UsageStatus) ⊎ (result.status ≡ MemoryStatus) }
    ensures unserved { serve_options (command_of words.now) ≡ None → result.journal ≡ None }
    ensures sink_fault { result.status ≡ SinkStatus → Rose (W.faults sink.old) (W.faults sink.new) }
    ensures keeper_fault { result.status ≡ KeeperStatus → Rose (K.faults keeper) (K.faults result.keeper) }
    ensures listen_fault { result.status ≡ ListenStatus → SaysListenFault N.faults workers.old workers.new result.journal }
    ensures memory { result.status ≡ MemoryStatus → SaysMemory workers.old workers.new result.journal }
    ensures journal_full { result.status ≡ FullStatus → SaysJournalFull workers.new result.journal }
    ensures done { result.status ≡ DoneStatus → SaysDone (record { spawner = S.Spawner; stopper = P.Stopper; listener = N.Listener; link = N.Link.Link; clock = C.Clock })
        workers.new result.journal }
{
    let invocation = match read_command(alloc, words) {
        Ok(invocation) => invocation,
        Err(NoMemory) => return unopened(ServeStatus::Memory, keeper),
    };
    match options_of(&invocation) {
        Some(options) => serve(rt, alloc, options, sink, keeper, monitor, workers),
        None => unopened(ServeStatus::Usage, keeper),
    }
}
