//! How `serve` ends.
ghost use Rattle.std.specs.Prelude.{◌≡◌, false};
ghost use Rattle.std.specs.List.{list_any};
ghost use Rattle.std.specs.Option.{option_map_or};
ghost use Rattle.batch_serve.specs.declared.status.ServeStatus.TheVariants.{Usage as UsageStatus, SinkFault as SinkStatus, KeeperFault as KeeperStatus};
ghost use Rattle.batch_serve.specs.Ends.{exit_code, is_memory, is_full, has_failed, met_memory, met_full_journal, status_of};

use crate::worker::{Worker, WorkerKind};
use batch_crew::LaneEnd;
use link_doors::Listener;

/// How the service ends; its exit status is the number beside it (this project's profile).
#[derive(Clone, Copy, Debug, PartialEq, Eq)]
pub enum ServeStatus {
    /// 0: none of the others. Each listener ended, and the service was to end.
    Done,
    /// 1: out of memory, before the workers began, or in a lane, the timer or a connection.
    Memory,
    /// 2: the words are not a command `serve`; nothing was written.
    Usage,
    /// 3: a listener failed.
    ListenFault,
    /// 4: the sink failed; no worker began.
    SinkFault,
    /// 5: the keeper failed at the opening; nothing was written.
    KeeperFault,
    /// 9: a lane or the timer found the journal full.
    JournalFull,
}

impl ServeStatus {
    /// The exit status.
    pub fn code(self) -> u8
        ensures { result ≡ exit_code self }
    {
        match self {
            ServeStatus::Done => 0,
            ServeStatus::Memory => 1,
            ServeStatus::Usage => 2,
            ServeStatus::ListenFault => 3,
            ServeStatus::SinkFault => 4,
            ServeStatus::KeeperFault => 5,
            ServeStatus::JournalFull => 9,
        }
    }
}

/// Whether the worker is a door whose listener failed.
fn has_failed<S, P, N: Listener, C>(worker: &Worker<WorkerKind<S, P, N, C>>) -> bool
    ensures { result ≡ has_failed worker.now }
{
    match &worker.kind {
        WorkerKind::Door(door) => match door.end {
            Some(end) => end.failed,
            None => false,
        },
        WorkerKind::Lane(_) | WorkerKind::Timer(_) => false,
    }
}

/// Whether a lane or a timer ended because memory ran out.
fn is_memory(end: Option<LaneEnd>) -> bool
    ensures { result ≡ option_map_or is_memory end false }
{
    match end {
        Some(LaneEnd::Memory) => true,
        Some(LaneEnd::Ended | LaneEnd::JournalFull) | None => false,
    }
}

/// Whether a lane or a timer found the journal full.
fn is_full(end: Option<LaneEnd>) -> bool
    ensures { result ≡ option_map_or is_full end false }
{
    match end {
        Some(LaneEnd::JournalFull) => true,
        Some(LaneEnd::Ended | LaneEnd::Memory) | None => false,
    }
}

/// Whether the worker, or a connection of it, ran out of memory.
fn met_memory<S, P, N: Listener, C>(worker: &Worker<WorkerKind<S, P, N, C>>) -> bool
    ensures { result ≡ met_memory worker.now }
{
    match &worker.kind {
        WorkerKind::Lane(lane) => is_memory(lane.end),
        WorkerKind::Timer(timer) => is_memory(timer.end),
        WorkerKind::Door(door) => match door.end {
            Some(end) => end.met_memory,
            None => false,
        },
    }
}

/// Whether the worker is a lane or a timer that found the journal full.
fn met_full_journal<S, P, N: Listener, C>(worker: &Worker<WorkerKind<S, P, N, C>>) -> bool
    ensures { result ≡ met_full_journal worker.now }
{
    match &worker.kind {
        WorkerKind::Lane(lane) => is_full(lane.end),
        WorkerKind::Timer(timer) => is_full(timer.end),
        WorkerKind::Door(_) => false,
    }
}

/// Whether a listener of the workers failed.
fn any_failed<S, P, N: Listener, C>(workers: &[Worker<WorkerKind<S, P, N, C>>]) -> bool
    ensures { result ≡ list_any has_failed workers.now }
{
    workers.iter().any(|worker| has_failed(worker))
}

/// Whether any of the workers ran out of memory.
fn any_memory<S, P, N: Listener, C>(workers: &[Worker<WorkerKind<S, P, N, C>>]) -> bool
    ensures { result ≡ list_any met_memory workers.now }
{
    workers.iter().any(|worker| met_memory(worker))
}

/// Whether any of the workers found the journal full.
fn any_full<S, P, N: Listener, C>(workers: &[Worker<WorkerKind<S, P, N, C>>]) -> bool
    ensures { result ≡ list_any met_full_journal workers.now }
{
    workers.iter().any(|worker| met_full_journal(worker))
}

/// The status that the ends of all workers give.
pub(crate) fn status_of<S, P, N: Listener, C>(
    workers: &[Worker<WorkerKind<S, P, N, C>>],
) -> ServeStatus
    ensures status { result ≡ status_of workers.now }
    ensures no_usage { result ≡ UsageStatus → ⊥ }
    ensures no_sink_fault { result ≡ SinkStatus → ⊥ }
    ensures no_keeper_fault { result ≡ KeeperStatus → ⊥ }
{
    if any_failed(workers) {
        ServeStatus::ListenFault
    } else if any_memory(workers) {
        ServeStatus::Memory
    } else if any_full(workers) {
        ServeStatus::JournalFull
    } else {
        ServeStatus::Done
    }
}
