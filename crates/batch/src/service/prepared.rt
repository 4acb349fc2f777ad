//! What the service makes before it begins.
ghost use Rattle.std.specs.Prelude.{◌≡◌, false, All, IfOk};
ghost use Rattle.batch.specs.Crew.{roles_of, crew_of};
ghost use Rattle.batch.specs.Ready.{IsHostReady};

use crate::service::host::Host;
use crate::service::start::StartFault;
use crate::service::workers::{
    HostListener, HostWorker, LANES_PER_SEAT, Shared, worker_count, workers,
};
use child_programs::{ProgramTable, ServiceFolders};
use cli_words::ServeOptions;
use service_host::{
    CallLog, HostMonitor, LogWriter, PAUSE_MS, Reports, ServiceReports, Wakes, file_instant,
    has_threads, log_path, make_folders, runs_path,
};
use sql_store::{StoreHealth, StoreSync};
use std::alloc::AllocError;
use std::env;
use std::sync::Arc;
use std::sync::atomic::AtomicBool;
use system_clock::SystemClock;
use tcp_links::{ListenFlags, ListenOptions, TcpListener, WaitLimits};

/// What a service needs before it begins.
#[derive(Drop)]
pub struct Prepared<R: Host> {
    /// Its workers.
    pub workers: Vec<HostWorker<R>>,
    /// What hears of its calls, and how its workers end.
    pub monitor: HostMonitor<R>,
    /// What writes the log of its calls after its end.
    pub log: LogWriter<R>,
    /// The port on which it listens; None if the system does not tell it.
    pub port: Option<u16>,
    /// The folder of its runs.
    pub runs: String,
}

/// The store of a service.
#[derive(Clone, Copy)]
pub struct StorePlace<'a, R: Host> {
    /// The path of its file.
    pub path: &'a str,
    /// Whether its writes fail.
    pub health: &'a StoreHealth,
    /// What its writes wait in.
    pub sync: &'a StoreSync<Reports<R>>,
}

/// What writes the log of calls, while the service runs and after its end.
#[derive(Drop)]
struct Logs<R: Host> {
    log: Arc<CallLog>,
    timer: LogWriter<R>,
    last: LogWriter<R>,
}

/// A new flag, and another owner of it.
#[derive(Drop)]
struct Flag {
    one: Arc<AtomicBool>,
    other: Arc<AtomicBool>,
}

/// Listens on the port.
fn listen<R: Host>(
    rt: &R,
    options: ServeOptions,
    flags: ListenFlags,
    sync: Option<&StoreSync<Reports<R>>>,
) -> Result<HostListener<R>, StartFault>
    ensures { IfOk result (λ listener. listener.is_out ≡ false) }
{
    let connections = match options.connections {
        Some(connections) => u64::from(connections),
        None => u64::MAX,
    };
    let listen = ListenOptions {
        port: options.port,
        connections,
        limits: WaitLimits::default(),
    };
    let reports = ServiceReports::new(*rt, sync)?;
    match TcpListener::bind(*rt, rt.alloc(), listen, flags, reports) {
        Ok(listener) => Ok(listener),
        Err(fault) => Err(StartFault::of_bind(fault, options.port)),
    }
}

/// The folders of a service that starts at this instant, which are made if they are not there.
fn folders<R: Host>(
    rt: &R,
    store: Option<&str>,
    instant: &str,
) -> Result<ServiceFolders, StartFault> {
    let service = env::current_dir(rt).map_err(StartFault::of_folder)?;
    let runs = runs_path(rt.alloc(), store, instant)?;
    let service = service.as_path().as_str();
    let folders = ServiceFolders::new(rt.alloc(), service, runs.as_str())?;
    make_folders(rt, &folders).map_err(StartFault::of_folder)?;
    Ok(folders)
}

/// A flag that is not raised, with two owners.
fn new_flag<R: Host>(rt: &R) -> Result<Flag, StartFault> {
    let one = Arc::new(rt.alloc(), AtomicBool::new(false)).map_err(AllocError::from)?;
    let other = Arc::try_clone(&one)?;
    Ok(Flag { one, other })
}

/// What writes the log of the calls of a service that starts at this instant.
fn new_logs<R: Host>(
    rt: &R,
    folders: &ServiceFolders,
    instant: &str,
) -> Result<Logs<R>, StartFault> {
    let log = Arc::new(rt.alloc(), CallLog::new(rt.alloc())).map_err(AllocError::from)?;
    let path = log_path(rt.alloc(), folders, instant)?;
    let timer = LogWriter::new(rt.alloc(), *rt, &log, folders.runs(), path.as_str())?;
    let last = LogWriter::new(rt.alloc(), *rt, &log, folders.runs(), path.as_str())?;
    Ok(Logs { log, timer, last })
}

/// What the workers of a service share, and what writes its log.
fn share<R: Host>(
    rt: &R,
    ending: &Arc<AtomicBool>,
    seats: u8,
    store: Option<StorePlace<'_, R>>,
) -> Result<(Shared<R>, Logs<R>), StartFault> {
    let clock = SystemClock::new(rt.alloc(), *rt, PAUSE_MS, ending)?;
    let instant = file_instant(rt.alloc(), clock.start_ms())?;
    let (path, health, sync) = match store {
        Some(store) => (
            Some(store.path),
            Some(store.health.share()?),
            Some(store.sync.share()?),
        ),
        None => (None, None, None),
    };
    let folders = folders(rt, path, instant.as_str())?;
    let logs = new_logs(rt, &folders, instant.as_str())?;
    let table = Arc::new(rt.alloc(), ProgramTable::new(rt.alloc())?).map_err(AllocError::from)?;
    let shared = Shared {
        rt: *rt,
        clock,
        table,
        folders,
        health,
        sync,
        wakes: Wakes::new(rt.alloc(), seats, LANES_PER_SEAT)?,
    };
    Ok((shared, logs))
}

/// Whether the system has threads for so many workers. The error says that it has not, or that memory ran out.
fn need_threads<R: Host + Send + 'static>(rt: &R, count: usize) -> Result<(), StartFault> {
    if has_threads(rt, rt.alloc(), count)? {
        Ok(())
    } else {
        Err(StartFault::Threads(count))
    }
}

/// Listens, makes the folders, and makes the workers and what hears of them. The error says why the service cannot begin.
pub fn prepare<'a, R: Host + Send + 'static>(
    rt: &'a R,
    options: ServeOptions,
    store: Option<StorePlace<'a, R>>,
) -> Result<Prepared<R>, StartFault>
    ensures ready { IfOk result (λ p. All (λ w. IsHostReady w.kind) p.workers.items) }
    ensures crew { IfOk result (λ p. roles_of p.workers.items ≡ crew_of options.seats options.doors) }
{
    need_threads(rt, worker_count(options))?;
    let Flag {
        one: ending,
        other: all_ended,
    } = new_flag(rt)?;
    let Flag {
        one: stopping,
        other: monitored,
    } = new_flag(rt)?;
    let flags = ListenFlags {
        stopping,
        all_ended,
    };
    let sync = match &store {
        Some(store) => Some(store.sync),
        None => None,
    };
    let listener = listen(rt, options, flags, sync)?;
    let port = listener.port();
    let (shared, logs) = share(rt, &ending, options.seats, store)?;
    drop(ending);
    let runs = String::from_str(rt.alloc(), shared.folders.runs())?;
    let Logs { log, timer, last } = logs;
    let workers = workers(options, &shared, timer, listener)?;
    let wakes = Arc::try_clone(&shared.wakes)?;
    drop(shared);
    Ok(Prepared {
        workers,
        monitor: HostMonitor::new(*rt, log, wakes, options.journal, monitored),
        log: last,
        port,
        runs,
    })
}
