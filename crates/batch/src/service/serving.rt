//! The service over a keeper.
ghost use Rattle.std.specs.Prelude.{◌≡◌, All};
ghost use Rattle.batch.specs.Crew.{roles_of, crew_of};
ghost use Rattle.batch.specs.Ready.{IsHostReady};

use crate::service::host::Host;
use crate::service::prepared::{Prepared, StorePlace, prepare};
use crate::service::start::StartFault;
use crate::service::workers::HostWorker;
use crate::stores::{HostStore, close_store, leave_store};
use batch_keeper::{Keeper, SureKeeper};
use batch_serve::{ServeStatus, Served, serve_words};
use bt_base::Word;
use bt_rows::tables::Tables;
use byte_streams::Sink;
use cli_words::ServeOptions;
use service_host::HostMonitor;
use store_keeper::StoreKeeper;

/// Serves over this keeper with these workers, which are those that the options say.
fn serve_with<R: Host + Send + Sync, K: Keeper + Drop + Send, W: Sink>(
    rt: &R,
    words: &[Word],
    sink: &mut W,
    keeper: K,
    monitor: HostMonitor<R>,
    options: ServeOptions,
    workers: Vec<HostWorker<R>>,
) -> (ServeStatus, K)
where
    R::Dir: Send,
    requires ready { All (λ w. IsHostReady w.kind) workers.items }
    requires crew { roles_of workers.items ≡ crew_of options.seats options.doors }
{
    let mut workers = workers;
    let Served {
        status,
        keeper,
        journal,
    } = serve_words(
        rt,
        rt.alloc(),
        words,
        sink,
        keeper,
        monitor,
        workers.as_mut_slice(),
    );
    drop(journal);
    drop(workers);
    (status, keeper)
}

/// Says on standard error where the service listens, and where its runs are. A fault of that stream changes nothing.
fn say_where<R: Host>(rt: &R, port: Option<u16>, runs: &str) {
    if let Some(port) = port {
        let _ = rt.eprintln(format_args!("batch: serves http://127.0.0.1:{port}"));
    }
    let _ = rt.eprintln(format_args!("batch: runs are in {runs}"));
}

/// Serves over this keeper with what was prepared for these options, and writes the end of the log.
fn serve_prepared<R: Host + Send + Sync, K: Keeper + Drop + Send, W: Sink>(
    rt: &R,
    words: &[Word],
    sink: &mut W,
    keeper: K,
    options: ServeOptions,
    prepared: Prepared<R>,
) -> (ServeStatus, K)
where
    R::Dir: Send,
    requires ready { All (λ w. IsHostReady w.kind) prepared.workers.items }
    requires crew { roles_of prepared.workers.items ≡ crew_of options.seats options.doors }
{
    let Prepared {
        workers,
        monitor,
        log,
        port,
        runs,
    } = prepared;
    let mut log = log;
    say_where(rt, port, runs.as_str());
    let (status, keeper) = serve_with(rt, words, sink, keeper, monitor, options, workers);
    log.write();
    drop(log);
    (status, keeper)
}

/// Serves over a keeper of empty tables in memory.
pub fn serve_in_memory<R: Host + Send + Sync + 'static, W: Sink>(
    rt: &R,
    words: &[Word],
    options: ServeOptions,
    sink: &mut W,
) -> Result<ServeStatus, StartFault>
where
    R::Dir: Send,
{
    let prepared = prepare(rt, options, None)?;
    let keeper = SureKeeper::new(Tables::empty(rt.alloc()));
    let (status, keeper) = serve_prepared(rt, words, sink, keeper, options, prepared);
    drop(keeper);
    Ok(status)
}

/// Serves over the tables that the store at this path has. The store is closed after the service; also if the service cannot begin.
/// The status is that of a fault of the store if not all could be saved.
pub fn serve_in_store<R: Host + Send + Sync + 'static, W: Sink>(
    rt: &R,
    words: &[Word],
    options: ServeOptions,
    sink: &mut W,
    store: HostStore<R>,
    path: &str,
) -> Result<ServeStatus, StartFault>
where
    R::Dir: Send,
{
    let place = StorePlace {
        path,
        health: store.health(),
        sync: store.sync(),
    };
    let prepared = match prepare(rt, options, Some(place)) {
        Ok(prepared) => prepared,
        Err(fault) => {
            close_store(rt, store);
            return Err(fault);
        }
    };
    let keeper = StoreKeeper::new(store);
    let (status, keeper) = serve_prepared(rt, words, sink, keeper, options, prepared);
    if leave_store(rt, keeper) {
        Ok(status)
    } else {
        Ok(ServeStatus::KeeperFault)
    }
}
