//! Stores of the program, and what it says of them on standard error. Faults of that stream change nothing.
ghost use Rattle.std.specs.Prelude.{None};

use bt_base::{NoMemory, Word, text_of};
use byte_streams::{Failed, Sink};
use service_host::Reports;
use sql_store::{CloseError, OpenError, OpenMode, SqlStore, StoreSync};
use std::io::Eprint;
use std::marker::Model;
use std::sync::Wait;
use std::time::Clock;
use store_keeper::StoreKeeper;

/// A store of the program, which reports on standard error.
pub type HostStore<R> = SqlStore<R, Reports<R>>;

/// Opens the file at the path with the runtime of the program, and says on standard error if it was made.
pub fn open_store<R: Eprint + Copy + Drop>(
    rt: &R,
    host: &HostRuntime,
    path: &Word,
    mode: OpenMode,
) -> Result<HostStore<R>, OpenError> {
    let Some(path) = text_of(path.as_bytes()) else {
        return Err(OpenError::NotMade);
    };
    let store = SqlStore::open(host, *rt, path, mode, Reports::new(*rt))?;
    if store.is_new() {
        let _ = rt.eprintln(format_args!("batch: made the store {path}"));
    }
    Ok(store)
}

/// Says how far the last moment of the tables is ahead of the system's time, if it is.
pub fn warn_of_moment<R: Wait + Clock + Eprint + Copy + Drop>(rt: &R, store: &mut HostStore<R>) {
    let Some(last_ms) = store.last_moment() else {
        return;
    };
    let Ok(now) = rt.since_1970() else {
        return;
    };
    let now_ms = u64::try_from(now.as_millis()).unwrap_or(u64::MAX);
    if last_ms > now_ms {
        let ahead = (last_ms - now_ms) / 1_000;
        let _ = rt.eprintln(format_args!(
            "batch: the tables are {ahead} seconds ahead of the system's clock; until it has caught up no time passes for them, and no wall time is over: see the clock"
        ));
    }
}

/// Closes the store, so that its file alone has all that was saved. A fault of that is said. Returns whether the file has all that was saved, or
/// the log beside it.
pub fn close_store<R: Wait + Clock + Eprint + Copy + Drop>(rt: &R, store: HostStore<R>) -> bool {
    match store.close() {
        Ok(()) => true,
        Err(error) => {
            let _ = rt.eprintln(format_args!("batch: the store could not be closed: {error}"));
            !matches!(error, CloseError::Unwritten(_))
        }
    }
}

/// Says why the store could not be read or its tables loaded, if that failed, and closes it. Returns what `close_store` does.
pub fn leave_store<R: Wait + Clock + Eprint + Copy + Drop>(
    rt: &R,
    keeper: StoreKeeper<HostStore<R>>,
) -> bool {
    if let Some(fault) = keeper.load_fault() {
        let _ = rt.eprintln(format_args!("batch: the tables cannot be loaded: {fault}"));
    }
    let store = keeper.into_store();
    if let Some(fault) = store.read_fault() {
        let _ = rt.eprintln(format_args!("batch: the store cannot be read: {fault}"));
    }
    close_store(rt, store)
}

/// How long a sink waits at most until what it is to take is saved, in milliseconds.
const SINK_MS: u64 = 60_000;

/// A sink that takes bytes only once all that was saved up to then is in the store. It counts as a fault each of the inner sink, and each wait
/// that was too long or in vain. Contracts see its count of faults.
#[derive(Drop)]
pub struct SavedSink<R: Wait + Clock + Eprint + Copy + Drop, W: Sink + Drop> {
    rt: R,
    sync: StoreSync<Reports<R>>,
    inner: W,
    faults: u64,
    is_unsaved: bool,
}

impl<R: Wait + Clock + Eprint + Copy + Drop, W: Sink + Drop> Model for SavedSink<R, W> {
    ghost use Rattle.std.specs.Prelude.{ℕ};

    ghost Value = { ℕ };

    ghost view = { λ s. s.faults };
}

impl<R: Wait + Clock + Eprint + Copy + Drop, W: Sink + Drop> SavedSink<R, W> {
    /// A sink for what is saved in this store. The only error is out of memory.
    pub fn new(rt: R, store: &HostStore<R>, inner: W) -> Result<SavedSink<R, W>, NoMemory> {
        Ok(SavedSink {
            rt,
            sync: store.sync().share()?,
            inner,
            faults: 0,
            is_unsaved: false,
        })
    }

    /// Whether it did not take bytes, since not all was saved.
    pub fn is_unsaved(&self) -> bool {
        self.is_unsaved
    }
}

impl<R: Wait + Clock + Eprint + Copy + Drop, W: Sink + Drop> Sink for SavedSink<R, W> {
    ghost taken = { λ _. None };

    ghost faults = { λ s. s };

    /// Waits, and passes the piece on. Returns `Failed` if not all was saved in time, or if the inner sink fails.
    fn write(&mut self, piece: &[u8]) -> Result<usize, Failed> {
        self.is_unsaved = self.sync.wait(&self.rt, Some(SINK_MS)).is_err();
        let written = if self.is_unsaved {
            Err(Failed)
        } else {
            self.inner.write(piece)
        };
        if written.is_err() {
            self.faults = self.faults.saturating_add(1);
        }
        written
    }
}
