//! The command `serve`: its listeners are on a port of 127.0.0.1, its lanes run programs of the system, and its clocks are the system's.
mod apart;
mod host;
mod prepared;
mod serving;
mod start;
mod workers;

use crate::service::apart::{Ending, wait_for_end};
use crate::service::host::Host;
use crate::service::serving::{serve_in_memory, serve_in_store};
use crate::stores::{close_store, open_store, warn_of_moment};
use batch_serve::ServeStatus;
use bt_base::{Word, text_of};
use byte_streams::Sink;
use cli_words::ServeOptions;
use sql_store::{OpenError, OpenMode};
pub use start::StartFault;
use std::alloc::AllocError;
use std::fs::File;
use std::io::Eprint;
use std::net::{Net, TcpListener as Socket, TcpStream};
use std::process::{Processes, SystemProcess};
use std::rt::{Env, Files};
use std::sync::{Arc, Wait};
use std::thread::{Builder, Threads};
use std::time::Clock;

/// A command `serve`.
#[derive(Drop)]
pub struct ServeCommand {
    /// Its words.
    pub words: Vec<Word>,
    /// Its options.
    pub options: ServeOptions,
    /// The path of the store over whose tables it serves; None to serve over empty tables in memory.
    pub store: Option<Word>,
}

/// A command `serve` over a store.
#[derive(Drop)]
struct StoreCommand<'a> {
    words: &'a [Word],
    options: ServeOptions,
    path: Word,
}

/// Why a service did not begin, or ended although its workers had not.
#[derive(Drop)]
pub enum ServeFault {
    /// Its store was not opened.
    Store {
        /// The path of the store's file.
        path: Word,
        /// Why it was not opened.
        error: OpenError,
    },
    /// Another cause.
    Start(StartFault),
}

impl From<StartFault> for ServeFault {
    fn from(fault: StartFault) -> ServeFault {
        ServeFault::Start(fault)
    }
}

impl From<AllocError> for ServeFault {
    fn from(_error: AllocError) -> ServeFault {
        ServeFault::Start(StartFault::Memory)
    }
}

/// Does the command over the tables that the store at the path has, in this thread. The store is closed in the end, also if the service cannot begin.
fn serve_store<R: Host + Send + Sync + 'static, W: Sink>(
    rt: &R,
    host: &HostRuntime,
    command: StoreCommand<'_>,
    ending: &Ending<R>,
    sink: &mut W,
) -> Result<ServeStatus, ServeFault>
where
    R::Dir: Send,
{
    let StoreCommand {
        words,
        options,
        path,
    } = command;
    let mut store = match open_store(rt, host, &path, OpenMode::MakeIfMissing) {
        Ok(store) => store,
        Err(error) => return Err(ServeFault::Store { path, error }),
    };
    warn_of_moment(rt, &mut store);
    if let Err(fault) = ending.watch(rt, store.sync()) {
        close_store(rt, store);
        return Err(ServeFault::Start(fault));
    }
    let path = text_of(path.as_bytes()).unwrap_or("");
    Ok(serve_in_store(rt, words, options, sink, store, path)?)
}

/// Does the command, in this thread.
fn serve_here<R: Host + Send + Sync + 'static, W: Sink>(
    rt: &R,
    host: &HostRuntime,
    command: ServeCommand,
    ending: &Ending<R>,
    sink: &mut W,
) -> Result<ServeStatus, ServeFault>
where
    R::Dir: Send,
{
    let ServeCommand {
        words,
        options,
        store,
    } = command;
    let words = words.as_slice();
    match store {
        Some(path) => {
            let command = StoreCommand {
                words,
                options,
                path,
            };
            serve_store(rt, host, command, ending, sink)
        }
        None => Ok(serve_in_memory(rt, words, options, sink)?),
    }
}

/// Does the command `serve`, in a thread of its own. `host` is the runtime of the program, with which its store is opened. If its store is shut, so
/// that nothing more can be saved, the program does not wait for the end of that thread, which child programs may hold up for long.
pub fn serve<
    R: Threads
        + Wait
        + Net<Listener = Socket, Stream = TcpStream>
        + Processes<Started = SystemProcess>
        + Files<File = File>
        + Clock
        + Env
        + AllocGlobal
        + Eprint
        + Copy
        + Send
        + Sync
        + Drop
        + 'static,
    W: Sink + Send + Drop + 'static,
>(rt: &R, host: &HostRuntime, command: ServeCommand, sink: W) -> Result<ServeStatus, ServeFault>
where
    R::Dir: Send,
{
    let ending = Ending::new(rt.alloc())?;
    let ending_there = Arc::try_clone(&ending)?;
    let rt_there = *rt;
    let host_there = *host;
    let service = Builder::new().spawn(rt, move || {
        let mut sink = sink;
        let served = serve_here(&rt_there, &host_there, command, &ending_there, &mut sink);
        drop(sink);
        ending_there.end();
        served
    });
    match service {
        Ok(service) => wait_for_end(rt, &ending, service),
        Err(_) => Err(ServeFault::Start(StartFault::Threads(1))),
    }
}
