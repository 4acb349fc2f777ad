//! Tests of listeners that cannot accept a connection, over a socket whose first calls fail, and of listeners that are told to end.
ghost use Rattle.std.specs.Prelude.{◌≡◌, false, IfOk};

use link_doors::{Accepted, Listener};
use std::alloc::Global;
use std::net::{Ipv4Addr, Net, OpenListener, SocketAddr, TcpListener as Socket, TcpStream};
use std::sync::Arc;
use std::sync::atomic::{AtomicBool, AtomicU64, Ordering};
use std::test::Fail;
use std::time::{Clock, Duration, Instant};
use std::{io, thread};
use tcp_links::{
    AcceptCause, ListenFlags, ListenOptions, MAX_UNKNOWN_MS, TcpListener, TcpMonitor, WaitLimits,
};

/// EMFILE of Linux.
const TOO_MANY_FILES: i32 = 24;

/// EBADF of Linux.
const NO_SOCKET: i32 = 9;

/// A number that Linux gives to no error of `accept`.
const UNKNOWN: i32 = 200;

/// What a monitor was told.
#[derive(Drop)]
struct Tellings {
    waits: AtomicU64,
    goes_on: AtomicU64,
    program_files: AtomicU64,
}

impl Tellings {
    fn new() -> Tellings {
        Tellings {
            waits: AtomicU64::new(0),
            goes_on: AtomicU64::new(0),
            program_files: AtomicU64::new(0),
        }
    }

    /// How often it was told that no connection is accepted, how often because of the program's files, and how often that it goes on.
    fn counts(&self) -> (u64, u64, u64) {
        (
            self.waits.load(Ordering::SeqCst),
            self.program_files.load(Ordering::SeqCst),
            self.goes_on.load(Ordering::SeqCst),
        )
    }
}

/// A monitor that counts.
#[derive(Clone, Copy)]
struct Counting<'a>(&'a Tellings);

impl TcpMonitor for Counting<'_> {
    fn accept_waits(&self, cause: AcceptCause) {
        self.0.waits.fetch_add(1, Ordering::SeqCst);
        if cause == AcceptCause::ProgramFiles {
            self.0.program_files.fetch_add(1, Ordering::SeqCst);
        }
    }

    fn accept_goes_on(&self) {
        self.0.goes_on.fetch_add(1, Ordering::SeqCst);
    }
}

/// A socket whose first calls of `accept`, so many, fail with this error of the system.
#[derive(Drop)]
struct FailingSocket {
    socket: Socket,
    left: AtomicU64,
    error: i32,
}

impl OpenListener for FailingSocket {
    type Stream = TcpStream;

    fn accept(&self) -> io::Result<(TcpStream, SocketAddr)> {
        let left = self.left.fetch_update(
            Ordering::SeqCst,
            Ordering::SeqCst,
            |left| left.checked_sub(1),
        );
        match left {
            Ok(_) => Err(io::Error::from_raw_os_error(self.error)),
            Err(_) => self.socket.accept(),
        }
    }
}

/// A time that passes while one sleeps, in milliseconds, and not else.
#[derive(Clone, Copy)]
struct SleptTime<'a>(&'a AtomicU64);

impl Clock for SleptTime<'_> {
    fn monotonic(&self) -> io::Result<Duration> {
        Ok(Duration::from_millis(self.0.load(Ordering::SeqCst)))
    }

    fn since_1970(&self) -> io::Result<Duration> {
        self.monotonic()
    }

    fn sleep(&self, duration: Duration) {
        let ms = u64::try_from(duration.as_millis()).unwrap_or(0);
        self.0.fetch_add(ms, Ordering::SeqCst);
    }
}

/// Flags that are not raised.
fn flags(alloc: Global) -> Result<ListenFlags, Fail> {
    Ok(ListenFlags {
        stopping: Arc::new(alloc, AtomicBool::new(false))?,
        all_ended: Arc::new(alloc, AtomicBool::new(false))?,
    })
}

/// One connection at a free port.
const ONE: ListenOptions = ListenOptions {
    port: 0,
    connections: 1,
    limits: WaitLimits {
        first_byte_ms: 30_000,
        message_ms: 30_000,
        answer_ms: 30_000,
        kept_ms: 30_000,
    },
};

/// A listener of one connection over a socket whose first calls fail, in a time that passes while one sleeps.
type FailingListener<'a> = TcpListener<SleptTime<'a>, Counting<'a>, FailingSocket>;

/// A socket at a free port, and a client that is connected to it.
struct Connected {
    socket: Socket,
    client: TcpStream,
}

fn connect<R: Net<Listener = Socket, Stream = TcpStream>>(rt: &R) -> Result<Connected, Fail> {
    let host = Ipv4Addr::new(127, 0, 0, 1);
    let socket = Socket::bind(rt, (host, 0))?;
    let client = TcpStream::connect(rt, (host, socket.local_addr()?.port()))?;
    Ok(Connected { socket, client })
}

/// A listener over this socket whose first calls, so many, fail with this error.
fn failing<'a>(
    alloc: Global,
    slept: &'a AtomicU64,
    tellings: &'a Tellings,
    socket: Socket,
    fails: u64,
    error: i32,
    flags: ListenFlags,
) -> Result<FailingListener<'a>, Fail>
    ensures { IfOk result (λ l. l.is_out ≡ false) }
{
    let socket = FailingSocket {
        socket,
        left: AtomicU64::new(fails),
        error,
    };
    let time = SleptTime(slept);
    Ok(TcpListener::over(time, alloc, socket, ONE, flags, Counting(tellings))?)
}

#[test]
fn a_listener_goes_on_once_descriptors_are_free(rt: HostRuntime) -> Result<(), Fail> {
    let Connected { socket, client } = connect(&rt)?;
    let slept = AtomicU64::new(0);
    let tellings = Tellings::new();
    let flags = flags(rt.alloc())?;
    // more waits than those after which errors that are not known end a listener
    let mut listener = failing(
        rt.alloc(),
        &slept,
        &tellings,
        socket,
        2_000,
        TOO_MANY_FILES,
        flags,
    )?;
    let Accepted::Link(link) = listener.accept() else {
        panic!(rt; "no link")
    };
    // in the time of this test the end of the connection would wait for ever for an open client
    drop(client);
    listener.done(link);
    let ended = matches!(listener.accept(), Accepted::Ended);
    assert!(rt; ended);
    assert_eq!(rt; tellings.counts(), (1, 1, 1));
    assert!(rt; slept.load(Ordering::SeqCst) > MAX_UNKNOWN_MS);
    Ok(())
}

#[test]
fn an_unknown_error_ends_a_listener_in_time(rt: HostRuntime) -> Result<(), Fail> {
    let Connected { socket, client } = connect(&rt)?;
    let slept = AtomicU64::new(0);
    let tellings = Tellings::new();
    let flags = flags(rt.alloc())?;
    let all_ended = Arc::try_clone(&flags.all_ended)?;
    let mut listener = failing(
        rt.alloc(),
        &slept,
        &tellings,
        socket,
        u64::MAX,
        UNKNOWN,
        flags,
    )?;
    let failed = matches!(listener.accept(), Accepted::Failed);
    drop(client);
    let slept = slept.load(Ordering::SeqCst);
    assert!(rt; failed && all_ended.load(Ordering::SeqCst));
    assert_eq!(rt; tellings.counts(), (1, 0, 0));
    assert!(rt; slept >= MAX_UNKNOWN_MS && slept < MAX_UNKNOWN_MS + 2_000);
    Ok(())
}

#[test]
fn a_socket_of_no_use_ends_a_listener(rt: HostRuntime) -> Result<(), Fail> {
    let Connected { socket, client } = connect(&rt)?;
    let slept = AtomicU64::new(0);
    let tellings = Tellings::new();
    let flags = flags(rt.alloc())?;
    let all_ended = Arc::try_clone(&flags.all_ended)?;
    let mut listener = failing(rt.alloc(), &slept, &tellings, socket, 1, NO_SOCKET, flags)?;
    let failed = matches!(listener.accept(), Accepted::Failed);
    drop(client);
    assert!(rt; failed && all_ended.load(Ordering::SeqCst));
    assert_eq!(rt; tellings.counts(), (0, 0, 0));
    assert_eq!(rt; slept.load(Ordering::SeqCst), 0);
    Ok(())
}

#[test]
fn a_listener_that_waits_ends_when_it_is_told_to(rt: HostRuntime) -> Result<(), Fail> {
    let tellings = Tellings::new();
    let flags = flags(rt.alloc())?;
    let stopping = Arc::try_clone(&flags.stopping)?;
    let all_ended = Arc::try_clone(&flags.all_ended)?;
    let mut listener = TcpListener::bind(rt, rt.alloc(), ONE, flags, Counting(&tellings))?;
    let start = Instant::now(&rt)?;
    let (early, ended) = thread::join(
        &rt,
        || {
            thread::sleep(&rt, Duration::from_millis(300));
            let early = all_ended.load(Ordering::SeqCst);
            stopping.store(true, Ordering::SeqCst);
            early
        },
        || matches!(listener.accept(), Accepted::Ended),
    );
    let quick = start.elapsed(&rt)? < Duration::from_secs(20);
    assert!(rt; ended && quick && !early);
    assert!(rt; all_ended.load(Ordering::SeqCst));
    assert_eq!(rt; tellings.counts(), (0, 0, 0));
    Ok(())
}
