//! Tests over real sockets: two listeners share one port, a connection is read and answered, and both end; each time of a connection
//! is over for a client that is too slow; a link writes nothing that its monitor does not let it; links end while they wait for a message once
//! the service is stopping.
ghost use Rattle.std.specs.Prelude.{◌≡◌, false, IfOk};

use http_link::{Link, fill, write_all};
use link_doors::{Accepted, Listener};
use std::io::{Read, Write};
use std::net::{Ipv4Addr, Net, Shutdown, TcpListener as Socket, TcpStream};
use std::sync::Arc;
use std::sync::atomic::{AtomicBool, Ordering};
use std::test::Fail;
use std::thread;
use std::time::{Clock, Duration, Instant};
use tcp_links::{
    AcceptCause, ListenFlags, ListenOptions, TcpLink, TcpListener, TcpMonitor, WaitLimits,
};

/// A piece that the monitor does not let links write.
const UNSAVED: &[u8] = b"unsaved";

/// A monitor that tells nobody.
#[derive(Clone, Copy)]
struct Silent;

impl TcpMonitor for Silent {
    fn accept_waits(&self, _cause: AcceptCause) {}

    fn accept_goes_on(&self) {}

    fn before_write(&self, piece: &[u8]) -> bool {
        piece != UNSAVED
    }
}

/// Times that no client of these tests is to exceed.
const LONG: WaitLimits = WaitLimits {
    first_byte_ms: 30_000,
    message_ms: 30_000,
    answer_ms: 30_000,
    kept_ms: 30_000,
};

/// A time that a client exceeds, in milliseconds.
const SHORT_MS: u64 = 300;

/// A listener of so many connections with these times and flags.
fn listen<R: Clock + Net<Listener = Socket, Stream = TcpStream> + AllocGlobal + Copy + Drop>(
    rt: &R,
    connections: u64,
    limits: WaitLimits,
    stopping: &Arc<AtomicBool>,
    all_ended: &Arc<AtomicBool>,
) -> Result<TcpListener<R, Silent>, Fail>
    ensures { IfOk result (λ l. l.is_out ≡ false) }
{
    let options = ListenOptions {
        port: 0,
        connections,
        limits,
    };
    let flags = ListenFlags {
        stopping: Arc::try_clone(stopping)?,
        all_ended: Arc::try_clone(all_ended)?,
    };
    Ok(TcpListener::bind(*rt, rt.alloc(), options, flags, Silent)?)
}

/// A client and the link to it.
#[derive(Drop)]
struct Pair<R: Clock + Copy + Drop> {
    client: TcpStream,
    link: TcpLink<R, Silent>,
}

/// A connection with these times, which ends once the flag is raised.
fn connect<R: Clock + Net<Listener = Socket, Stream = TcpStream> + AllocGlobal + Copy + Drop>(
    rt: &R,
    limits: WaitLimits,
    stopping: &Arc<AtomicBool>,
) -> Result<Pair<R>, Fail> {
    let ended = Arc::new(rt.alloc(), AtomicBool::new(false))?;
    let mut listener = listen(rt, 1, limits, stopping, &ended)?;
    let address = (
        Ipv4Addr::new(127, 0, 0, 1),
        listener.port().ok_or("no port")?,
    );
    let client = TcpStream::connect(rt, address)?;
    match listener.accept() {
        Accepted::Link(link) => Ok(Pair { client, link }),
        Accepted::Ended | Accepted::Failed => Err(Fail::new("no link")),
    }
}

#[test]
fn connections_are_served_and_end(rt: HostRuntime) -> Result<(), Fail> {
    let stopping = Arc::new(rt.alloc(), AtomicBool::new(false))?;
    let ended = Arc::new(rt.alloc(), AtomicBool::new(false))?;
    let mut first = listen(&rt, 2, WaitLimits::default(), &stopping, &ended)?;
    let Ok(mut second) = first.another() else {
        panic!(rt; "no second listener")
    };
    let address = (Ipv4Addr::new(127, 0, 0, 1), first.port().ok_or("no port")?);
    let mut client = TcpStream::connect(&rt, address)?;
    client.write_all(b"ask")?;
    client.shutdown(Shutdown::Write)?;
    let Accepted::Link(mut link) = first.accept() else {
        panic!(rt; "no link")
    };
    let mut asked = Vec::new(rt.alloc());
    for _ in 0..4 {
        if fill(&mut link, &mut asked) != Ok(true) {
            break;
        }
    }
    let answered = write_all(&mut link, b"answer").is_ok();
    first.done(link);
    let mut answer = Vec::new(rt.alloc());
    client.read_to_end(&mut answer)?;
    drop(TcpStream::connect(&rt, address)?);
    let Accepted::Link(link) = second.accept() else {
        panic!(rt; "no second link")
    };
    second.done(link);
    let first_ended = matches!(first.accept(), Accepted::Ended);
    let early = ended.load(Ordering::SeqCst);
    let second_ended = matches!(second.accept(), Accepted::Ended);
    assert_eq!(rt; asked.as_slice(), b"ask".as_slice());
    assert_eq!(rt; answer.as_slice(), b"answer".as_slice());
    assert!(rt; answered && first_ended && second_ended && !early);
    assert!(rt; ended.load(Ordering::SeqCst));
    Ok(())
}

/// Whether at least the short time has passed since the start.
fn is_over<R: Clock>(rt: &R, start: Instant) -> Result<bool, Fail> {
    // the system may wake a thread some milliseconds early
    Ok(start.elapsed(rt)? >= Duration::from_millis(SHORT_MS - 20))
}

/// The client sends a byte every 20 ms, and each is read, until a read fails; the bytes that were read. None if no read failed.
fn read_byte_by_byte<R: Clock + Copy + Drop>(
    rt: &R,
    pair: &mut Pair<R>,
) -> Result<Option<usize>, Fail> {
    let mut room = [0; 16];
    let mut count = 0usize;
    for _ in 0..200 {
        pair.client.write_all(b"x")?;
        thread::sleep(rt, Duration::from_millis(20));
        match pair.link.read(&mut room) {
            Ok(more) => count = count.saturating_add(more),
            Err(_) => return Ok(Some(count)),
        }
    }
    Ok(None)
}

#[test]
fn a_message_byte_by_byte_is_cut_off(rt: HostRuntime) -> Result<(), Fail> {
    let stopping = Arc::new(rt.alloc(), AtomicBool::new(false))?;
    let limits = WaitLimits {
        message_ms: SHORT_MS,
        ..LONG
    };
    let mut pair = connect(&rt, limits, &stopping)?;
    let start = Instant::now(&rt)?;
    let count = read_byte_by_byte(&rt, &mut pair)?;
    assert!(rt; count.is_some_and(|count| count > 0));
    assert!(rt; is_over(&rt, start)?);
    Ok(())
}

#[test]
fn a_connection_without_a_byte_is_ended(rt: HostRuntime) -> Result<(), Fail> {
    let stopping = Arc::new(rt.alloc(), AtomicBool::new(false))?;
    let limits = WaitLimits {
        first_byte_ms: SHORT_MS,
        ..LONG
    };
    let start = Instant::now(&rt)?;
    let mut pair = connect(&rt, limits, &stopping)?;
    let mut room = [0; 16];
    let failed = pair.link.read(&mut room).is_err();
    assert!(rt; failed && is_over(&rt, start)?);
    Ok(())
}

/// A message is read and answered.
fn exchange<R: Clock + Copy + Drop>(pair: &mut Pair<R>) -> Result<(), Fail> {
    let mut room = [0; 16];
    pair.client.write_all(b"ask")?;
    pair.link.read(&mut room)?;
    write_all(&mut pair.link, b"answer")?;
    Ok(())
}

#[test]
fn an_idle_kept_connection_is_ended(rt: HostRuntime) -> Result<(), Fail> {
    let stopping = Arc::new(rt.alloc(), AtomicBool::new(false))?;
    let limits = WaitLimits {
        kept_ms: SHORT_MS,
        ..LONG
    };
    let mut pair = connect(&rt, limits, &stopping)?;
    exchange(&mut pair)?;
    exchange(&mut pair)?;
    let start = Instant::now(&rt)?;
    let mut room = [0; 16];
    let failed = pair.link.read(&mut room).is_err();
    assert!(rt; failed && is_over(&rt, start)?);
    Ok(())
}

#[test]
fn an_answer_that_is_not_taken_is_cut_off(rt: HostRuntime) -> Result<(), Fail> {
    let stopping = Arc::new(rt.alloc(), AtomicBool::new(false))?;
    let limits = WaitLimits {
        answer_ms: SHORT_MS,
        ..LONG
    };
    let mut pair = connect(&rt, limits, &stopping)?;
    exchange(&mut pair)?;
    let start = Instant::now(&rt)?;
    let piece = [b'x'; 4096];
    let mut failed = false;
    // far more than the system keeps of what a client has not read
    for _ in 0..100_000 {
        if write_all(&mut pair.link, &piece).is_err() {
            failed = true;
            break;
        }
    }
    assert!(rt; failed && is_over(&rt, start)?);
    Ok(())
}

#[test]
fn a_piece_is_not_written_without_leave(rt: HostRuntime) -> Result<(), Fail> {
    let stopping = Arc::new(rt.alloc(), AtomicBool::new(false))?;
    let mut pair = connect(&rt, LONG, &stopping)?;
    let refused = pair.link.write(UNSAVED);
    let written = pair.link.write(b"saved");
    let mut room = [0; 16];
    let told = pair.client.read(&mut room)?;
    assert!(rt; refused.is_err());
    assert_eq!(rt; written.ok(), Some(5));
    assert_eq!(rt; room.get(..told), Some(b"saved".as_slice()));
    Ok(())
}

#[test]
fn a_kept_connection_ends_when_the_service_stops(rt: HostRuntime) -> Result<(), Fail> {
    let stopping = Arc::new(rt.alloc(), AtomicBool::new(false))?;
    let mut pair = connect(&rt, LONG, &stopping)?;
    exchange(&mut pair)?;
    let start = Instant::now(&rt)?;
    let mut room = [0; 16];
    let (_, read) = thread::join(
        &rt,
        || {
            thread::sleep(&rt, Duration::from_millis(SHORT_MS));
            stopping.store(true, Ordering::SeqCst);
        },
        || pair.link.read(&mut room),
    );
    let quick = start.elapsed(&rt)? < Duration::from_secs(20);
    assert_eq!(rt; read.ok(), Some(0));
    assert!(rt; quick && is_over(&rt, start)?);
    Ok(())
}
