//! Listeners over TCP.
ghost use Rattle.std.specs.Prelude.{◌≡◌, ◌≤◌, ◌+◌, ◌-◌, ◌^◌, ⊤, false, Err, IfOk, min};
ghost use Rattle.bt_base.specs.Causes.{Rose};
ghost use Rattle.tcp_links.specs.declared.listener.NoLink.TheVariants.{Failed as NoLinkFailed};

use crate::cause::AcceptCause;
use crate::limits::{MAX_CALL_MS, WaitLimits};
use crate::link::TcpLink;
use crate::monitor::TcpMonitor;
use crate::retry::Retry;
use crate::times::LinkTimes;
use crate::turns::{ListenFlags, Turns};
use link_doors::{Accepted, Listener};
use std::alloc::{AllocError, AllocFailed, Global};
use std::io::ErrorKind;
use std::marker::Model;
use std::net::{Ipv4Addr, Net, OpenListener, TcpListener as Socket, TcpStream};
use std::os::fd::OwnedFd;
use std::sync::Arc;
use std::time::{Clock, Duration};
use std::{io, thread};

/// Why there is no listener.
#[derive(Clone, Copy, Debug, PartialEq, Eq)]
pub enum BindFault {
    /// The port cannot be used: another program has it, or the system refuses it.
    Failed,
    /// It is out of memory.
    Memory,
}

impl From<AllocError> for BindFault {
    fn from(_: AllocError) -> BindFault {
        BindFault::Memory
    }
}

impl<T: Drop> From<AllocFailed<T>> for BindFault {
    fn from(_: AllocFailed<T>) -> BindFault {
        BindFault::Memory
    }
}

impl From<io::Error> for BindFault {
    fn from(_: io::Error) -> BindFault {
        BindFault::Failed
    }
}

/// What a listener is to do.
#[derive(Clone, Copy, Debug, PartialEq, Eq)]
pub struct ListenOptions {
    /// The port of 127.0.0.1, where 0 is any free port.
    pub port: u16,
    /// How many connections all listeners of the socket accept together.
    pub connections: u64,
    /// How long its links wait for their peers.
    pub limits: WaitLimits,
}

/// Why a listener has no link.
#[derive(Clone, Copy, Debug, PartialEq, Eq)]
enum NoLink {
    /// The listeners are to end.
    Stopping,
    /// No connection can be accepted any more.
    Failed,
}

/// A listener on a port of 127.0.0.1. It counts a fault for each connection that it could not accept. If the cause may pass, it waits,
/// from `MIN_RETRY_MS` doubling to `MAX_RETRY_MS`, and tries again, and the connection is not counted; `M` is told. A connection is
/// counted when the listener begins to wait for it. Contracts see the count of faults, whether a link is out, and whether the listener
/// has ended.
#[derive(Drop)]
pub struct TcpListener<
    R: Clock + Copy + Drop,
    M: TcpMonitor + Drop,
    S: OpenListener<Stream = TcpStream> + Drop = Socket,
> {
    rt: R,
    socket: S,
    turns: Arc<Turns<M>>,
    limits: WaitLimits,
    faults: u64,
    is_out: bool,
    has_ended: bool,
    /// Whether it has ended or failed.
    is_over: bool,
}

impl<R: Clock + Copy + Drop, M: TcpMonitor + Drop, S: OpenListener<Stream = TcpStream> + Drop> Model
    for TcpListener<R, M, S> {
    ghost use Rattle.tcp_links.specs.Doors.{TcpDoor};

    ghost Value = { TcpDoor };

    ghost view = { λ l. record { faults = l.faults; is_out = l.is_out; has_ended = l.has_ended } };
}

/// Bounds the waits of `accept` on this socket, and on each clone of it.
fn bound_waits(socket: &Socket) -> io::Result<()> {
    // a listening socket has the same option as a stream, which std sets on streams alone
    let same_socket = TcpStream::from(OwnedFd::from(socket.try_clone()?));
    same_socket.set_read_timeout(Some(Duration::from_millis(MAX_CALL_MS)))
}

impl<
    R: Clock + Net<Listener = Socket, Stream = TcpStream> + Copy + Drop,
    M: TcpMonitor + Drop,
> TcpListener<R, M> {
    /// A listener on the port that the options say. It and all that `another` makes of it accept the given number of connections
    /// together, and then end; they also end once `stopping` is raised, within about `MAX_CALL_MS` if they wait for a connection.
    /// `all_ended` is raised once each of them has ended or failed. `monitor` is told when no connection can be accepted, and lets links write.
    pub fn bind(
        rt: R,
        alloc: Global,
        options: ListenOptions,
        flags: ListenFlags,
        monitor: M,
    ) -> Result<TcpListener<R, M>, BindFault>
        ensures { IfOk result (λ l. l ≡ record { faults = 0; is_out = false; has_ended = false }) }
    {
        let socket = Socket::bind(&rt, (Ipv4Addr::new(127, 0, 0, 1), options.port))?;
        bound_waits(&socket)?;
        TcpListener::over(rt, alloc, socket, options, flags, monitor)
    }
}

impl<
    R: Clock + Copy + Drop,
    M: TcpMonitor + Drop,
    S: OpenListener<Stream = TcpStream> + Drop,
> TcpListener<R, M, S> {
    fn of(rt: R, socket: S, turns: Arc<Turns<M>>, limits: WaitLimits) -> TcpListener<R, M, S>
        ensures { result ≡ record { faults = 0; is_out = false; has_ended = false } }
    {
        TcpListener {
            rt,
            socket,
            turns,
            limits,
            faults: 0,
            is_out: false,
            has_ended: false,
            is_over: false,
        }
    }

    /// A listener over a socket that listens already, as `bind` makes it; the port of the options is not used. An `accept` of the
    /// socket that finds no connection is to return `WouldBlock` after a while: only then the listener sees that it is to end. The
    /// only error is out of memory.
    pub fn over(
        rt: R,
        alloc: Global,
        socket: S,
        options: ListenOptions,
        flags: ListenFlags,
        monitor: M,
    ) -> Result<TcpListener<R, M, S>, BindFault>
        ensures { IfOk result (λ l. l ≡ record { faults = 0; is_out = false; has_ended = false }) }
    {
        let turns = Arc::new(alloc, Turns::new(options.connections, flags, monitor))?;
        Ok(TcpListener::of(rt, socket, turns, options.limits))
    }

    /// Another listener on the same socket. It is to be made before any of them is asked for a link.
    pub fn another(&self) -> Result<TcpListener<R, M, S>, BindFault>
        ensures { IfOk result (λ l. l ≡ record { faults = 0; is_out = false; has_ended = false }) }
    {
        let socket = self.socket.try_clone()?;
        let turns = Arc::try_clone(&self.turns)?;
        turns.add_listener();
        Ok(TcpListener::of(self.rt, socket, turns, self.limits))
    }

    /// The port; None if the system does not tell it. It does not allocate.
    pub fn port(&self) -> Option<u16> {
        Some(self.socket.local_addr().ok()?.port())
    }

    /// A link over this connection.
    fn link_of(&self, stream: TcpStream) -> Result<TcpLink<R, M>, AcceptCause> {
        let (Ok(stopping), Ok(turns)) = (self.turns.stopping(), Arc::try_clone(&self.turns)) else {
            return Err(AcceptCause::SystemMemory);
        };
        LinkTimes::new(self.rt, self.limits, stopping)
            .and_then(|times| TcpLink::new(stream, times, turns))
            .map_err(|_| AcceptCause::Connection)
    }

    /// Waits for a connection; None if there is none in a while.
    fn try_accept(&self) -> Result<Option<TcpLink<R, M>>, AcceptCause> {
        match self.socket.accept() {
            Ok((stream, _)) => Ok(Some(self.link_of(stream)?)),
            Err(error) if error.kind() == ErrorKind::WouldBlock => Ok(None),
            Err(error) => Err(AcceptCause::of(error)),
        }
    }

    /// Tells of this failure, unless the listeners of the socket have told of one already.
    fn tell_failure(&self, cause: AcceptCause) {
        if self.turns.told().tells_failure(&self.rt) {
            self.turns.monitor().accept_waits(cause);
        }
    }

    /// Tells that connections can be accepted, if it was told that they cannot.
    fn tell_end(&self) {
        if self.turns.told().tells_end() {
            self.turns.monitor().accept_goes_on();
        }
    }

    /// Waits for the next connection, and tries again after failures that may pass. It counts each failure.
    fn next_link(&mut self) -> Result<TcpLink<R, M>, NoLink>
        ensures later { self.old.faults ≤ self.new.faults }
        ensures failed { result ≡ Err NoLinkFailed → Rose self.old.faults self.new.faults }
        ensures same_out { self.new.is_out ≡ self.old.is_out }
        ensures same_end { self.new.has_ended ≡ self.old.has_ended }
    {
        let mut retry = Retry::new();
        for _ in 0..u64::MAX {
            if self.turns.are_stopping() {
                return Err(NoLink::Stopping);
            }
            match self.try_accept() {
                Ok(found) => {
                    self.tell_end();
                    if let Some(link) = found {
                        return Ok(link);
                    }
                    retry = Retry::new();
                }
                Err(cause) => {
                    self.faults = self.faults.saturating_add(1);
                    let Some(wait) = retry.next_wait(cause) else {
                        return Err(NoLink::Failed);
                    };
                    self.tell_failure(cause);
                    thread::sleep(&self.rt, wait);
                }
            }
        }
        self.faults = self.faults.saturating_add(1);
        Err(NoLink::Failed)
    }

    /// Counts the listener as over, once.
    fn end(&mut self)
        ensures { self.new ≡ self.old }
    {
        if !self.is_over {
            self.is_over = true;
            self.turns.end_listener();
        }
    }
}

impl<
    R: Clock + Copy + Drop,
    M: TcpMonitor + Drop,
    S: OpenListener<Stream = TcpStream> + Drop,
> Listener for TcpListener<R, M, S> {
    type Link = TcpLink<R, M>;

    ghost faults = { λ l. l.faults };

    ghost is_out = { λ l. l.is_out };

    ghost has_ended = { λ l. l.has_ended };

    ghost accepted = { λ _ _ _. ⊤ };

    ghost taken_back = { λ _ _ _. ⊤ };

    /// Waits for a connection, for as long as it takes. Returns `Ended` once `stopping` is raised, or once the listeners of the socket
    /// have begun to wait for as many connections as were given, and `Failed` if no connection can be accepted any more. The count of
    /// faults may rise in each case.
    fn accept(&mut self) -> Accepted<TcpLink<R, M>> {
        if self.turns.are_stopping() || !self.turns.take() {
            self.has_ended = true;
            self.end();
            return Accepted::Ended;
        }
        match self.next_link() {
            Ok(link) => {
                self.is_out = true;
                Accepted::Link(link)
            }
            Err(NoLink::Stopping) => {
                self.has_ended = true;
                self.end();
                Accepted::Ended
            }
            Err(NoLink::Failed) => {
                self.end();
                Accepted::Failed
            }
        }
    }

    /// Ends the connection.
    fn done(&mut self, link: TcpLink<R, M>) {
        link.close();
        self.is_out = false;
    }
}
