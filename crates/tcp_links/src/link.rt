//! Links over TCP.
ghost use Rattle.std.specs.Prelude.{◌≡◌, ◌<◌, None, IfOk};
ghost use Rattle.std.specs.Io.{ReadsAtMost, WritesAtMost};

use crate::monitor::TcpMonitor;
use crate::times::LinkTimes;
use crate::turns::Turns;
use byte_streams::Failed;
use http_link::Link;
use std::io;
use std::io::{ErrorKind, Read, Write};
use std::marker::Model;
use std::net::{Shutdown, TcpStream};
use std::sync::Arc;
use std::time::{Clock, Duration};

/// How many calls one read or one write makes at most before it counts as a fault.
const MAX_CALLS: u32 = 1_000_000;

/// How many reads the end of a connection makes at most.
const MAX_DRAIN_READS: usize = 64;

/// A link over a TCP connection. It counts as a fault each error of the connection, each write that took nothing of a piece that is
/// not empty, and each time that is over (`WaitLimits`): a connection has `first_byte_ms` to the first byte that is read of it, a
/// message `message_ms` from the first byte that is read of it to its last, an answer `answer_ms` from its first write to its last,
/// and the first byte of the next message `kept_ms` from the first read after the answer. Contracts see a link as its count of faults.
#[derive(Drop)]
pub struct TcpLink<R: Clock + Copy + Drop, M: TcpMonitor + Drop> {
    stream: TcpStream,
    times: LinkTimes<R>,
    turns: Arc<Turns<M>>,
    /// The longest time that a read waits, as the system knows it.
    read_wait: Duration,
    /// The longest time that a write waits, as the system knows it.
    write_wait: Duration,
    faults: u64,
}

impl<R: Clock + Copy + Drop, M: TcpMonitor + Drop> Model for TcpLink<R, M> {
    ghost use Rattle.std.specs.Prelude.{ℕ};

    ghost Value = { ℕ };

    ghost view = { λ l. l.faults };
}

/// Whether the call may be made again: a signal interrupted it, or its wait is over.
fn may_try_again(error: io::Error) -> bool {
    matches!(
        error.kind(),
        ErrorKind::Interrupted | ErrorKind::WouldBlock | ErrorKind::TimedOut
    )
}

impl<R: Clock + Copy + Drop, M: TcpMonitor + Drop> TcpLink<R, M> {
    /// A link over this connection. Fails if the system refuses to bound the waits of the connection. It does not allocate.
    pub(crate) fn new(
        stream: TcpStream,
        times: LinkTimes<R>,
        turns: Arc<Turns<M>>,
    ) -> Result<TcpLink<R, M>, Failed>
        ensures { IfOk result (λ l. l ≡ 0) }
    {
        let mut times = times;
        let wait = times.next_wait()?;
        if stream.set_read_timeout(Some(wait)).is_err()
            || stream.set_write_timeout(Some(wait)).is_err()
            || stream.set_nodelay(true).is_err()
        {
            return Err(Failed);
        }
        Ok(TcpLink {
            stream,
            times,
            turns,
            read_wait: wait,
            write_wait: wait,
            faults: 0,
        })
    }

    /// Bounds the waits of reads, if they are not bounded so yet.
    fn set_read_wait(&mut self, wait: Duration) -> Result<(), Failed>
        ensures { self.new ≡ self.old }
    {
        if wait != self.read_wait {
            if self.stream.set_read_timeout(Some(wait)).is_err() {
                return Err(Failed);
            }
            self.read_wait = wait;
        }
        Ok(())
    }

    /// Bounds the waits of writes, if they are not bounded so yet.
    fn set_write_wait(&mut self, wait: Duration) -> Result<(), Failed>
        ensures { self.new ≡ self.old }
    {
        if wait != self.write_wait {
            if self.stream.set_write_timeout(Some(wait)).is_err() {
                return Err(Failed);
            }
            self.write_wait = wait;
        }
        Ok(())
    }

    /// Reads some bytes, and counts no fault. No bytes come at their end, and if the service is stopping while the link waits for a
    /// message. Fails if the connection fails, or if the time for the bytes is over.
    fn read_in_time(&mut self, room: &mut [u8]) -> Result<usize, Failed>
        ensures bound { ReadsAtMost result room.new }
        ensures same { self.new ≡ self.old }
    {
        self.times.begin_read()?;
        for _ in 0..MAX_CALLS {
            if self.times.is_last() {
                return Ok(0);
            }
            let wait = self.times.next_wait()?;
            self.set_read_wait(wait)?;
            match self.stream.read(room) {
                Ok(0) => return Ok(0),
                Ok(count) => {
                    self.times.have_read();
                    return Ok(count);
                }
                Err(error) if may_try_again(error) => {}
                Err(_) => return Err(Failed),
            }
        }
        Err(Failed)
    }

    /// Writes some bytes of a piece that is not empty, and counts no fault. Fails if the connection fails or takes none, or if the
    /// time for the answer is over.
    fn write_in_time(&mut self, piece: &[u8]) -> Result<usize, Failed>
        ensures bound { WritesAtMost result piece.now }
        ensures some { IfOk result (λ count. 0 < count) }
        ensures same { self.new ≡ self.old }
    {
        self.times.begin_write()?;
        for _ in 0..MAX_CALLS {
            let wait = self.times.next_wait()?;
            self.set_write_wait(wait)?;
            match self.stream.write(piece) {
                Ok(0) => return Err(Failed),
                Ok(count) => return Ok(count),
                Err(error) if may_try_again(error) => {}
                Err(_) => return Err(Failed),
            }
        }
        Err(Failed)
    }

    /// Ends the connection. It first ignores the bytes that the peer is still sending, up to a bound: while bytes are unread, the
    /// system resets an ended connection, and the peer may then lose what was written to it (RFC 9112, section 9.6).
    pub fn close(self) {
        let mut link = self;
        if link.stream.shutdown(Shutdown::Write).is_err() || link.times.begin_end().is_err() {
            return;
        }
        let mut room = [0; 4096];
        for _ in 0..MAX_DRAIN_READS {
            match link.read_in_time(&mut room) {
                Ok(0) | Err(_) => return,
                Ok(_) => {}
            }
        }
    }
}

impl<R: Clock + Copy + Drop, M: TcpMonitor + Drop> Link for TcpLink<R, M> {
    ghost left = { λ _. None };

    ghost taken = { λ _. None };

    ghost faults = { λ l. l };

    /// Reads from the connection, again if a signal interrupts the wait. No bytes come at the end of the connection, and between two
    /// messages once the service is stopping. Returns `Failed` if the connection fails, or if the time for the bytes is over.
    fn read(&mut self, room: &mut [u8]) -> Result<usize, Failed> {
        let read = self.read_in_time(room);
        if read.is_err() {
            self.faults = self.faults.saturating_add(1);
        }
        read
    }

    /// Writes to the connection once the monitor lets it, again if a signal interrupts the wait. Returns `Failed` if the monitor does not let
    /// it, if the connection fails, if the time for the answer is over, or if the connection takes nothing of a piece that is not empty.
    fn write(&mut self, piece: &[u8]) -> Result<usize, Failed> {
        if piece.is_empty() {
            return Ok(0);
        }
        let written = if self.turns.monitor().before_write(piece) {
            self.write_in_time(piece)
        } else {
            Err(Failed)
        };
        if written.is_err() {
            self.faults = self.faults.saturating_add(1);
        }
        written
    }
}
