//! Why a connection could not be accepted.
use std::fmt::{Display, Formatter};
use std::{fmt, io};

/// Why a connection could not be accepted, by the number of the system's error (Linux).
#[derive(Clone, Copy, Debug, PartialEq, Eq)]
pub enum AcceptCause {
    /// The program has as many open files as it may have (EMFILE).
    ProgramFiles,
    /// The system has as many open files as it may have (ENFILE).
    SystemFiles,
    /// The system is out of memory for connections (ENOBUFS, ENOMEM).
    SystemMemory,
    /// The connection ended before it was accepted, a firewall forbids it, or the network failed (ECONNABORTED, EPERM, EPROTO and the
    /// errors of networks that accept(2) lists), or it was accepted and its waits could not be bounded.
    Connection,
    /// The socket is of no use (EBADF, EFAULT, EINVAL, ENOTSOCK). This alone does not pass.
    Socket,
    /// Another error of the system, with its number.
    Unknown(i32),
    /// An error that has no number.
    Unnumbered,
}

impl AcceptCause {
    /// The cause that an error of `accept` tells. That nobody connects in time (EAGAIN) is no cause.
    pub(crate) fn of(error: io::Error) -> AcceptCause {
        match error.raw_os_error() {
            Some(24) => AcceptCause::ProgramFiles,
            Some(23) => AcceptCause::SystemFiles,
            Some(12 | 105) => AcceptCause::SystemMemory,
            Some(1 | 4 | 64 | 71 | 92 | 95 | 100 | 101 | 103 | 104 | 110 | 112 | 113) =>
                AcceptCause::Connection,
            Some(9 | 14 | 22 | 88) => AcceptCause::Socket,
            Some(number) => AcceptCause::Unknown(number),
            None => AcceptCause::Unnumbered,
        }
    }
}

impl Display for AcceptCause {
    /// What happened, and what to do.
    fn fmt<W: fmt::Write>(&self, f: &mut Formatter<W>) -> fmt::Result {
        match self {
            AcceptCause::ProgramFiles => f.write_str(
                "the program has as many open files as it may have: raise the limit (ulimit -n), or use fewer doors or seats",
            ),
            AcceptCause::SystemFiles => f.write_str(
                "the system has as many open files as it may have: end programs, or raise the limit (sysctl fs.file-max)",
            ),
            AcceptCause::SystemMemory => f.write_str(
                "the system is out of memory for connections: end programs, or give the machine more memory",
            ),
            AcceptCause::Connection => f.write_str(
                "a connection failed before it was served: look for a firewall on this machine if it goes on",
            ),
            AcceptCause::Socket => f.write_str(
                "the socket of the port is of no use: start the service again",
            ),
            AcceptCause::Unknown(number) => write!(f, "the system gives the error {number}"),
            AcceptCause::Unnumbered => f.write_str("the system gives an error without a number"),
        }
    }
}
