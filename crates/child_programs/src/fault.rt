//! Why child programs are not started.
use crate::not_started::NotStarted;
use bt_base::NoMemory;
use std::alloc::AllocError;
use std::io;
use std::io::ErrorKind;

/// Why a child program was not started.
#[derive(Clone, Copy)]
pub(crate) enum StartFault {
    /// It is out of memory.
    Memory,
    /// The system cannot make its folders or files or start it now, but may do so later.
    Passing(io::Error),
    /// It cannot be started.
    NotStarted(NotStarted),
}

impl From<AllocError> for StartFault {
    fn from(_: AllocError) -> StartFault {
        StartFault::Memory
    }
}

impl From<NoMemory> for StartFault {
    fn from(_: NoMemory) -> StartFault {
        StartFault::Memory
    }
}

impl From<NotStarted> for StartFault {
    fn from(why: NotStarted) -> StartFault {
        StartFault::NotStarted(why)
    }
}

impl From<io::Error> for StartFault {
    /// An error of the system passes; one that has no number of the system's and says that memory ran out is the program's own.
    fn from(error: io::Error) -> StartFault {
        if error.kind() == ErrorKind::OutOfMemory && error.raw_os_error().is_none() {
            StartFault::Memory
        } else {
            StartFault::Passing(error)
        }
    }
}
