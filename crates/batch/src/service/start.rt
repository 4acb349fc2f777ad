//! Why the service does not begin, or ends early.
use batch_serve::ServeStatus;
use bt_base::NoMemory;
use std::alloc::AllocError;
use std::io::ErrorKind;
use std::{fmt, io};
use tcp_links::BindFault;

/// Why the service did not begin, or ended although its workers had not.
#[derive(Clone, Copy)]
pub enum StartFault {
    /// It is out of memory.
    Memory,
    /// The port with this number cannot be used.
    Port(u16),
    /// A folder for its child programs could not be made, for this cause.
    Folder(io::Error),
    /// The system has no threads for all workers, of which there are so many.
    Threads(usize),
    /// The store answers nothing any more, since the disk did not confirm a write.
    StoreShut,
}

impl StartFault {
    /// Why the listener could not be made on this port.
    pub fn of_bind(fault: BindFault, port: u16) -> StartFault {
        match fault {
            BindFault::Memory => StartFault::Memory,
            BindFault::Failed => StartFault::Port(port),
        }
    }

    /// Why a folder could not be made.
    pub fn of_folder(error: io::Error) -> StartFault {
        match error.kind() {
            ErrorKind::OutOfMemory => StartFault::Memory,
            _ => StartFault::Folder(error),
        }
    }

    /// The status of the service.
    pub fn status(&self) -> ServeStatus {
        match self {
            StartFault::Memory | StartFault::Threads(_) => ServeStatus::Memory,
            StartFault::Folder(_) | StartFault::StoreShut => ServeStatus::KeeperFault,
            StartFault::Port(_) => ServeStatus::ListenFault,
        }
    }
}

impl fmt::Display for StartFault {
    /// What is said of it on standard error: the fault, and on a second line its cause and what to do.
    fn fmt<W: fmt::Write>(&self, out: &mut fmt::Formatter<W>) -> fmt::Result {
        match self {
            StartFault::Memory => out.write_str(
                "batch: out of memory; the service did not begin: give the program more memory",
            ),
            StartFault::Port(port) => write!(
                out,
                "port fault\nbatch: port {port} of 127.0.0.1 cannot be used: another program has it, or the system refuses it: choose another by --port"
            ),
            StartFault::Folder(error) => write!(
                out,
                "folder fault\nbatch: a folder for child programs cannot be made ({error}): start the service in a folder that it may write, where nothing else has the name"
            ),
            StartFault::Threads(count) => write!(
                out,
                "batch: the system has no {count} threads for the service, which did not begin: allow more (ulimit -u), or give fewer --seats or --doors"
            ),
            StartFault::StoreShut => out.write_str(
                "batch: the service ended, since its store is shut: see the disk, and start it again",
            ),
        }
    }
}

impl From<NoMemory> for StartFault {
    fn from(_error: NoMemory) -> StartFault {
        StartFault::Memory
    }
}

impl From<AllocError> for StartFault {
    fn from(_error: AllocError) -> StartFault {
        StartFault::Memory
    }
}
