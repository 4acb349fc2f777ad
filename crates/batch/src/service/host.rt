//! What the service takes of the system.
use std::fs::File;
use std::io::Eprint;
use std::net::{Net, TcpListener as Socket, TcpStream};
use std::process::{Processes, SystemProcess};
use std::rt::{Env, Files};
use std::sync::Wait;
use std::thread::Threads;
use std::time::Clock;

/// What the service takes of the system: threads, waiting, a port, child programs, files, the time, memory, its folder and standard error.
pub trait Host: Threads
    + Wait
    + Net<Listener = Socket, Stream = TcpStream>
    + Processes<Started = SystemProcess>
    + Files<File = File>
    + Clock
    + Env
    + AllocGlobal
    + Eprint
    + Copy
    + Drop {}

impl<
    R: Threads
        + Wait
        + Net<Listener = Socket, Stream = TcpStream>
        + Processes<Started = SystemProcess>
        + Files<File = File>
        + Clock
        + Env
        + AllocGlobal
        + Eprint
        + Copy
        + Drop,
> Host for R {}
