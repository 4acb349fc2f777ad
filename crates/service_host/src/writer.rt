//! What writes the log of calls to its file.
use crate::log::{CallLog, LogLines};
use bt_base::NoMemory;
use std::alloc::Global;
use std::fs::{self, File, OpenOptions};
use std::io::{self, Eprint, ErrorKind, Write};
use std::rt::Files;
use std::sync::{Arc, Wait};

/// What writes the lines of a log to the end of a file, which it makes if it is not there, with its folder. The first fault is told on standard
/// error, and the first write after it; lines that could not be written are lost. It changes nothing else.
#[derive(Drop)]
pub struct LogWriter<R: Wait + Files<File = File> + Eprint + Drop> {
    rt: R,
    log: Arc<CallLog>,
    folder: String,
    path: String,
    is_failing: bool,
}

impl<R: Wait + Files<File = File> + Eprint + Drop> LogWriter<R> {
    /// A writer of this log to the file at this path in this folder. The only error is out of memory.
    pub fn new(
        alloc: Global,
        rt: R,
        log: &Arc<CallLog>,
        folder: &str,
        path: &str,
    ) -> Result<LogWriter<R>, NoMemory> {
        Ok(LogWriter {
            rt,
            log: Arc::try_clone(log)?,
            folder: String::from_str(alloc, folder)?,
            path: String::from_str(alloc, path)?,
            is_failing: false,
        })
    }

    /// The file, to write at its end.
    fn open(&self) -> io::Result<File> {
        let mut options = OpenOptions::new();
        options.append(true).create(true);
        options.open(&self.rt, self.path.as_str())
    }

    /// The file, to write at its end. Its folder is made if it is not there.
    fn open_or_make(&self) -> io::Result<File> {
        match self.open() {
            Err(error) if error.kind() == ErrorKind::NotFound => {
                fs::create_dir_all(&self.rt, self.folder.as_str())?;
                self.open()
            }
            opened => opened,
        }
    }

    /// Adds the lines at the end of the file.
    fn append(&self, lines: &str) -> io::Result<()> {
        self.open_or_make()?.write_all(lines.as_bytes())
    }

    /// Tells that the log cannot be written, once.
    fn tell_fault(&mut self, error: &io::Error) {
        if !self.is_failing {
            self.is_failing = true;
            let path = self.path.as_str();
            let _ = self.rt.eprintln(format_args!(
                "batch: the log {path} cannot be written ({error}); its lines are lost until it can: make room, or the folder"
            ));
        }
    }

    /// Tells that the log is written again.
    fn tell_success(&mut self) {
        if self.is_failing {
            self.is_failing = false;
            let path = self.path.as_str();
            let _ = self
                .rt
                .eprintln(format_args!("batch: the log {path} is written again"));
        }
    }

    /// Writes the lines that were added since they were last written.
    pub fn write(&mut self) {
        let LogLines { lines, lost } = self.log.take(&self.rt);
        if lost > 0 {
            let _ = self.rt.eprintln(format_args!(
                "batch: {lost} calls are missing in the log: out of memory"
            ));
        }
        if lines.is_empty() {
            return;
        }
        match self.append(lines.as_str()) {
            Ok(()) => self.tell_success(),
            Err(error) => self.tell_fault(&error),
        }
    }
}
