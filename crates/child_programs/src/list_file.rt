//! The file of the list of runs.
use crate::run_list::{EndedRun, header};
use std::alloc::{AllocError, Global};
use std::fs::{File, OpenOptions};
use std::io::{ErrorKind, Write};
use std::rt::Files;
use std::{fs, io};

/// What is known of the list of runs.
#[derive(Clone, Copy)]
pub(crate) struct ListState {
    is_told: bool,
}

impl ListState {
    /// No fault of the list was told.
    pub fn new() -> ListState {
        ListState { is_told: false }
    }

    /// Adds the line of a run to the list in this folder. Returns the cause if it was not added and no fault was told before.
    pub fn add<R: Files<File = File>>(
        &mut self,
        rt: &R,
        alloc: Global,
        runs: &str,
        run: &EndedRun<'_>,
    ) -> Option<io::Error> {
        match append(rt, alloc, runs, run) {
            Ok(()) => None,
            Err(_) if self.is_told => None,
            Err(error) => {
                self.is_told = true;
                Some(error)
            }
        }
    }
}

/// The list, to whose end is written. It is made if it is not there, but not its folder.
fn open<R: Files<File = File>>(rt: &R, path: &str) -> io::Result<File> {
    OpenOptions::new().append(true).create(true).open(rt, path)
}

/// The list in this folder, which is made if it is not there.
fn open_in<R: Files<File = File>>(rt: &R, alloc: Global, runs: &str) -> io::Result<File> {
    let path = format!(in alloc; "{runs}/runs.csv")?;
    match open(rt, path.as_str()) {
        Err(error) if error.kind() == ErrorKind::NotFound => {
            fs::create_dir_all(rt, runs)?;
            open(rt, path.as_str())
        }
        opened => opened,
    }
}

/// Writes the bytes at once.
fn write_once(file: &mut File, bytes: &[u8]) -> io::Result<()> {
    if file.write(bytes)? < bytes.len() {
        return Err(io::Error::from(ErrorKind::WriteZero));
    }
    Ok(())
}

/// Adds the line of a run, after the first line if the list is empty. What is written of a line that could not be written whole is cut
/// off again.
fn append<R: Files<File = File>>(
    rt: &R,
    alloc: Global,
    runs: &str,
    run: &EndedRun<'_>,
) -> io::Result<()> {
    let mut file = open_in(rt, alloc, runs)?;
    let length = file.metadata()?.len();
    let line = run.line(alloc)?;
    let mut bytes = if length == 0 {
        header(alloc)?
    } else {
        Vec::new(alloc)
    };
    bytes.extend_from_slice(line.as_slice())?;
    let written = write_once(&mut file, bytes.as_slice());
    if written.is_err() {
        let _ = file.set_len(length);
    }
    written
}
