//! The folders and files of a service.
use bt_base::NoMemory;
use child_programs::{ServiceFolders, instant_text};
use std::alloc::{AllocError, Global};
use std::rt::Files;
use std::{fs, io};

/// The folder with the folders of services without a store, in the folder of the service.
const RUNS_FOLDER: &str = "batch-runs";

/// This moment in names of files, in UTC: as `20261130T221503.120Z`, for milliseconds since 1970. A moment after the year 9999 counts as its last
/// one. The only error is out of memory.
pub fn file_instant(alloc: Global, ms: u64) -> Result<String, AllocError> {
    let instant = instant_text(alloc, ms)?;
    let without_hyphens = instant.as_str().replace(alloc, '-', "")?;
    without_hyphens.as_str().replace(alloc, ':', "")
}

/// The folder of the runs of a service: beside its store, or in `batch-runs` with the instant of its start as its name.
pub fn runs_path(alloc: Global, store: Option<&str>, instant: &str) -> Result<String, AllocError> {
    match store {
        Some(store) => format!(in alloc; "{store}-runs"),
        None => format!(in alloc; "{RUNS_FOLDER}/{instant}"),
    }
}

/// The path of the log of the calls of a service that started at this instant.
pub fn log_path(
    alloc: Global,
    folders: &ServiceFolders,
    instant: &str,
) -> Result<String, NoMemory> {
    let runs = folders.runs();
    Ok(format!(in alloc; "{runs}/steps-{instant}.log")?)
}

/// Makes the folder of the runs and the one that runs share, with those that they are in, if they are not there. The error tells why one
/// could not be made, or that something else has its name.
pub fn make_folders(rt: &impl Files, folders: &ServiceFolders) -> io::Result<()> {
    fs::create_dir_all(rt, folders.runs())?;
    fs::create_dir_all(rt, folders.shared())
}
