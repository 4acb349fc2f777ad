//! The paths of a run.
use crate::fault::StartFault;
use crate::folders::ServicePaths;
use bt_rows::run::RunKind;
use child_runs::RunIdentity;
use std::alloc::{AllocError, Global};
use std::fs::File;
use std::rt::Files;
use std::{fs, io};

/// The absolute paths of a run.
#[derive(Drop)]
pub(crate) struct RunPaths {
    /// The folder of the run.
    pub folder: String,
    /// The working folder of its child program.
    pub work: String,
    /// The file with what its child program writes to standard output.
    pub stdout: String,
    /// The file with what its child program writes to standard error.
    pub stderr: String,
}

/// The id as a text; the empty text if there is none, which a run of that kind always has.
fn text_or_none(id: Option<&str>) -> &str {
    id.unwrap_or("")
}

/// The folder of a run: see `ServiceFolders`.
fn run_folder(
    alloc: Global,
    runs: &str,
    run: &RunIdentity,
    number: u64,
) -> Result<String, AllocError> {
    let job = text_or_none(run.job.as_ref().map(|id| id.as_str()));
    let task = text_or_none(run.task.as_ref().map(|id| id.as_str()));
    match run.kind {
        RunKind::Start => {
            let (pool, node) = (run.pool.as_str(), run.node);
            format!(in alloc; "{runs}/pool.start/{pool}/node-{node}/{number}")
        }
        RunKind::Prep => format!(in alloc; "{runs}/{job}/job.preparation/{number}"),
        RunKind::Release => format!(in alloc; "{runs}/{job}/job.release/{number}"),
        RunKind::Task | RunKind::Coordination => {
            format!(in alloc; "{runs}/{job}/{task}/{number}")
        }
    }
}

impl RunPaths {
    /// The paths of the run with this number. The only error is out of memory.
    pub fn new(
        alloc: Global,
        paths: &ServicePaths,
        run: &RunIdentity,
        number: u64,
    ) -> Result<RunPaths, AllocError> {
        let folder = run_folder(alloc, paths.runs.as_str(), run, number)?;
        let path = folder.as_str();
        let work = format!(in alloc; "{path}/wd")?;
        let stdout = format!(in alloc; "{path}/stdout.txt")?;
        let stderr = format!(in alloc; "{path}/stderr.txt")?;
        Ok(RunPaths {
            folder,
            work,
            stdout,
            stderr,
        })
    }

    /// Makes the folders that are not there, those above them too.
    pub fn make_folders(&self, rt: &impl Files) -> io::Result<()> {
        fs::create_dir_all(rt, self.work.as_str())
    }

    /// Whether the working folder is there.
    pub fn has_work(&self, rt: &impl Files) -> bool {
        match fs::metadata(rt, self.work.as_str()) {
            Ok(metadata) => metadata.is_dir(),
            Err(_) => false,
        }
    }

    /// New files for standard output and standard error, in this order.
    pub fn outputs<R: Files<File = File>>(&self, rt: &R) -> Result<(File, File), StartFault> {
        let stdout = File::create(rt, self.stdout.as_str())?;
        let stderr = File::create(rt, self.stderr.as_str())?;
        Ok((stdout, stderr))
    }
}
