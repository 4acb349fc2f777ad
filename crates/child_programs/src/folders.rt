//! The folders of a service.
use crate::list_file::ListState;
use bt_base::NoMemory;
use std::alloc::{AllocError, Global};
use std::sync::{Arc, Mutex};

/// The paths of the folders of a service, and the lock of its list of runs.
#[derive(Drop)]
pub(crate) struct ServicePaths {
    /// The absolute path of the service's folder.
    pub service: String,
    /// The absolute path of the folder of the runs.
    pub runs: String,
    /// The absolute path of the folder that all runs share.
    pub shared: String,
    /// What is known of the list of runs. Who writes to it has the lock.
    pub list: Mutex<ListState>,
}

/// The folders of a service, which its spawners share: its own, the one of its runs, and one that all child programs may use.
///
/// In the folder of the runs, here RUNS, each run has a folder of its own. Its name is the number of the run, here N:
///
/// - `RUNS/JOB/TASK/N` of a task's run or its coordination,
/// - `RUNS/JOB/job.preparation/N` of a job's preparation,
/// - `RUNS/JOB/job.release/N` of a job's release,
/// - `RUNS/pool.start/POOL/node-M/N` of the start task of the node M.
///
/// An id has no dot, so these names are no job's and no task's. Ids are spelled as the rows of the runs have them. A run's folder has
/// the files `stdout.txt` and `stderr.txt` with what its child program writes, and the folder `wd`, in which its child program is started.
/// `RUNS/runs.csv` lists the ends of the runs.
#[derive(Drop)]
pub struct ServiceFolders {
    paths: Arc<ServicePaths>,
}

/// The path, in this folder if it is relative.
pub(crate) fn path_in(alloc: Global, folder: &str, path: &str) -> Result<String, AllocError> {
    if path.starts_with('/') {
        String::from_str(alloc, path)
    } else {
        format!(in alloc; "{folder}/{path}")
    }
}

impl ServiceFolders {
    /// The folders of the service that runs in the folder `service`, an absolute path, and whose runs are in the folder `runs`, a path
    /// that is in the service's folder if it is relative. The folder that all runs share is `shared` in the service's folder. Nothing is
    /// made yet. The only error is out of memory.
    pub fn new(alloc: Global, service: &str, runs: &str) -> Result<ServiceFolders, NoMemory> {
        let runs = path_in(alloc, service, runs)?;
        let shared = path_in(alloc, service, "shared")?;
        let service = String::from_str(alloc, service)?;
        let paths = ServicePaths {
            service,
            runs,
            shared,
            list: Mutex::new(ListState::new()),
        };
        Ok(ServiceFolders {
            paths: Arc::new(alloc, paths).map_err(AllocError::from)?,
        })
    }

    /// The absolute path of the folder of the runs. It does not allocate.
    pub fn runs(&self) -> &str {
        self.paths.runs.as_str()
    }

    /// The absolute path of the folder that all runs share. It does not allocate.
    pub fn shared(&self) -> &str {
        self.paths.shared.as_str()
    }

    /// The same folders, for a spawner. The only error is out of memory.
    pub(crate) fn share(&self) -> Result<ServiceFolders, NoMemory> {
        Ok(ServiceFolders {
            paths: Arc::try_clone(&self.paths)?,
        })
    }

    /// The paths. It does not allocate.
    pub(crate) fn paths(&self) -> &ServicePaths {
        &self.paths
    }
}
