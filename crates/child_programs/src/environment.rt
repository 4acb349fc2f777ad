//! The environment of child programs.
use crate::folders::ServicePaths;
use crate::run_paths::RunPaths;
use bt_base::Id;
use child_runs::RunIdentity;
use std::alloc::{AllocError, Global};
use std::process::Command;

/// Sets the variable to the id, or takes it out if there is none.
fn set_id(command: &mut Command, name: &str, id: &Option<Id>) -> Result<(), AllocError> {
    match id {
        Some(id) => {
            command.env(name, id.as_str())?;
        }
        None => {
            command.env_remove(name)?;
        }
    }
    Ok(())
}

/// Gives the child program of a run the names of the run and of its folders, beside the environment of the service (Azure Batch
/// documentation: environment variables of tasks). The names of a job or a task that the run does not have are taken out.
pub(crate) fn set_environment(
    alloc: Global,
    command: &mut Command,
    run: &RunIdentity,
    paths: &RunPaths,
    service: &ServicePaths,
) -> Result<(), AllocError> {
    let number = run.node;
    let node = format!(in alloc; "node-{number}")?;
    command.env("AZ_BATCH_POOL_ID", run.pool.as_str())?;
    command.env("AZ_BATCH_NODE_ID", node.as_str())?;
    set_id(command, "AZ_BATCH_JOB_ID", &run.job)?;
    set_id(command, "AZ_BATCH_TASK_ID", &run.task)?;
    command.env("AZ_BATCH_TASK_DIR", paths.folder.as_str())?;
    command.env("AZ_BATCH_TASK_WORKING_DIR", paths.work.as_str())?;
    command.env("AZ_BATCH_NODE_ROOT_DIR", service.service.as_str())?;
    command.env("AZ_BATCH_NODE_SHARED_DIR", service.shared.as_str())?;
    Ok(())
}
