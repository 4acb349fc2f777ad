//! What tests of services share: folders of their own.
use std::test::Fail;
use std::{env, fs, process};

/// Makes a folder among the temporary files of the system, which has the name in its own. Returns its path, without links.
pub fn new_folder(rt: &HostRuntime, name: &str) -> Result<String, Fail> {
    let number = process::id(rt.process());
    let name = format!(in rt.alloc(); "batch-tests-{name}-{number}")?;
    let path = env::temp_dir(rt)?.join(rt.alloc(), name.as_str())?;
    fs::create_dir(rt, path.as_path())?;
    let path = fs::canonicalize(rt, path.as_path())?;
    Ok(String::from_str(rt.alloc(), path.as_str())?)
}
