//! One try to start a child program.
use crate::environment::set_environment;
use crate::fault::StartFault;
use crate::folders::{ServicePaths, path_in};
use crate::not_started::{NotStarted, lies_in_command};
use crate::run_paths::RunPaths;
use bt_base::{Word, text_of};
use child_runs::RunIdentity;
use std::alloc::{AllocError, Global};
use std::fs;
use std::fs::File;
use std::process::{Child, Command, Processes, Stdio, SystemProcess};
use std::rt::Files;
use std::sync::Wait;
use std::time::Clock;

/// A run whose child program is to be started.
#[derive(Drop)]
pub(crate) struct Start<'a> {
    /// What the run is and belongs to.
    pub run: &'a RunIdentity,
    /// The words of its command line.
    pub words: &'a [Word],
    /// Its paths.
    pub paths: &'a RunPaths,
    /// The paths of the service.
    pub service: &'a ServicePaths,
}

/// A word as a text without a zero byte.
fn text(word: &Word) -> Result<&str, NotStarted> {
    let bytes = word.as_bytes();
    if bytes.contains(&0) {
        return Err(NotStarted::ZeroByte);
    }
    text_of(bytes).ok_or(NotStarted::NotText)
}

/// What the first word names: a path that is relative and has a slash is in the service's folder. Another word stays.
fn program(alloc: Global, service: &str, word: &str) -> Result<String, AllocError> {
    if word.contains('/') {
        path_in(alloc, service, word)
    } else {
        String::from_str(alloc, word)
    }
}

impl Start<'_> {
    /// What is to be started.
    fn command(&self, alloc: Global) -> Result<Command, StartFault> {
        let (first, arguments) = self.words.split_first().ok_or(NotStarted::NoWord)?;
        let program = program(alloc, self.service.service.as_str(), text(first)?)?;
        let mut command = Command::new(alloc, program.as_str())?;
        for argument in arguments {
            command.arg(text(argument)?)?;
        }
        command.current_dir(self.paths.work.as_str())?;
        set_environment(alloc, &mut command, self.run, self.paths, self.service)?;
        Ok(command)
    }

    /// Makes the folders and the files, and starts the child program.
    pub fn attempt<
        R: Processes<Started = SystemProcess> + Files<File = File> + Clock + Wait + Drop,
    >(&self, rt: &R, alloc: Global) -> Result<Child, StartFault> {
        self.paths.make_folders(rt)?;
        fs::create_dir_all(rt, self.service.shared.as_str())?;
        let (stdout, stderr) = self.paths.outputs(rt)?;
        let mut command = self.command(alloc)?;
        command.stdin(Stdio::piped());
        command.stdout(stdout);
        command.stderr(stderr);
        match command.spawn(rt) {
            Ok(child) => Ok(child),
            Err(error) if lies_in_command(error) && self.paths.has_work(rt) => {
                Err(StartFault::NotStarted(NotStarted::Refused(error)))
            }
            Err(error) => Err(StartFault::from(error)),
        }
    }
}
