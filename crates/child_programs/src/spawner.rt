//! The spawner of child programs.
ghost use Rattle.std.specs.Prelude.{◌≡◌, ◌≤◌, ⊤, IfOk};

use crate::fault::StartFault;
use crate::folders::ServiceFolders;
use crate::instants::now;
use crate::monitor::StartMonitor;
use crate::not_started::{NotStarted, reason_line};
use crate::run_list::EndedRun;
use crate::run_paths::RunPaths;
use crate::starting::Start;
use crate::table::ProgramTable;
use crate::waits::{WAITS, wait_after};
use bt_base::{NoMemory, Word};
use child_runs::{ChildEnding, Ran, RunIdentity, Spawner};
use std::alloc::Global;
use std::fs::File;
use std::marker::Model;
use std::process::{Child, Processes, SystemProcess};
use std::rt::Files;
use std::sync::Wait;
use std::time::Clock;
use std::{fs, io, thread};

/// What starts programs of the system. It counts a fault for each child program that could not be started, and for each of which
/// the end could not be told; the latter has ended without an exit code. Contracts see it as its count of faults.
#[derive(Drop)]
pub struct ProgramSpawner<
    R: Processes<Started = SystemProcess> + Files<File = File> + Clock + Wait + Drop,
    M: StartMonitor + Drop,
> {
    rt: R,
    table: ProgramTable,
    folders: ServiceFolders,
    monitor: M,
    faults: u64,
}

impl<
    R: Processes<Started = SystemProcess> + Files<File = File> + Clock + Wait + Drop,
    M: StartMonitor + Drop,
> Model for ProgramSpawner<R, M> {
    ghost use Rattle.std.specs.Prelude.{ℕ};

    ghost Value = { ℕ };

    ghost view = { λ s. s.faults };
}

impl<
    R: Processes<Started = SystemProcess> + Files<File = File> + Clock + Wait + Drop,
    M: StartMonitor + Drop,
> ProgramSpawner<R, M> {
    /// A spawner whose child programs stand in this table and have their folders among these; the monitor is told of starts that wait
    /// and of the list of runs. The only error is out of memory.
    pub fn new(
        rt: R,
        table: &ProgramTable,
        folders: &ServiceFolders,
        monitor: M,
    ) -> Result<ProgramSpawner<R, M>, NoMemory>
        ensures { IfOk result (λ s. s ≡ 0) }
    {
        let table = table.share()?;
        let folders = folders.share()?;
        Ok(ProgramSpawner {
            rt,
            table,
            folders,
            monitor,
            faults: 0,
        })
    }

    /// Waits before a start is tried again; the monitor is told of the first wait.
    fn pause(&self, number: u64, earlier: u32, cause: io::Error) {
        if earlier == 0 {
            self.monitor.start_waits(number, cause);
        }
        thread::sleep(&self.rt, wait_after(earlier));
    }

    /// Tries the start once more after all waits. A cause that passes is then the reason.
    fn last_attempt(
        &self,
        alloc: Global,
        start: &Start<'_>,
        number: u64,
    ) -> Result<Child, StartFault> {
        match start.attempt(&self.rt, alloc) {
            Err(StartFault::Passing(cause)) => {
                self.monitor.start_given_up(number, cause);
                Err(StartFault::NotStarted(NotStarted::GivenUp(cause)))
            }
            ended => {
                self.monitor.start_goes_on(number);
                ended
            }
        }
    }

    /// Starts the child program of a run once the monitor lets it, again after each fault that passes, for 10 minutes.
    fn attempts(&self, alloc: Global, start: &Start<'_>, number: u64) -> Result<Child, StartFault> {
        if !self.monitor.before_start(number) {
            return Err(StartFault::NotStarted(NotStarted::Unsaved));
        }
        for earlier in 0..WAITS {
            match start.attempt(&self.rt, alloc) {
                Err(StartFault::Passing(cause)) => self.pause(number, earlier, cause),
                ended => {
                    if earlier > 0 {
                        self.monitor.start_goes_on(number);
                    }
                    return ended;
                }
            }
        }
        self.last_attempt(alloc, start, number)
    }

    /// Writes to the standard error of the run why its child program was not started. A fault of that file changes nothing.
    fn write_reason(&self, alloc: Global, paths: &RunPaths, words: &[Word], why: NotStarted) {
        if let Ok(line) = reason_line(alloc, words, why) {
            let _ = fs::write(&self.rt, paths.stderr.as_str(), line.as_slice());
        }
    }

    /// Starts the child program of a run, whose standard input then stands in the table.
    fn start(
        &self,
        alloc: Global,
        run: &RunIdentity,
        number: u64,
        words: &[Word],
    ) -> Result<Child, StartFault> {
        let service = self.folders.paths();
        let paths = RunPaths::new(alloc, service, run, number)?;
        let start = Start {
            run,
            words,
            paths: &paths,
            service,
        };
        self.table.make_room(&self.rt, number)?;
        match self.attempts(alloc, &start, number) {
            Ok(mut child) => {
                if let Some(input) = child.stdin.take() {
                    self.table.keep(&self.rt, number, input);
                }
                Ok(child)
            }
            Err(fault) => {
                self.table.forget(&self.rt, number);
                if let StartFault::NotStarted(why) = fault {
                    self.write_reason(alloc, &paths, words, why);
                }
                Err(fault)
            }
        }
    }

    /// Waits for the end of a child program. Its input is closed only after that, unless it is asked to stop.
    fn wait(&mut self, number: u64, mut child: Child) -> ChildEnding
        ensures { self.old ≤ self.new }
    {
        let status = child.wait();
        self.table.forget(&self.rt, number);
        match status {
            Ok(status) => match status.code() {
                Some(code) => ChildEnding::Code(code),
                None => ChildEnding::NoCode,
            },
            Err(_) => {
                self.faults = self.faults.saturating_add(1);
                ChildEnding::NoCode
            }
        }
    }

    /// Adds a run that has ended to the list of runs. A fault of the list is told once, and changes nothing.
    fn list(&self, alloc: Global, run: &EndedRun<'_>) {
        let service = self.folders.paths();
        let cause = service
            .list
            .lock(&self.rt)
            .add(&self.rt, alloc, service.runs.as_str(), run);
        if let Some(cause) = cause {
            self.monitor.list_fails(cause);
        }
    }
}

impl<
    R: Processes<Started = SystemProcess> + Files<File = File> + Clock + Wait + Drop,
    M: StartMonitor + Drop,
> Spawner for ProgramSpawner<R, M> {
    ghost faults = { λ s. s };

    ghost ran = { λ _ _ _. ⊤ };

    /// Makes the folders of the run that are not there, and starts in its working folder the program that the first word names, with the
    /// other words as its arguments. The program is looked up in PATH if the word has no slash; a relative folder in PATH is in the working
    /// folder. A relative path with a slash is in the service's folder. The environment is that of the service with the names of the run
    /// and of its folders.
    ///
    /// The monitor is asked first, and may wait. Returns `NotStarted` if it does not let the child program be started.
    ///
    /// If the folders, the files or the child program cannot be made for a cause that passes, as a full disk, or too many open files or
    /// processes, the start is tried again for 10 minutes. Returns `NotStarted` after that, and at once if there is no word, if a word
    /// is not UTF-8 or has a zero byte, or if the system refuses the command line: the program is not there or may not be executed, the
    /// file is no program, or the words are too long. The reason then stands in the run's file of standard error, if it can be written.
    fn run(&mut self, alloc: Global, run: &RunIdentity, number: u64, words: &[Word]) -> Ran {
        let started = self.start(alloc, run, number, words);
        let began = now(&self.rt);
        let how = match started {
            Ok(child) => Ran::Ended(self.wait(number, child)),
            Err(StartFault::Memory) => return Ran::Memory,
            Err(_) => {
                self.faults = self.faults.saturating_add(1);
                Ran::NotStarted
            }
        };
        let ended = now(&self.rt);
        self.list(
            alloc,
            &EndedRun {
                number,
                run,
                words,
                began,
                ended,
                how,
            },
        );
        how
    }
}
