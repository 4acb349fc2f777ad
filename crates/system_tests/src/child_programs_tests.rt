//! Tests over programs of the system: exit codes, stops before and after the start, starts that the monitor does not let be made, folders
//! and environments of child programs, reasons of child programs that cannot be started, starts that wait, and the list of runs.
use crate::folders::new_folder;
use bt_base::{Id, NoMemory, Word};
use bt_rows::run::RunKind;
use child_programs::{ProgramSpawner, ProgramStopper, ProgramTable, ServiceFolders, StartMonitor};
use child_runs::{ChildEnding, Ran, RunIdentity, Spawner, Stopper};
use std::alloc::{AllocError, Global};
use std::fs::{File, Permissions};
use std::os::unix::fs::PermissionsExt;
use std::process::{Processes, SystemProcess};
use std::rt::Files;
use std::sync::Wait;
use std::sync::atomic::{AtomicU64, Ordering};
use std::test::Fail;
use std::time::{Clock, Duration};
use std::{fs, io, thread};

/// How often the monitor of a test was told of each.
#[derive(Drop)]
struct Told {
    waits: AtomicU64,
    goes_on: AtomicU64,
    given_up: AtomicU64,
    list_fails: AtomicU64,
}

impl Told {
    fn new() -> Told {
        Told {
            waits: AtomicU64::new(0),
            goes_on: AtomicU64::new(0),
            given_up: AtomicU64::new(0),
            list_fails: AtomicU64::new(0),
        }
    }

    /// How often it was told that a start waits, goes on and was given up, and of a fault of the list.
    fn counts(&self) -> (u64, u64, u64, u64) {
        (
            self.waits.load(Ordering::SeqCst),
            self.goes_on.load(Ordering::SeqCst),
            self.given_up.load(Ordering::SeqCst),
            self.list_fails.load(Ordering::SeqCst),
        )
    }
}

/// A monitor that counts.
#[derive(Clone, Copy)]
struct CountingMonitor<'a>(&'a Told);

impl StartMonitor for CountingMonitor<'_> {
    fn start_waits(&self, _number: u64, _cause: io::Error) {
        self.0.waits.fetch_add(1, Ordering::SeqCst);
    }

    fn start_goes_on(&self, _number: u64) {
        self.0.goes_on.fetch_add(1, Ordering::SeqCst);
    }

    fn start_given_up(&self, _number: u64, _cause: io::Error) {
        self.0.given_up.fetch_add(1, Ordering::SeqCst);
    }

    fn list_fails(&self, _cause: io::Error) {
        self.0.list_fails.fetch_add(1, Ordering::SeqCst);
    }
}

/// A monitor that lets no child program be started.
#[derive(Clone, Copy)]
struct Refusing;

impl StartMonitor for Refusing {
    fn before_start(&self, _number: u64) -> bool {
        false
    }

    fn start_waits(&self, _number: u64, _cause: io::Error) {}

    fn start_goes_on(&self, _number: u64) {}

    fn start_given_up(&self, _number: u64, _cause: io::Error) {}

    fn list_fails(&self, _cause: io::Error) {}
}

/// The words of a command line.
fn words(alloc: Global, texts: &[&str]) -> Result<Vec<Word>, NoMemory> {
    let mut words = Vec::new(alloc);
    for text in texts {
        words.push(Word::new(text.as_bytes().to_vec(alloc)?))?;
    }
    Ok(words)
}

/// The run of a pool's start task.
fn start_run(alloc: Global) -> Result<RunIdentity, Fail> {
    Ok(RunIdentity {
        kind: RunKind::Start,
        pool: Id::read(alloc, "render")?,
        node: 3,
        job: None,
        task: None,
    })
}

/// The run of a job's own command line.
fn job_run(alloc: Global, kind: RunKind) -> Result<RunIdentity, Fail> {
    Ok(RunIdentity {
        kind,
        pool: Id::read(alloc, "render")?,
        node: 3,
        job: Some(Id::read(alloc, "film")?),
        task: None,
    })
}

/// The run of a task.
fn task_run(alloc: Global) -> Result<RunIdentity, Fail> {
    Ok(RunIdentity {
        kind: RunKind::Task,
        pool: Id::read(alloc, "render")?,
        node: 3,
        job: Some(Id::read(alloc, "film")?),
        task: Some(Id::read(alloc, "frame-7")?),
    })
}

/// A service in a new folder, with what its monitor was told.
struct Service {
    folder: String,
    folders: ServiceFolders,
    told: Told,
    table: ProgramTable,
}

impl Drop for Service {
    fn drop(self) {
        let Service {
            folder: _folder,
            folders: _folders,
            told: _told,
            table: _table,
        } = self;
    }
}

impl Service {
    /// Makes the folder, which has the name in its own.
    fn new(rt: &HostRuntime, name: &str) -> Result<Service, Fail> {
        let folder = new_folder(rt, name)?;
        let folders = ServiceFolders::new(rt.alloc(), folder.as_str(), "runs")?;
        let table = ProgramTable::new(rt.alloc())?;
        Ok(Service {
            folder,
            folders,
            told: Told::new(),
            table,
        })
    }

    /// A spawner of the service's child programs, whose monitor counts.
    fn spawner<
        R: Processes<Started = SystemProcess> + Files<File = File> + Clock + Wait + Copy + Drop,
    >(&self, rt: &R) -> Result<ProgramSpawner<R, CountingMonitor<'_>>, Fail> {
        let monitor = CountingMonitor(&self.told);
        Ok(ProgramSpawner::new(*rt, &self.table, &self.folders, monitor)?)
    }

    /// Runs a child program with these words, by a spawner of its own.
    fn run<
        R: Processes<Started = SystemProcess>
            + Files<File = File>
            + Clock
            + Wait
            + AllocGlobal
            + Copy
            + Drop,
    >(&self, rt: &R, run: RunIdentity, number: u64, texts: &[&str]) -> Result<Ran, Fail> {
        let words = words(rt.alloc(), texts)?;
        let mut spawner = self.spawner(rt)?;
        Ok(spawner.run(rt.alloc(), &run, number, words.as_slice()))
    }

    /// What the file at this path in the folder has.
    fn content(&self, rt: &HostRuntime, path: &str) -> Result<String, Fail> {
        let path = format!(in rt.alloc(); "{}/{path}", self.folder.as_str())?;
        Ok(fs::read_to_string(rt, path.as_str())?)
    }

    /// Removes the folder with all that is in it.
    fn remove(&self, rt: &HostRuntime) -> Result<(), Fail> {
        Ok(fs::remove_dir_all(rt, self.folder.as_str())?)
    }
}

/// Whether the file has the line that these two make.
fn has_line(alloc: Global, file: &str, name: &str, value: &str) -> Result<bool, AllocError> {
    let wanted = format!(in alloc; "{name}{value}")?;
    Ok(file.lines().any(|line| line == wanted.as_str()))
}

#[test]
fn programs_run_and_stop(rt: HostRuntime) -> Result<(), Fail> {
    let alloc = rt.alloc();
    let service = Service::new(&rt, "stop")?;
    let table = &service.table;
    let mut spawner = service.spawner(&rt)?;
    let mut stopper = ProgramStopper::new(rt, table)?;
    let run = start_run(alloc)?;
    let exits = words(alloc, &["sh", "-c", "echo told; exit 3"])?;
    let waits = words(alloc, &["/bin/cat"])?;
    let ended = spawner.run(alloc, &run, 1, exits.as_slice());
    let asked = stopper.stop(3);
    let open_before = table.has_open(&rt);
    let stopped_before = spawner.run(alloc, &run, 3, waits.as_slice());
    let (stopped_after, (open_while, asked_after)) = thread::join(
        &rt,
        || spawner.run(alloc, &run, 4, waits.as_slice()),
        || {
            thread::sleep(&rt, Duration::from_millis(300));
            let open = table.has_open(&rt);
            (open, stopper.stop(4))
        },
    );
    let output = service.content(&rt, "runs/pool.start/render/node-3/1/stdout.txt")?;
    service.remove(&rt)?;
    assert_eq!(rt; ended, Ran::Ended(ChildEnding::Code(3)));
    assert_eq!(rt; output.as_str(), "told\n");
    assert_eq!(rt; stopped_before, Ran::Ended(ChildEnding::Code(0)));
    assert_eq!(rt; stopped_after, Ran::Ended(ChildEnding::Code(0)));
    assert!(rt; asked.is_ok() && asked_after.is_ok());
    assert!(rt; !open_before && open_while && !table.has_open(&rt));
    assert_eq!(rt; service.told.counts(), (0, 0, 0, 0));
    Ok(())
}

#[test]
fn a_program_is_not_started_without_leave(rt: HostRuntime) -> Result<(), Fail> {
    let alloc = rt.alloc();
    let service = Service::new(&rt, "leave")?;
    let mut spawner = ProgramSpawner::new(rt, &service.table, &service.folders, Refusing)?;
    let echoes = words(alloc, &["echo", "told"])?;
    let ended = spawner.run(alloc, &task_run(alloc)?, 90, echoes.as_slice());
    let output = format!(in alloc; "{}/film/frame-7/90/stdout.txt", service.folders.runs())?;
    let has_output = fs::metadata(&rt, output.as_str()).is_ok();
    service.remove(&rt)?;
    assert_eq!(rt; ended, Ran::NotStarted);
    assert!(rt; !has_output);
    Ok(())
}

#[test]
fn a_child_has_its_names_and_folders(rt: HostRuntime) -> Result<(), Fail> {
    let alloc = rt.alloc();
    let service = Service::new(&rt, "names")?;
    let shows = ["sh", "-c", "env; pwd; ls -d \"$AZ_BATCH_NODE_SHARED_DIR\""];
    let ended = service.run(&rt, task_run(alloc)?, 12, &shows)?;
    let at_start = service.run(&rt, start_run(alloc)?, 13, &shows)?;
    let task = service.content(&rt, "runs/film/frame-7/12/stdout.txt")?;
    let start = service.content(&rt, "runs/pool.start/render/node-3/13/stdout.txt")?;
    service.remove(&rt)?;
    assert_eq!(rt; ended, Ran::Ended(ChildEnding::Code(0)));
    assert_eq!(rt; at_start, Ran::Ended(ChildEnding::Code(0)));
    let folder = service.folder.as_str();
    let own = format!(in alloc; "{folder}/runs/film/frame-7/12")?;
    let work = format!(in alloc; "{folder}/runs/film/frame-7/12/wd")?;
    let shared = format!(in alloc; "{folder}/shared")?;
    let expected = [
        ("AZ_BATCH_POOL_ID=", "render"),
        ("AZ_BATCH_NODE_ID=", "node-3"),
        ("AZ_BATCH_JOB_ID=", "film"),
        ("AZ_BATCH_TASK_ID=", "frame-7"),
        ("AZ_BATCH_TASK_DIR=", own.as_str()),
        ("AZ_BATCH_TASK_WORKING_DIR=", work.as_str()),
        ("AZ_BATCH_NODE_ROOT_DIR=", folder),
        ("AZ_BATCH_NODE_SHARED_DIR=", shared.as_str()),
        ("", work.as_str()),
        ("", shared.as_str()),
    ];
    for (name, value) in expected {
        assert!(rt;
            has_line(alloc, task.as_str(), name, value)?,
            "no line {name}{value}"
        );
    }
    assert!(rt; has_line(alloc, start.as_str(), "AZ_BATCH_POOL_ID=", "render")?);
    assert!(rt; !start.as_str().contains("AZ_BATCH_JOB_ID"));
    assert!(rt; !start.as_str().contains("AZ_BATCH_TASK_ID"));
    Ok(())
}

#[test]
fn runs_of_a_job_have_folders(rt: HostRuntime) -> Result<(), Fail> {
    let alloc = rt.alloc();
    let service = Service::new(&rt, "kinds")?;
    let echoes = ["sh", "-c", "echo $AZ_BATCH_JOB_ID; echo gone >&2"];
    let prepared = service.run(&rt, job_run(alloc, RunKind::Prep)?, 20, &echoes)?;
    let released = service.run(&rt, job_run(alloc, RunKind::Release)?, 21, &echoes)?;
    let output = service.content(&rt, "runs/film/job.preparation/20/stdout.txt")?;
    let errors = service.content(&rt, "runs/film/job.release/21/stderr.txt")?;
    service.remove(&rt)?;
    assert_eq!(rt; prepared, Ran::Ended(ChildEnding::Code(0)));
    assert_eq!(rt; released, Ran::Ended(ChildEnding::Code(0)));
    assert_eq!(rt; output.as_str(), "film\n");
    assert_eq!(rt; errors.as_str(), "gone\n");
    Ok(())
}

#[test]
fn a_relative_program_is_in_the_folder_of_the_service(rt: HostRuntime) -> Result<(), Fail> {
    let alloc = rt.alloc();
    let service = Service::new(&rt, "relative")?;
    let folder = service.folder.as_str();
    let script = format!(in alloc; "{folder}/work.sh")?;
    fs::write(&rt, script.as_str(), "#!/bin/sh\necho \"$1\"; pwd\n")?;
    fs::set_permissions(&rt, script.as_str(), Permissions::from_mode(0o755))?;
    let ended = service.run(&rt, task_run(alloc)?, 30, &["./work.sh", "./first"])?;
    let output = service.content(&rt, "runs/film/frame-7/30/stdout.txt")?;
    service.remove(&rt)?;
    assert_eq!(rt; ended, Ran::Ended(ChildEnding::Code(0)));
    let expected = format!(in alloc; "./first\n{folder}/runs/film/frame-7/30/wd\n")?;
    assert_eq!(rt; output.as_str(), expected.as_str());
    Ok(())
}

#[test]
fn a_reason_stands_in_standard_error(rt: HostRuntime) -> Result<(), Fail> {
    let alloc = rt.alloc();
    let service = Service::new(&rt, "reasons")?;
    let text = format!(in alloc; "{}/text", service.folder.as_str())?;
    fs::write(&rt, text.as_str(), "no program")?;
    let cases = [
        (
            40,
            "no-such-program",
            "no-such-program: no such file or directory",
        ),
        (
            41,
            "/no/such/program",
            "/no/such/program: no such file or directory",
        ),
        (42, "./text", "./text: permission denied"),
        (
            43,
            "a\0b",
            "a?b: a word of the command line has a zero byte",
        ),
    ];
    for (number, program, reason) in cases {
        let ran = service.run(&rt, task_run(alloc)?, number, &[program, "x"])?;
        let path = format!(in alloc; "runs/film/frame-7/{number}/stderr.txt")?;
        let errors = service.content(&rt, path.as_str())?;
        let expected = format!(in alloc; "batch: cannot start {reason}\n")?;
        assert_eq!(rt; ran, Ran::NotStarted);
        assert_eq!(rt; errors.as_str(), expected.as_str());
    }
    let none = service.run(&rt, task_run(alloc)?, 44, &[])?;
    service.remove(&rt)?;
    assert_eq!(rt; none, Ran::NotStarted);
    assert_eq!(rt; service.told.counts(), (0, 0, 0, 0));
    Ok(())
}

#[test]
fn folders_are_made_again(rt: HostRuntime) -> Result<(), Fail> {
    let alloc = rt.alloc();
    let service = Service::new(&rt, "again")?;
    let first = service.run(&rt, task_run(alloc)?, 50, &["echo", "told"])?;
    fs::remove_dir_all(&rt, service.folders.runs())?;
    fs::remove_dir_all(&rt, service.folders.shared())?;
    let second = service.run(&rt, task_run(alloc)?, 51, &["echo", "told"])?;
    let output = service.content(&rt, "runs/film/frame-7/51/stdout.txt")?;
    let list = service.content(&rt, "runs/runs.csv")?;
    service.remove(&rt)?;
    assert_eq!(rt; first, Ran::Ended(ChildEnding::Code(0)));
    assert_eq!(rt; second, Ran::Ended(ChildEnding::Code(0)));
    assert_eq!(rt; output.as_str(), "told\n");
    assert_eq!(rt; list.as_str().lines().count(), 2);
    Ok(())
}

#[test]
fn a_start_waits_for_what_passes(rt: HostRuntime) -> Result<(), Fail> {
    let alloc = rt.alloc();
    let service = Service::new(&rt, "waits")?;
    let table = &service.table;
    let mut spawner = service.spawner(&rt)?;
    let run = task_run(alloc)?;
    let echoes = words(alloc, &["echo", "told"])?;
    let in_the_way = service.folders.runs();
    fs::write(&rt, in_the_way, "")?;
    let (ended, (open, removed)) = thread::join(
        &rt,
        || spawner.run(alloc, &run, 60, echoes.as_slice()),
        || {
            thread::sleep(&rt, Duration::from_millis(400));
            let open = table.has_open(&rt);
            (open, fs::remove_file(&rt, in_the_way))
        },
    );
    let output = service.content(&rt, "runs/film/frame-7/60/stdout.txt")?;
    service.remove(&rt)?;
    removed?;
    assert!(rt; open && !table.has_open(&rt));
    assert_eq!(rt; ended, Ran::Ended(ChildEnding::Code(0)));
    assert_eq!(rt; output.as_str(), "told\n");
    assert_eq!(rt; service.told.counts(), (1, 1, 0, 0));
    Ok(())
}

/// Whether the text is an instant of this century in UTC, with milliseconds.
fn is_instant(text: &str) -> bool {
    let shape = b"20dd-dd-ddTdd:dd:dd.dddZ";
    let bytes = text.as_bytes();
    bytes.len() == shape.len()
        && bytes.iter().zip(shape.iter()).all(|(byte, wanted)| match *wanted {
            b'd' => byte.is_ascii_digit(),
            other => *byte == other,
        })
}

/// The line without its two instants; None if it has none in their places.
fn without_instants(alloc: Global, line: &str) -> Result<Option<String>, AllocError> {
    let mut rest = String::new(alloc);
    let mut instants = 0u8;
    for (place, field) in line.split(',').enumerate() {
        if (place == 6 || place == 7) && is_instant(field) {
            instants = instants.saturating_add(1);
        } else {
            rest.push_str(field)?;
            rest.push(',')?;
        }
    }
    Ok((instants == 2).then_some(rest))
}

#[test]
fn ends_are_listed(rt: HostRuntime) -> Result<(), Fail> {
    let alloc = rt.alloc();
    let service = Service::new(&rt, "list")?;
    let prepares = job_run(alloc, RunKind::Prep)?;
    service.run(&rt, task_run(alloc)?, 70, &["sh", "-c", "exit 3"])?;
    service.run(&rt, start_run(alloc)?, 71, &["sh", "-c", "kill -9 $$"])?;
    service.run(&rt, prepares, 72, &["/no/such", "say \"so\""])?;
    let list = service.content(&rt, "runs/runs.csv")?;
    service.remove(&rt)?;
    let expected = [
        "70,task,render,node-3,film,frame-7,code,3,sh -c exit 3,",
        "71,start,render,node-3,,,signal,,sh -c kill -9 $$,",
        "72,preparation,render,node-3,film,,notstarted,,\"/no/such say \"\"so\"\"\",",
    ];
    let mut lines = list.as_str().lines();
    let header = "run,kind,pool,node,job,task,began,ended,ending,code,command";
    assert_eq!(rt; lines.next(), Some(header));
    for wanted in expected {
        let line = without_instants(alloc, lines.next().ok_or("a line")?)?;
        assert_eq!(rt; line.ok_or("two instants")?.as_str(), wanted);
    }
    assert_eq!(rt; lines.next(), None);
    assert_eq!(rt; service.told.counts(), (0, 0, 0, 0));
    Ok(())
}

#[test]
fn a_fault_of_the_list_is_told_once(rt: HostRuntime) -> Result<(), Fail> {
    let alloc = rt.alloc();
    let service = Service::new(&rt, "fault")?;
    let in_the_way = format!(in alloc; "{}/runs.csv", service.folders.runs())?;
    fs::create_dir_all(&rt, in_the_way.as_str())?;
    let first = service.run(&rt, task_run(alloc)?, 80, &["echo", "told"])?;
    let second = service.run(&rt, task_run(alloc)?, 81, &["echo", "told"])?;
    service.remove(&rt)?;
    assert_eq!(rt; first, Ran::Ended(ChildEnding::Code(0)));
    assert_eq!(rt; second, Ran::Ended(ChildEnding::Code(0)));
    assert_eq!(rt; service.told.counts(), (0, 0, 0, 1));
    Ok(())
}
