//! A test of the whole service over a port, programs of the system and the clock of the system: what no clause says, that a task that a client
//! adds runs its program, and that the client sees its exit code.
ghost use Rattle.std.specs.Prelude.{◌≡◌, All, IfOk, false};
ghost use Rattle.batch_serve.specs.Works.{IsReady};

use crate::folders::new_folder;
use batch_desk::{EntryRef, Journal, Mark};
use batch_keeper::SureKeeper;
use batch_serve::{ServeStatus, Served, Worker, WorkerKind, serve_words};
use bt_base::Word;
use bt_clock::Clock;
use bt_rows::event::EventKind;
use bt_rows::run::Ending;
use bt_rows::tables::Tables;
use byte_streams::SureSink;
use child_programs::{ProgramSpawner, ProgramStopper, ProgramTable, ServiceFolders, StartMonitor};
use child_runs::{Spawner, Stopper};
use link_doors::Listener;
use shared_desk::NoMonitor;
use std::alloc::{AllocError, Global};
use std::io::{Read, Write};
use std::net::{Ipv4Addr, Net, TcpListener as Socket, TcpStream};
use std::sync::atomic::AtomicBool;
use std::sync::{Arc, Wait};
use std::test::Fail;
use std::thread::Threads;
use std::time::{Clock as Time, Duration};
use std::{fs, io, thread};
use system_clock::SystemClock;
use tcp_links::{AcceptCause, ListenFlags, ListenOptions, TcpListener, TcpMonitor, WaitLimits};

/// How many times the client looks whether the task is completed, at most, and how long it sleeps after each, in milliseconds.
const MAX_LOOKS: u32 = 800;

const SLEEP_MS: u64 = 50;

/// How many pieces the client reads of one answer, at most.
const MAX_PIECES: u32 = 100;

const ADD_POOL: &[u8] =
    b"POST /pools?api-version=2022-10-01.16.0 HTTP/1.1\r\nHost: localhost\r\nContent-Length: 35\r\n\r\n{\"id\":\"p\",\"targetDedicatedNodes\":1}";

const ADD_JOB: &[u8] =
    b"POST /jobs?api-version=2022-10-01.16.0 HTTP/1.1\r\nHost: localhost\r\nContent-Length: 36\r\n\r\n{\"id\":\"j\",\"poolInfo\":{\"poolId\":\"p\"}}";

const ADD_TASK: &[u8] =
    b"POST /jobs/j/tasks?api-version=2022-10-01.16.0 HTTP/1.1\r\nHost: localhost\r\nContent-Length: 52\r\n\r\n{\"id\":\"t\",\"commandLine\":\"sh -c \\\"echo hi; exit 3\\\"\"}";

const GET_TASK: &[u8] =
    b"GET /jobs/j/tasks/t?api-version=2022-10-01.16.0 HTTP/1.1\r\nHost: localhost\r\n\r\n";

/// The answer to a call that added a row, and its length.
const CREATED: &[u8] = b"HTTP/1.1 201 Created\r\nContent-Length: 0\r\n\r\n";

const CREATED_LENGTH: usize = 43;

/// A monitor that tells nobody.
#[derive(Clone, Copy)]
struct Silent;

impl TcpMonitor for Silent {
    fn accept_waits(&self, _cause: AcceptCause) {}

    fn accept_goes_on(&self) {}
}

impl StartMonitor for Silent {
    fn start_waits(&self, _number: u64, _cause: io::Error) {}

    fn start_goes_on(&self, _number: u64) {}

    fn start_given_up(&self, _number: u64, _cause: io::Error) {}

    fn list_fails(&self, _cause: io::Error) {}
}

/// A listener of one connection on any free port.
fn listen<R: Time + Net<Listener = Socket, Stream = TcpStream> + AllocGlobal + Copy + Drop>(
    rt: &R,
    all_ended: &Arc<AtomicBool>,
) -> Result<TcpListener<R, Silent>, Fail>
    ensures { IfOk result (λ l. l.is_out ≡ false) }
{
    let options = ListenOptions {
        port: 0,
        connections: 1,
        limits: WaitLimits::default(),
    };
    let flags = ListenFlags {
        stopping: Arc::new(rt.alloc(), AtomicBool::new(false))?,
        all_ended: Arc::try_clone(all_ended)?,
    };
    Ok(TcpListener::bind(*rt, rt.alloc(), options, flags, Silent)?)
}

/// A lane of seat 1 that can begin.
fn lane<S, P, N: Listener, C>(spawner: S, clock: C) -> Worker<WorkerKind<S, P, N, C>>
    ensures { IsReady N.is_out result.kind }
{
    Worker::lane(1, spawner, clock)
}

/// A timer that can begin.
fn timer<S, P, N: Listener, C>(stopper: P, clock: C) -> Worker<WorkerKind<S, P, N, C>>
    ensures { IsReady N.is_out result.kind }
{
    Worker::timer(stopper, clock)
}

/// A door that can begin.
fn door<S, P, N: Listener, C>(listener: N, clock: C) -> Worker<WorkerKind<S, P, N, C>>
    requires { N.is_out listener ≡ false }
    ensures { IsReady N.is_out result.kind }
{
    Worker::door(listener, clock)
}

/// The words of the command `serve`.
fn command(alloc: Global) -> Result<Vec<Word>, Fail> {
    let mut words = Vec::new(alloc);
    for text in ["serve", "--seats=1", "--connections=1"] {
        words.push(Word::new(text.as_bytes().to_vec(alloc)?))?;
    }
    Ok(words)
}

/// What an entry asked for, if it was made: the pool, the job, the task, the start of run 1 or its end with code 3. Ticks have no word.
fn word_of(entry: &EntryRef<'_>) -> &'static str {
    if !matches!(entry.mark, Mark::Done(None)) {
        return "undone ";
    }
    match entry.event.kind() {
        EventKind::AddPool(_) => "pool ",
        EventKind::AddJob(..) => "job ",
        EventKind::AddTask(..) => "task ",
        EventKind::Take(1) => "take ",
        EventKind::End(1, Ending::Code(3)) => "end ",
        EventKind::Tick => "",
        _ => "other ",
    }
}

/// The words of the entries of a journal, in their order.
fn words_of(alloc: Global, journal: &Journal) -> Result<String, AllocError> {
    let mut words = String::new(alloc);
    for at in 0..journal.entries.len() {
        if let Some(entry) = journal.entries.get(at) {
            words.push_str(word_of(&entry))?;
        }
    }
    Ok(words)
}

/// Serves over empty tables; the status, and the words of the journal.
fn serve_tables<
    S: Spawner + Send,
    P: Stopper + Send,
    N: Listener + Send,
    C: Clock + Drop + Send,
    R: Threads + Wait + Sync,
>(
    rt: &R,
    alloc: Global,
    words: &[Word],
    workers: &mut [Worker<WorkerKind<S, P, N, C>>],
) -> (ServeStatus, Option<String>)
where
    N::Link: Send,
    requires ready { All (λ w. IsReady N.is_out w.kind) workers.old }
{
    let mut sink = SureSink::new(alloc);
    let keeper = SureKeeper::new(Tables::empty(alloc));
    let served = serve_words(rt, alloc, words, &mut sink, keeper, NoMonitor, workers);
    drop(sink);
    let Served {
        status,
        keeper,
        journal,
    } = served;
    drop(keeper);
    match journal {
        Some(journal) => {
            let words = words_of(alloc, &journal).ok();
            drop(journal);
            (status, words)
        }
        None => (status, None),
    }
}

/// Adds the row that the request has. None if the answer is another one.
fn add(stream: &mut TcpStream, request: &[u8]) -> Option<()> {
    let mut answer = [0; CREATED_LENGTH];
    stream.write_all(request).ok()?;
    stream.read_exact(&mut answer).ok()?;
    (answer.as_slice() == CREATED).then_some(())
}

/// What the service shows of the task: an answer that ends with an object, which has no object in it.
fn show(alloc: Global, stream: &mut TcpStream) -> Option<String> {
    let mut answer = Vec::new(alloc);
    let mut room = [0; 512];
    stream.write_all(GET_TASK).ok()?;
    for _ in 0..MAX_PIECES {
        let count = stream.read(&mut room).ok()?;
        answer.extend_from_slice(room.get(..count)?).ok()?;
        if answer.last() == Some(&b'}') {
            return String::from_utf8(answer).ok();
        }
    }
    None
}

/// Connects to the port, adds a pool, a job and a task, and waits until the task is completed; what the service shows of it then.
fn run_task<R: Time + Net<Listener = Socket, Stream = TcpStream> + AllocGlobal>(
    rt: &R,
    port: u16,
) -> Option<String> {
    let mut stream = TcpStream::connect(rt, (Ipv4Addr::new(127, 0, 0, 1), port)).ok()?;
    for request in [ADD_POOL, ADD_JOB, ADD_TASK] {
        add(&mut stream, request)?;
    }
    for _ in 0..MAX_LOOKS {
        let shown = show(rt.alloc(), &mut stream)?;
        if shown.contains("\"state\":\"completed\"") {
            return Some(shown);
        }
        thread::sleep(rt, Duration::from_millis(SLEEP_MS));
    }
    None
}

#[test]
fn a_client_sees_the_exit_code_of_a_program(rt: HostRuntime) -> Result<(), Fail> {
    let alloc = rt.alloc();
    let folder = new_folder(&rt, "service_over_tcp")?;
    let folders = ServiceFolders::new(alloc, folder.as_str(), "runs")?;
    let table = ProgramTable::new(alloc)?;
    let ended = Arc::new(alloc, AtomicBool::new(false))?;
    let listener = listen(&rt, &ended)?;
    let port = listener.port().ok_or("no port")?;
    let clock = SystemClock::new(alloc, rt, 10, &ended)?;
    let spawner = ProgramSpawner::new(rt, &table, &folders, Silent)?;
    let stopper = ProgramStopper::new(rt, &table)?;
    let mut workers = [
        lane(spawner, clock.another()?),
        timer(stopper, clock.another()?),
        door(listener, clock),
    ];
    let words = command(alloc)?;
    let said = words.as_slice();
    let (shown, (status, steps)) = thread::join(
        &rt,
        || run_task(&rt, port),
        || serve_tables(&rt, alloc, said, &mut workers),
    );
    drop(workers);
    let path = format!(in alloc; "{folder}/runs/j/t/1/stdout.txt")?;
    let output = fs::read_to_string(&rt, path.as_str())?;
    fs::remove_dir_all(&rt, folder.as_str())?;
    let shown = shown.ok_or("no completed task")?;
    assert!(rt; shown.contains("\"exit\":\"3\"") && shown.contains("\"result\":\"failure\""));
    assert_eq!(rt; status, ServeStatus::Done);
    assert_eq!(rt;
        steps.ok_or("no journal")?.as_str(),
        "pool job task take end "
    );
    assert_eq!(rt; output.as_str(), "hi\n");
    Ok(())
}
