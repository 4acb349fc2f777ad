//! Tests of the whole service over a desk, links and child programs in memory: what no clause says, that a task that is added over HTTP is
//! run, and that the child programs of two lanes run at once.
ghost use Rattle.std.specs.Prelude.{◌≡◌, All, IfOk, ⊤, false};
ghost use Rattle.batch_serve.specs.Works.{IsReady};

use batch_crew::LaneEnd;
use batch_desk::{Answer, Journal};
use batch_http::DoorEnd;
use batch_keeper::{Keeper, SureKeeper};
use batch_serve::{ServeStatus, Served, ServiceMonitor, Worker, WorkerKind, serve_words};
use bt_base::{Moment, NoMemory, Word};
use bt_clock::Clock;
use bt_rows::event::Event;
use bt_rows::run::Ending;
use bt_rows::tables::Tables;
use bt_rows::task::{How, TaskRow};
use byte_streams::SureSink;
use child_runs::{ChildEnding, Ran, RunIdentity, Spawner, Stopper, SureStopper};
use http_link::SureLink;
use link_doors::{Listener, SureListener};
use shared_desk::CallMonitor;
use std::alloc::Global;
use std::sync::Wait;
use std::sync::atomic::{AtomicU64, Ordering};
use std::test::Fail;
use std::thread;
use std::thread::Threads;
use std::time::{Clock as Time, Duration};

/// How many milliseconds a child program waits for another one, and how many times a clock pauses, at most.
const MAX_WAITS: u64 = 10_000;

const ADD_POOL_OF_1: &[u8] =
    b"POST /pools?api-version=2022-10-01.16.0 HTTP/1.1\r\nHost: localhost\r\nContent-Length: 35\r\n\r\n{\"id\":\"p\",\"targetDedicatedNodes\":1}";

const ADD_POOL_OF_2: &[u8] =
    b"POST /pools?api-version=2022-10-01.16.0 HTTP/1.1\r\nHost: localhost\r\nContent-Length: 35\r\n\r\n{\"id\":\"p\",\"targetDedicatedNodes\":2}";

const ADD_JOB: &[u8] =
    b"POST /jobs?api-version=2022-10-01.16.0 HTTP/1.1\r\nHost: localhost\r\nContent-Length: 36\r\n\r\n{\"id\":\"j\",\"poolInfo\":{\"poolId\":\"p\"}}";

const ADD_TASK_T: &[u8] =
    b"POST /jobs/j/tasks?api-version=2022-10-01.16.0 HTTP/1.1\r\nHost: localhost\r\nContent-Length: 34\r\n\r\n{\"id\":\"t\",\"commandLine\":\"echo hi\"}";

const ADD_TASK_U: &[u8] =
    b"POST /jobs/j/tasks?api-version=2022-10-01.16.0 HTTP/1.1\r\nHost: localhost\r\nContent-Length: 34\r\n\r\n{\"id\":\"u\",\"commandLine\":\"echo hi\"}";

/// How many child programs have started, and how many have ended; how many calls the monitor heard begin and answered, the number of entries
/// that it heard of last, and how many workers it heard end as they were asked to.
#[derive(Drop)]
struct Counts {
    started: AtomicU64,
    ended: AtomicU64,
    calls_begun: AtomicU64,
    calls_answered: AtomicU64,
    entries: AtomicU64,
    workers_ended: AtomicU64,
}

impl Counts {
    fn new() -> Counts {
        Counts {
            started: AtomicU64::new(0),
            ended: AtomicU64::new(0),
            calls_begun: AtomicU64::new(0),
            calls_answered: AtomicU64::new(0),
            entries: AtomicU64::new(0),
            workers_ended: AtomicU64::new(0),
        }
    }

    /// Counts a worker, if it ended as it was asked to.
    fn count_worker(&self, is_asked: bool) {
        if is_asked {
            self.workers_ended.fetch_add(1, Ordering::SeqCst);
        }
    }

    /// Whether so many calls were heard, each of which entered the journal, and so many workers.
    fn has_heard(&self, entries: u64, workers: u64) -> bool {
        self.calls_begun.load(Ordering::SeqCst) == entries
            && self.calls_answered.load(Ordering::SeqCst) == entries
            && self.entries.load(Ordering::SeqCst) == entries
            && self.workers_ended.load(Ordering::SeqCst) == workers
    }
}

/// A monitor that counts what it hears.
#[derive(Clone, Copy)]
struct CountMonitor<'a> {
    counts: &'a Counts,
}

impl<'a> CallMonitor for CountMonitor<'a> {
    fn call_begins(&self, _moment: Moment, _event: &Event) {
        self.counts.calls_begun.fetch_add(1, Ordering::SeqCst);
    }

    fn call_answered(&self, entries: u64, _answer: &Answer) {
        self.counts.calls_answered.fetch_add(1, Ordering::SeqCst);
        self.counts.entries.store(entries, Ordering::SeqCst);
    }
}

impl<'a> ServiceMonitor for CountMonitor<'a> {
    fn lane_ended(&self, _seat: u8, end: LaneEnd) {
        self.counts.count_worker(end == LaneEnd::Ended);
    }

    fn timer_ended(&self, end: LaneEnd) {
        self.counts.count_worker(end == LaneEnd::Ended);
    }

    fn door_ended(&self, end: DoorEnd) {
        self.counts.count_worker(!end.failed && !end.met_memory);
    }
}

/// A spawner of child programs of which each waits until so many have started. A child program ends with code 0; with code 9 if it waited
/// too long; and with code 8 if its words are not those of the tasks.
#[derive(Drop)]
struct BarrierSpawner<'a, R: Time + Drop> {
    rt: R,
    counts: &'a Counts,
    together: u64,
}

impl<'a, R: Time + Drop> BarrierSpawner<'a, R> {
    /// Waits until so many child programs have started; false if it waited too long.
    fn wait(&self) -> bool {
        for _ in 0..MAX_WAITS {
            if self.counts.started.load(Ordering::SeqCst) >= self.together {
                return true;
            }
            thread::sleep(&self.rt, Duration::from_millis(1));
        }
        false
    }
}

/// Whether these are the words of the tasks.
fn are_words(words: &[Word]) -> bool {
    words.len() == 2 && words[0].is("echo") && words[1].is("hi")
}

/// The exit code of a child program.
fn exit_code(met: bool, right: bool) -> i32 {
    if !met {
        9
    } else if !right {
        8
    } else {
        0
    }
}

impl<'a, R: Time + Drop> Spawner for BarrierSpawner<'a, R> {
    ghost faults = { λ _. 0 };

    ghost ran = { λ _ _ _. ⊤ };

    fn run(&mut self, _: Global, _: &RunIdentity, _: u64, words: &[Word]) -> Ran {
        self.counts.started.fetch_add(1, Ordering::SeqCst);
        let met = self.wait();
        self.counts.ended.fetch_add(1, Ordering::SeqCst);
        Ran::Ended(ChildEnding::Code(exit_code(met, are_words(words))))
    }
}

/// A clock that stands at 1970. Its pauses say that the service is to end once so many child programs have ended, or once there were too
/// many of them.
#[derive(Drop)]
struct CountClock<'a, R: Time + Drop> {
    rt: R,
    counts: &'a Counts,
    together: u64,
    pauses: u64,
    has_ended: bool,
}

/// The beginning of 1970.
fn zero_moment() -> Moment {
    match Moment::of_ms(0) {
        Some(moment) => moment,
        None => unreachable!(),
    }
}

impl<'a, R: Time + Drop> Clock for CountClock<'a, R> {
    ghost gives = { λ _ _ _. ⊤ };

    ghost pauses = { λ _ _ _. ⊤ };

    ghost has_ended = { λ c. c.has_ended };

    fn now(&mut self) -> Moment {
        zero_moment()
    }

    fn pause(&mut self) -> bool {
        if self.pauses == 0 || self.counts.ended.load(Ordering::SeqCst) >= self.together {
            self.has_ended = true;
            return false;
        }
        self.pauses -= 1;
        thread::sleep(&self.rt, Duration::from_millis(1));
        true
    }
}

fn spawner<'a, R: Time + Drop>(rt: R, counts: &'a Counts, together: u64) -> BarrierSpawner<'a, R> {
    BarrierSpawner {
        rt,
        counts,
        together,
    }
}

fn clock<'a, R: Time + Drop>(rt: R, counts: &'a Counts, together: u64) -> CountClock<'a, R> {
    CountClock {
        rt,
        counts,
        together,
        pauses: MAX_WAITS,
        has_ended: false,
    }
}

/// A lane that can begin.
fn lane<S, P, N: Listener, C>(seat: u8, spawner: S, clock: C) -> Worker<WorkerKind<S, P, N, C>>
    ensures { IsReady N.is_out result.kind }
{
    Worker::lane(seat, spawner, clock)
}

/// A timer that can begin.
fn timer<S, P, N: Listener, C>(stopper: P, clock: C) -> Worker<WorkerKind<S, P, N, C>>
    ensures { IsReady N.is_out result.kind }
{
    Worker::timer(stopper, clock)
}

/// A door that can begin.
fn door<S, P, N: Listener, C>(listener: N, clock: C) -> Worker<WorkerKind<S, P, N, C>>
    requires { N.is_out listener ≡ false }
    ensures { IsReady N.is_out result.kind }
{
    Worker::door(listener, clock)
}

/// A listener of one link, whose peer sends these texts.
fn listener(alloc: Global, texts: &[&[u8]]) -> Result<SureListener<SureLink>, NoMemory>
    ensures { IfOk result (λ l. l.is_out ≡ false) }
{
    let mut pieces = Vec::new(alloc);
    for text in texts {
        pieces.push(text.to_vec(alloc)?)?;
    }
    let mut links = Vec::new(alloc);
    links.push(SureLink::new(alloc, pieces))?;
    Ok(SureListener::new(links))
}

/// The words of the command `serve`.
fn serve_words_of(alloc: Global) -> Result<Vec<Word>, NoMemory> {
    let mut words = Vec::new(alloc);
    words.push(Word::new(b"serve".to_vec(alloc)?))?;
    words.push(Word::new(b"--seats=2".to_vec(alloc)?))?;
    Ok(words)
}

/// What the service leaves over empty tables.
fn serve_empty<
    S: Spawner + Send,
    P: Stopper + Send,
    N: Listener + Send,
    C: Clock + Drop + Send,
    R: Threads + Wait + Sync,
>(
    rt: &R,
    alloc: Global,
    words: &[Word],
    counts: &Counts,
    workers: &mut [Worker<WorkerKind<S, P, N, C>>],
) -> Served<SureKeeper>
where
    N::Link: Send,
    requires ready { All (λ w. IsReady N.is_out w.kind) workers.old }
{
    let mut sink = SureSink::new(alloc);
    let keeper = SureKeeper::new(Tables::empty(alloc));
    let monitor = CountMonitor { counts };
    let served = serve_words(rt, alloc, words, &mut sink, keeper, monitor, workers);
    drop(sink);
    served
}

/// Whether the tables have the pool p.
fn has_pool(tables: &Tables) -> bool {
    for pool in tables.pools() {
        if pool.id.as_str() == "p" {
            return true;
        }
    }
    false
}

/// Whether the task was completed by an ending with code 0, which is a success.
fn is_success(task: &TaskRow) -> bool {
    match task.closed {
        Some(closed) => closed.how == How::Ended(Ending::Code(0)) && closed.success,
        None => false,
    }
}

/// Whether the tables have a task with this id that succeeded.
fn has_success(tables: &Tables, id: &str) -> bool {
    for task in tables.tasks() {
        if task.id.as_str() == id && is_success(task) {
            return true;
        }
    }
    false
}

/// The number of entries of the journal; 0 if there is none.
fn entry_count(journal: Option<Journal>) -> u64 {
    match journal {
        Some(journal) => {
            let count = journal.entries.len() as u64;
            drop(journal);
            count
        }
        None => 0,
    }
}

/// The status of the service, the number of its calls, and the tables of its keeper.
fn parts_of(alloc: Global, served: Served<SureKeeper>) -> (ServeStatus, u64, Option<Tables>) {
    let Served {
        status,
        keeper,
        journal,
    } = served;
    let calls = entry_count(journal);
    let mut keeper = keeper;
    let loaded = keeper.load(alloc);
    drop(keeper);
    match loaded {
        Ok(tables) => (status, calls, Some(tables)),
        Err(_error) => (status, calls, None),
    }
}

/// Whether the service was done, its tables have the pool p and a success of each of these tasks, and its monitor heard each call and the end of
/// each of so many workers.
fn is_done(
    alloc: Global,
    served: Served<SureKeeper>,
    tasks: &[&str],
    counts: &Counts,
    workers: u64,
) -> bool {
    let (status, calls, tables) = parts_of(alloc, served);
    match tables {
        Some(tables) => {
            let succeeded = has_pool(&tables) && tasks.iter().all(|id| has_success(&tables, id));
            drop(tables);
            status == ServeStatus::Done && succeeded && counts.has_heard(calls, workers)
        }
        None => false,
    }
}

#[test]
fn a_task_that_is_added_over_http_is_run(rt: HostRuntime) -> Result<(), Fail> {
    let alloc = rt.alloc();
    let words = serve_words_of(alloc)?;
    let listener = listener(alloc, &[ADD_POOL_OF_1, ADD_JOB, ADD_TASK_T])?;
    let counts = Counts::new();
    let mut workers = [
        lane(1, spawner(rt, &counts, 1), clock(rt, &counts, 1)),
        timer(SureStopper::new(alloc), clock(rt, &counts, 1)),
        door(listener, clock(rt, &counts, 1)),
    ];
    let served = serve_empty(&rt, alloc, words.as_slice(), &counts, &mut workers);
    drop(workers);
    assert!(rt; is_done(alloc, served, &["t"], &counts, 3));
    Ok(())
}

/// Each of the two child programs waits until both have started, so that the other one runs meanwhile.
#[test]
fn the_child_programs_of_two_lanes_run_at_once(rt: HostRuntime) -> Result<(), Fail> {
    let alloc = rt.alloc();
    let words = serve_words_of(alloc)?;
    let listener = listener(alloc, &[ADD_POOL_OF_2, ADD_JOB, ADD_TASK_T, ADD_TASK_U])?;
    let counts = Counts::new();
    let mut workers = [
        lane(1, spawner(rt, &counts, 2), clock(rt, &counts, 2)),
        lane(2, spawner(rt, &counts, 2), clock(rt, &counts, 2)),
        timer(SureStopper::new(alloc), clock(rt, &counts, 2)),
        door(listener, clock(rt, &counts, 2)),
    ];
    let served = serve_empty(&rt, alloc, words.as_slice(), &counts, &mut workers);
    drop(workers);
    assert!(rt; is_done(alloc, served, &["t", "u"], &counts, 4));
    Ok(())
}
