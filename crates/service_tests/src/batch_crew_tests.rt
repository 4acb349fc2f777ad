//! Tests of what no clause says: that a lane runs a child program and tells its ending, and that a timer ticks and has a child program
//! stopped, while memory is ample. What is expected follows by hand from the rules of pools, jobs and tasks.
ghost use Rattle.std.specs.Prelude.{IfOk};
ghost use Rattle.counted_lock.specs.Passes.{IsPassOf};

use batch_crew::{LaneEnd, run_lane, run_timer};
use batch_desk::{Answer, Desk, Entries, Journal};
use batch_keeper::{Keeper, SureKeeper};
use bt_base::{CommandLine, Id, Moment, Shared, Word};
use bt_clock::ListClock;
use bt_rows::event::{Event, EventKind, JobSpec, PoolSpec, TaskSpec};
use bt_rows::pool::Fill;
use bt_rows::reply::Reply;
use bt_rows::run::Ending;
use bt_rows::settings::{Settings, TaskSettings};
use bt_rows::tables::Tables;
use bt_rows::task::{How, TaskRow};
use child_runs::{ChildEnding, ChildRun, Ran, SureSpawner, SureStopper};
use shared_desk::{NoMonitor, Pass, SharedDesk};
use std::alloc::Global;
use std::sync::Wait;
use std::test::Fail;

fn id(alloc: Global, text: &str) -> Result<Id, Fail> {
    Ok(Id::read(alloc, text)?)
}

fn moment(ms: u64) -> Result<Moment, Fail> {
    Ok(Moment::of_ms(ms).ok_or("no moment")?)
}

/// A pool p of one node.
fn pool_added(alloc: Global) -> Result<Event, Fail> {
    let spec = PoolSpec {
        id: id(alloc, "p")?,
        dedicated: 1,
        low: 0,
        slots: 1,
        fill: Fill::Spread,
        inter: false,
        timeout: 900_000,
        start: None,
        scale: None,
    };
    Ok(Event::new(EventKind::AddPool(Shared::new(alloc, spec)?)))
}

/// A job j on the pool p.
fn job_added(alloc: Global) -> Result<Event, Fail> {
    let job = id(alloc, "j")?;
    let pool = id(alloc, "p")?;
    let spec = JobSpec {
        pool,
        priority: 0,
        parallel: -1,
        retries: 0,
        wall: None,
        deps: false,
        on_all: false,
        on_fail: false,
        prep: None,
        release: None,
    };
    Ok(Event::new(EventKind::AddJob(job, Shared::new(alloc, spec)?)))
}

/// Adds a task to the job with the first id, which is not tried again, and may run for one minute.
fn task_event(alloc: Global, job: Id, id: Id, line: CommandLine) -> Result<Event, Fail> {
    let mut settings = TaskSettings::plain();
    settings.retries = Some(0);
    settings.wall = Some(60_000);
    let spec = TaskSpec {
        id,
        line,
        slots: 1,
        settings: Settings::of(alloc, settings)?,
    };
    Ok(Event::new(EventKind::AddTask(job, Shared::new(alloc, spec)?)))
}

/// A task t of the job j, with the command line w.
fn task_added(alloc: Global) -> Result<Event, Fail> {
    let job = id(alloc, "j")?;
    let task = id(alloc, "t")?;
    let line = CommandLine::read(alloc, "w")?.ok_or("no command line")?;
    task_event(alloc, job, task, line)
}

/// A desk of empty tables and one seat.
fn empty_desk(alloc: Global) -> Result<Desk<SureKeeper>, Fail> {
    let keeper = SureKeeper::new(Tables::empty(alloc));
    match Desk::open(alloc, keeper, 1, 100) {
        Ok(desk) => Ok(desk),
        Err((keeper, _error)) => {
            drop(keeper);
            Err("memory is ample".into())
        }
    }
}

/// The desk, shared, with its first pass.
fn share(
    alloc: Global,
    desk: Desk<SureKeeper>,
) -> Result<(SharedDesk<SureKeeper, NoMonitor>, Pass), Fail>
    ensures { IfOk result (λ r. IsPassOf r.0 r.1) }
{
    match SharedDesk::open(alloc, desk, NoMonitor) {
        Ok(shared) => Ok(shared),
        Err(desk) => {
            drop(desk);
            Err("memory is ample".into())
        }
    }
}

/// Whether the call was made, and not refused.
fn is_accepted(answer: &Answer) -> bool {
    match answer {
        Answer::Done { reply, .. } => !matches!(reply, Reply::Refused(_)),
        Answer::KeeperFault => false,
        Answer::JournalFull => false,
        Answer::Memory => false,
    }
}

/// Makes a call, which is not to be refused.
fn ask<R: Wait>(
    rt: &R,
    alloc: Global,
    desk: &SharedDesk<SureKeeper, NoMonitor>,
    pass: &mut Pass,
    moment: Moment,
    event: Event,
) -> Result<(), Fail>
    requires { IsPassOf desk.now pass.old }
    ensures { IsPassOf desk.now pass.new }
{
    let answer = desk.ask(rt, alloc, pass, moment, event);
    let accepted = is_accepted(&answer);
    drop(answer);
    if accepted {
        Ok(())
    } else {
        Err("a call is refused".into())
    }
}

/// Adds the pool, the job and the task.
fn add_all<R: Wait>(
    rt: &R,
    alloc: Global,
    desk: &SharedDesk<SureKeeper, NoMonitor>,
    pass: &mut Pass,
) -> Result<(), Fail>
    requires { IsPassOf desk.now pass.old }
    ensures { IsPassOf desk.now pass.new }
{
    let start = moment(0)?;
    ask(rt, alloc, desk, pass, start, pool_added(alloc)?)?;
    ask(rt, alloc, desk, pass, start, job_added(alloc)?)?;
    ask(rt, alloc, desk, pass, start, task_added(alloc)?)
}

/// A desk with the pool, the job and the task.
fn filled_desk<R: Wait>(
    rt: &R,
    alloc: Global,
) -> Result<(SharedDesk<SureKeeper, NoMonitor>, Pass), Fail>
    ensures { IfOk result (λ r. IsPassOf r.0 r.1) }
{
    let (desk, mut pass) = share(alloc, empty_desk(alloc)?)?;
    match add_all(rt, alloc, &desk, &mut pass) {
        Ok(()) => Ok((desk, pass)),
        Err(fail) => {
            drop(desk);
            drop(pass);
            Err(fail)
        }
    }
}

/// Closes the desk with its only pass.
fn close(
    alloc: Global,
    desk: SharedDesk<SureKeeper, NoMonitor>,
    pass: Pass,
) -> Result<(SureKeeper, Journal), Fail>
    requires { IsPassOf desk pass }
{
    let mut passes = Vec::new(alloc);
    if passes.push(pass).is_err() {
        drop(desk);
        return Err("memory is ample".into());
    }
    match desk.close(passes) {
        Ok(closed) => Ok(closed),
        Err(out) => {
            drop(out);
            Err("the desk is not closed".into())
        }
    }
}

/// Whether the run 1 was run once, by the word w.
fn has_run_once(runs: &[ChildRun]) -> bool {
    runs.len() == 1 && is_run(&runs[0])
}

/// Whether it is the run 1 by the word w, and ended with code 4.
fn is_run(run: &ChildRun) -> bool {
    let words = run.words.as_slice();
    run.number == 1
        && run.how == Ran::Ended(ChildEnding::Code(4))
        && words.len() == 1
        && words[0].is("w")
}

/// Whether the call at this place takes the run 1.
fn is_take(entries: &Entries, at: usize) -> bool {
    match entries.get(at) {
        Some(entry) => matches!(entry.event.kind(), EventKind::Take(1)),
        None => false,
    }
}

/// Whether the call at this place tells that the run 1 ended with code 4.
fn is_end(entries: &Entries, at: usize) -> bool {
    match entries.get(at) {
        Some(entry) => matches!(entry.event.kind(), EventKind::End(1, Ending::Code(4))),
        None => false,
    }
}

/// Whether these are three calls, and then one take and one ending.
fn takes_and_ends(entries: &Entries) -> bool {
    entries.len() == 5 && is_take(entries, 3) && is_end(entries, 4)
}

/// Whether the task was completed by an ending with code 4, which is a failure.
fn is_failure(task: &TaskRow) -> bool {
    match task.closed {
        Some(closed) => closed.how == How::Ended(Ending::Code(4)) && !closed.success,
        None => false,
    }
}

/// Whether a task of the tables failed.
fn has_failure(tables: &Tables) -> bool {
    for task in tables.tasks() {
        if is_failure(task) {
            return true;
        }
    }
    false
}

/// Whether a task of the keeper's tables failed.
fn keeps_failure(alloc: Global, keeper: SureKeeper) -> bool {
    let mut keeper = keeper;
    let loaded = keeper.load(alloc);
    drop(keeper);
    match loaded {
        Ok(tables) => {
            let fails = has_failure(&tables);
            drop(tables);
            fails
        }
        Err(_error) => false,
    }
}

/// Whether the journal of the desk has a take and an ending, and its keeper a failed task.
fn shows_the_run(
    alloc: Global,
    desk: SharedDesk<SureKeeper, NoMonitor>,
    pass: Pass,
) -> Result<bool, Fail>
    requires { IsPassOf desk pass }
{
    let (keeper, journal) = close(alloc, desk, pass)?;
    let told = takes_and_ends(&journal.entries);
    drop(journal);
    Ok(keeps_failure(alloc, keeper) && told)
}

#[test]
fn a_lane_runs_a_child_and_tells_its_ending(rt: HostRuntime) -> Result<(), Fail> {
    let alloc = rt.alloc();
    let endings = [(1, ChildEnding::Code(4))].to_vec(alloc)?;
    let mut spawner = SureSpawner::new(alloc, endings);
    let mut clock = ListClock::new(Vec::new(alloc), 0);
    let (desk, pass) = filled_desk(&rt, alloc)?;
    let (pass, end) = run_lane(&rt, alloc, &desk, pass, 1, &mut spawner, &mut clock);
    let shown = shows_the_run(alloc, desk, pass)?;
    assert_eq!(rt; end, LaneEnd::Ended);
    assert!(rt; has_run_once(spawner.runs()));
    assert!(rt; shown);
    Ok(())
}

/// Whether the call at this place is a tick after which one due step was made.
fn is_tick(entries: &Entries, at: usize) -> bool {
    match entries.get(at) {
        Some(entry) => matches!(entry.event.kind(), EventKind::Tick) && entry.dues == 1,
        None => false,
    }
}

/// Whether the journal of the desk has four calls, and then one tick.
fn shows_the_tick(
    alloc: Global,
    desk: SharedDesk<SureKeeper, NoMonitor>,
    pass: Pass,
) -> Result<bool, Fail>
    requires { IsPassOf desk pass }
{
    let (keeper, journal) = close(alloc, desk, pass)?;
    drop(keeper);
    let ticks = journal.entries.len() == 5 && is_tick(&journal.entries, 4);
    drop(journal);
    Ok(ticks)
}

/// A desk of which the run 1 was taken after a second.
fn taken_desk<R: Wait>(
    rt: &R,
    alloc: Global,
) -> Result<(SharedDesk<SureKeeper, NoMonitor>, Pass), Fail>
    ensures { IfOk result (λ r. IsPassOf r.0 r.1) }
{
    let later = moment(1000)?;
    let (desk, mut pass) = filled_desk(rt, alloc)?;
    let event = Event::new(EventKind::Take(1));
    match ask(rt, alloc, &desk, &mut pass, later, event) {
        Ok(()) => Ok((desk, pass)),
        Err(fail) => {
            drop(desk);
            drop(pass);
            Err(fail)
        }
    }
}

#[test]
fn a_timer_ticks_and_stops_a_child(rt: HostRuntime) -> Result<(), Fail> {
    let alloc = rt.alloc();
    let moments = [moment(61_000)?].to_vec(alloc)?;
    let mut clock = ListClock::new(moments, 0);
    let mut stopper = SureStopper::new(alloc);
    let (desk, pass) = taken_desk(&rt, alloc)?;
    let (pass, end) = run_timer(&rt, alloc, &desk, pass, &mut stopper, &mut clock);
    let shown = shows_the_tick(alloc, desk, pass)?;
    let numbers = stopper.into_numbers().ok_or("memory is ample")?;
    assert_eq!(rt; end, LaneEnd::Ended);
    assert!(rt; shown);
    assert_eq!(rt; numbers.as_slice(), [1].as_slice());
    Ok(())
}
