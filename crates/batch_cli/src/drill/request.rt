//! The events of a drill.
ghost use Rattle.std.specs.Prelude.{◌≡◌, IfOk, None};
ghost use Rattle.std.specs.Fmt.{decimal};
ghost use Rattle.bt_base.specs.Ids.{id_fault};
ghost use Rattle.bt_rows.specs.declared.event.EventKind.TheVariants.{AddPool, AddJob, AddTask, Take, End};
ghost use Rattle.bt_rows.specs.declared.run.Ending.TheVariants.{Code};
ghost use Rattle.batch_cli.specs.Drill.{drill_id, drill_line, pool_spec, job_spec, task_spec, needs_of, spans_of, exit_code_of};

use crate::drill::limits::{DRILL_ID, DRILL_NODES, DRILL_SLOTS};
use bt_base::{CommandLine, Fail, Id, List, NoMemory, Shared, SharedList};
use bt_rows::event::{Event, EventKind, JobSpec, PoolSpec, TaskSpec};
use bt_rows::limits::DEFAULT_RESIZE_TIMEOUT;
use bt_rows::pool::Fill;
use bt_rows::run::Ending;
use bt_rows::settings::{Settings, TaskSettings};
use std::alloc::Global;

/// The id that a text is known to be. It fails only when out of memory.
#[tactic(auto, unfolding(bt_base::specs::Ids::read_id))]
fn known_id(alloc: Global, text: &str) -> Result<Id, NoMemory>
    requires { id_fault text.now ≡ None }
    ensures { IfOk result (λ id. id ≡ text.now) }
{
    match Id::read(alloc, text) {
        Ok(id) => Ok(id),
        Err(Fail::Memory) => Err(NoMemory),
        Err(Fail::Why(_)) => unreachable!(),
    }
}

/// The id of the pool and of the job of a drill.
#[tactic(auto, unfolding(crate::specs::Drill::drill_id))]
pub fn drill_id(alloc: Global) -> Result<Id, NoMemory>
    ensures { IfOk result (λ id. id ≡ drill_id) }
{
    known_id(alloc, DRILL_ID)
}

/// The id of the task with this number.
#[tactic(auto, using(crate::proofs::DrillIds::decimal_is_id))]
fn task_id(alloc: Global, number: u32) -> Result<Id, NoMemory>
    ensures { IfOk result (λ id. id ≡ decimal number) }
{
    let text = format!(in alloc; "{number}")?;
    known_id(alloc, text.as_str())
}

/// The command line of each task of a drill.
#[tactic(auto, unfolding(crate::specs::Drill::drill_line, bt_base::specs::CommandLines::is_command_line, bt_base::specs::CommandLines::read_words))]
fn drill_line(alloc: Global) -> Result<CommandLine, NoMemory>
    ensures { IfOk result (λ line. line ≡ drill_line) }
{
    match CommandLine::read(alloc, "w")? {
        Some(line) => Ok(line),
        None => unreachable!(),
    }
}

/// The event that adds the pool of a drill.
pub fn add_pool(alloc: Global) -> Result<Event, NoMemory>
    ensures { IfOk result (λ event. event ≡ AddPool pool_spec) }
{
    let id = drill_id(alloc)?;
    let spec = PoolSpec {
        id,
        dedicated: DRILL_NODES,
        low: 0,
        slots: DRILL_SLOTS,
        fill: Fill::Spread,
        inter: false,
        timeout: DEFAULT_RESIZE_TIMEOUT,
        start: None,
        scale: None,
    };
    Ok(Event::new(EventKind::AddPool(Shared::new(alloc, spec)?)))
}

/// The event that adds the job of a drill.
pub fn add_job(alloc: Global) -> Result<Event, NoMemory>
    ensures { IfOk result (λ event. event ≡ AddJob drill_id job_spec) }
{
    let id = drill_id(alloc)?;
    let pool = drill_id(alloc)?;
    let spec = JobSpec {
        pool,
        priority: 0,
        parallel: -1,
        retries: 1,
        wall: None,
        deps: true,
        on_all: false,
        on_fail: false,
        prep: None,
        release: None,
    };
    Ok(Event::new(EventKind::AddJob(id, Shared::new(alloc, spec)?)))
}

/// The ids that the task with this number and this second draw depends on.
fn needs_of(alloc: Global, number: u32, draw: u32) -> Result<SharedList<Id>, NoMemory>
    ensures { IfOk result (λ needs. needs ≡ needs_of number draw) }
{
    if number > 1 && draw % 4 == 0 {
        let id = task_id(alloc, 1 + draw % (number - 1))?;
        let ids = vec![in alloc; id]?;
        let needs = SharedList::of_list(alloc, List::of_vec(ids))?;
        Ok(needs)
    } else {
        Ok(SharedList::empty())
    }
}

/// The range of numbers that the task with this number and this second draw depends on.
fn spans_of(alloc: Global, number: u32, draw: u32) -> Result<SharedList<(u32, u32)>, NoMemory>
    ensures { IfOk result (λ spans. spans ≡ spans_of number draw) }
{
    if number > 1 && draw % 4 == 1 {
        let first = number.saturating_sub(3).max(1);
        let ranges = vec![in alloc; (first, number - 1)]?;
        let spans = SharedList::of_list(alloc, List::of_vec(ranges))?;
        Ok(spans)
    } else {
        Ok(SharedList::empty())
    }
}

/// The task with this number and these two draws.
fn task_spec(alloc: Global, number: u32, first: u32, second: u32) -> Result<TaskSpec, NoMemory>
    ensures { IfOk result (λ spec. spec ≡ task_spec number first second) }
{
    let id = task_id(alloc, number)?;
    let line = drill_line(alloc)?;
    let needs = needs_of(alloc, number, second)?;
    let spans = spans_of(alloc, number, second)?;
    let settings = TaskSettings {
        codes: SharedList::empty(),
        ranges: SharedList::empty(),
        needs,
        spans,
        multi: None,
        ..TaskSettings::plain()
    };
    Ok(TaskSpec {
        id,
        line,
        slots: (1 + first % 2) as u8,
        settings: Settings::of(alloc, settings)?,
    })
}

/// The event that adds the task with this number and these two draws to the job of a drill.
pub fn add_task(alloc: Global, number: u32, first: u32, second: u32) -> Result<Event, NoMemory>
    ensures { IfOk result (λ event. event ≡ AddTask drill_id (task_spec number first second)) }
{
    let job = drill_id(alloc)?;
    let spec = task_spec(alloc, number, first, second)?;
    Ok(Event::new(EventKind::AddTask(job, Shared::new(alloc, spec)?)))
}

/// The event that takes the run with this number.
pub fn take(run: u64) -> Event
    ensures { result ≡ Take run }
{
    Event::new(EventKind::Take(run))
}

/// The event that ends the run with this number at this draw.
pub fn end(run: u64, draw: u32) -> Event
    ensures { result ≡ End run (Code (exit_code_of draw)) }
{
    let code = if draw % 5 == 0 { 1 } else { 0 };
    Event::new(EventKind::End(run, Ending::Code(code)))
}
