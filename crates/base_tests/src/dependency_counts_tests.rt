//! The options of endings, and counts before and after calls.
ghost use Rattle.std.specs.Prelude.{◌≡◌, ◌<◌};

use bt_base::{CommandLine, Id, List, SharedList};
use bt_rows::limits::DEPENDENCY_RANGE_LIMIT;
use bt_rows::run::Ending;
use bt_rows::settings::{Settings, TaskSettings};
use bt_rows::task::{Given, JobAction, Options, TaskRow, TaskStage};
use dependency_counts::{CountKey, Counts, Steps, condition};
use std::alloc::Global;
use std::marker::Brand;
use std::sync::ledger::{Blank, Ledger};
use std::test::Fail;

/// A task of the job that depends on no other.
fn plain_task(alloc: Global, id: &str) -> Result<TaskRow, Fail> {
    Ok(TaskRow {
        job: Id::read(alloc, "render")?,
        id: Id::read(alloc, id)?,
        line: CommandLine::read(alloc, "true")?.ok_or("a command line")?,
        slots: 1,
        stage: TaskStage::Active,
        wanted: None,
        fail: None,
        settings: Settings::of(alloc, TaskSettings::plain())?,
        attempt: 0,
        failures: 0,
        started: None,
        closed: None,
    })
}

/// The options of which each is stated or absent.
fn given(job: Option<JobAction>, satisfies: Option<bool>) -> Given {
    Given { job, satisfies }
}

/// A task with two options for code 3, two ranges that overlap, and options for a launch error.
fn stating_task(alloc: Global) -> Result<TaskRow, Fail> {
    let disabling = given(Some(JobAction::Disable), None);
    let going_on = given(Some(JobAction::Nothing), Some(true));
    let satisfying = given(None, Some(true));
    let codes = vec![in alloc; (3, disabling), (3, going_on)]?;
    let ranges = vec![in alloc; (1, 5, going_on), (-2, 9, satisfying)]?;
    let mut settings = TaskSettings::plain();
    settings.codes = SharedList::of_list(alloc, List::of_vec(codes))?;
    settings.ranges = SharedList::of_list(alloc, List::of_vec(ranges))?;
    settings.launch = Some(given(Some(JobAction::Disable), Some(false)));
    let mut task = plain_task(alloc, "a")?;
    task.settings = Settings::of(alloc, settings)?;
    Ok(task)
}

/// Checks the options of an ending.
fn expect_options(
    task: &TaskRow,
    ending: Ending,
    job: JobAction,
    satisfies: bool,
) -> Result<(), Fail> {
    let found = condition(task, ending);
    if found != (Options { job, satisfies }) {
        return Err(Fail::new(format_args!("{ending:?} gives {found:?}")));
    }
    Ok(())
}

#[test]
fn the_first_stated_options_count(rt: HostRuntime) -> Result<(), Fail> {
    let task = stating_task(rt.alloc())?;
    let table = [
        (Ending::Code(3), JobAction::Disable, false),
        (Ending::Code(5), JobAction::Nothing, true),
        (Ending::Code(6), JobAction::Terminate, true),
        (Ending::Code(0), JobAction::Nothing, true),
        (Ending::Code(10), JobAction::Terminate, false),
        (Ending::NoCode, JobAction::Terminate, false),
        (Ending::NotStarted, JobAction::Disable, false),
    ];
    for (ending, job, satisfies) in table {
        expect_options(&task, ending, job, satisfies)?;
    }
    Ok(())
}

#[test]
fn other_endings_have_the_default(rt: HostRuntime) -> Result<(), Fail> {
    let mut settings = TaskSettings::plain();
    settings.other = Some(given(Some(JobAction::Disable), Some(true)));
    let mut task = plain_task(rt.alloc(), "a")?;
    task.settings = Settings::of(rt.alloc(), settings)?;
    let table = [
        (Ending::Code(0), JobAction::Nothing, true),
        (Ending::Code(-1), JobAction::Disable, true),
        (Ending::NoCode, JobAction::Disable, true),
        (Ending::NotStarted, JobAction::Disable, true),
    ];
    for (ending, job, satisfies) in table {
        expect_options(&task, ending, job, satisfies)?;
    }
    Ok(())
}

/// Adds a task.
fn add(counts: &mut Counts, task: &TaskRow) -> Result<CountKey, Fail> {
    if !counts.are_of_job(&task.job) {
        return Err(Fail::new("a task of another job"));
    }
    if counts.has_id(&task.id) {
        return Err(Fail::new("a task with the id of another"));
    }
    if task.settings.spans().len() > DEPENDENCY_RANGE_LIMIT {
        return Err(Fail::new("a task with too many ranges"));
    }
    Ok(counts.add_task(task)?)
}

/// Says whether a task satisfies.
fn set<L: Ledger>(
    counts: &mut Counts,
    key: CountKey,
    yes: bool,
    steps: &mut Steps<L>,
) -> Result<(), Fail> {
    if !counts.is_live(key) {
        return Err(Fail::new("a key that is not live"));
    }
    counts.set_satisfied(key, yes, steps);
    Ok(())
}

/// Removes a task.
fn remove(counts: &mut Counts, key: CountKey) -> Result<(), Fail> {
    if !counts.is_live(key) {
        return Err(Fail::new("a key that is not live"));
    }
    counts.remove_task(key);
    Ok(())
}

/// Checks what a task waits for.
fn expect_waiting(counts: &Counts, key: CountKey, wanted: u64) -> Result<(), Fail> {
    if !counts.is_live(key) {
        return Err(Fail::new("a key that is not live"));
    }
    let waiting = counts.waiting(key);
    if waiting != wanted || counts.is_ready(key) != (wanted == 0) {
        return Err(Fail::new(format_args!("it waits for {waiting}, not for {wanted}")));
    }
    Ok(())
}

/// Checks which task is the first ready one after another.
fn expect_first(
    counts: &Counts,
    after: Option<CountKey>,
    wanted: Option<CountKey>,
) -> Result<(), Fail> {
    if let Some(key) = after {
        if !counts.is_live(key) {
            return Err(Fail::new("a key that is not live"));
        }
    }
    let found = counts.first_ready_after(after);
    if found != wanted {
        return Err(Fail::new(format_args!("{found:?} is ready, not {wanted:?}")));
    }
    Ok(())
}

/// Adds a task that depends on no other.
fn add_plain(counts: &mut Counts, alloc: Global, id: &str) -> Result<CountKey, Fail> {
    let task = plain_task(alloc, id)?;
    add(counts, &task)
}

/// Adds a task that depends on a task with an id, and on those of ranges of numbers.
fn add_dependent(
    counts: &mut Counts,
    alloc: Global,
    id: &str,
    need: &str,
    spans: SharedList<(u32, u32)>,
) -> Result<CountKey, Fail> {
    let needs = vec![in alloc; Id::read(alloc, need)?]?;
    let mut settings = TaskSettings::plain();
    settings.needs = SharedList::of_list(alloc, List::of_vec(needs))?;
    settings.spans = spans;
    let mut task = plain_task(alloc, id)?;
    task.settings = Settings::of(alloc, settings)?;
    add(counts, &task)
}

/// Counts what x waits for, which depends on x2 and on the numbers 4 to 6, while `4` and `04` change.
fn count_numbers<L: Ledger>(alloc: Global, blank: Blank) -> Result<(), Fail>
    requires name { blank.name ≡ L.name }
    requires parts { blank.parts ≡ L.parts }
    requires some { 0 < blank.parts }
{
    let mut steps = Steps::<L>::open(blank);
    let mut counts = Counts::new(alloc);
    let four = add_plain(&mut counts, alloc, "4")?;
    let other_four = add_plain(&mut counts, alloc, "04")?;
    let spans = SharedList::of_list(alloc, List::of_vec(vec![in alloc; (4, 6)]?))?;
    let x = add_dependent(&mut counts, alloc, "x", "x2", spans)?;
    expect_waiting(&counts, x, 4)?;
    let table = [
        (four, true, 3),
        (other_four, true, 3),
        (four, false, 3),
        (other_four, false, 4),
    ];
    for (key, yes, wanted) in table {
        set(&mut counts, key, yes, &mut steps)?;
        expect_waiting(&counts, x, wanted)?;
    }
    Ok(())
}

#[test]
fn two_tasks_may_have_one_number(rt: HostRuntime) -> Result<(), Fail> {
    count_numbers::<Brand>(rt.alloc(), Blank::new(1))
}

/// Looks for ready tasks, while `A`, which b depends on, satisfies and is removed.
fn find_ready<L: Ledger>(alloc: Global, blank: Blank) -> Result<(), Fail>
    requires name { blank.name ≡ L.name }
    requires parts { blank.parts ≡ L.parts }
    requires some { 0 < blank.parts }
{
    let mut steps = Steps::<L>::open(blank);
    let mut counts = Counts::new(alloc);
    let b = add_dependent(&mut counts, alloc, "b", "a", SharedList::empty())?;
    let a = add_plain(&mut counts, alloc, "A")?;
    let c = add_plain(&mut counts, alloc, "c")?;
    let table = [(None, Some(a)), (Some(a), Some(c)), (Some(c), None)];
    for (after, wanted) in table {
        expect_first(&counts, after, wanted)?;
    }
    set(&mut counts, a, true, &mut steps)?;
    expect_first(&counts, None, Some(b))?;
    remove(&mut counts, a)?;
    expect_waiting(&counts, b, 1)?;
    expect_first(&counts, None, Some(c))
}

#[test]
fn ready_tasks_are_found_in_the_order_of_adding(rt: HostRuntime) -> Result<(), Fail> {
    find_ready::<Brand>(rt.alloc(), Blank::new(1))
}
