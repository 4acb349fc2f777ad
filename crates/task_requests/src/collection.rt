//! Collections of tasks.
ghost use Rattle.std.specs.Prelude.{◌≡◌, ℕ, [], ◌∷◌, ◌++◌, map, IfOk, OnOk};
ghost use Rattle.bt_rows.specs.declared.refusal.Refusal.TheVariants.{JobNotFound};
ghost use Rattle.bt_rows.specs.declared.tables.Change.TheVariants.{PutTask};
ghost use Rattle.batch_model.specs.Events.{accept_all, add_each, add_tasks, element_of, for_row};
ghost use Rattle.batch_model.specs.Rows.{job_of};
ghost use Rattle.machine_plans.specs.Plans.{IsAnswer, IsPlanOf, with_moment};
ghost use Rattle.task_requests.specs.Collections.{IsAnswered, added_by, refusal_beside};

use crate::task::{new_task, task_refusal};
use bt_base::{Duplicate, Fail, Id, List, NoMemory, Shared};
use bt_rows::event::TaskSpec;
use bt_rows::job::JobRow;
use bt_rows::limits::COLLECTION_LIMIT;
use bt_rows::plan::Plan;
use bt_rows::refusal::Refusal;
use bt_rows::reply::{Element, Reply};
use bt_rows::tables::{Change, Tables};
use bt_rows::task::TaskRow;
use machine_plans::reply_listed;
use std::alloc::Global;
use table_scans::is_past;

/// The answers to the elements so far, and the tasks that are added by them.
#[derive(Drop)]
struct Collected {
    elements: Vec<Element>,
    tasks: Vec<Shared<TaskRow>>,
}

/// The answer to an element, from why it is refused, if it is.
fn element_of(spec: &TaskSpec, refusal: Option<Refusal>) -> Result<Element, NoMemory>
    ensures { IfOk result (λ element. element ≡ element_of spec.now refusal) }
{
    let id = spec.id.copy()?;
    match refusal {
        None => Ok(Element::Added(id)),
        Some(refusal) => Ok(Element::NotAdded(id, refusal)),
    }
}

/// Adds the task of an element, if the element is not refused.
fn add_unless(
    tasks: &mut Vec<Shared<TaskRow>>,
    job: &JobRow,
    spec: &TaskSpec,
    refusal: Option<Refusal>,
) -> Result<(), NoMemory>
    ensures { OnOk result (tasks.new.items ≡ tasks.old.items ++ added_by job.now spec.now refusal) }
{
    if refusal.is_none() {
        let alloc = *tasks.allocator();
        tasks.push(Shared::new(alloc, new_task(&job.id, spec)?)?)?;
    }
    Ok(())
}

/// Answers one element as if it came alone after those before it.
fn add_element(
    collected: &mut Collected,
    tables: &Tables,
    job: &JobRow,
    spec: &TaskSpec,
) -> Result<(), NoMemory>
    ensures elements { OnOk result (collected.new.elements.items ≡ collected.old.elements.items ++ element_of spec.now (refusal_beside collected.old.tasks.items tables.now.state job.now spec.now) ∷ []) }
    ensures tasks { OnOk result (collected.new.tasks.items ≡ collected.old.tasks.items ++ added_by job.now spec.now (refusal_beside collected.old.tasks.items tables.now.state job.now spec.now)) }
{
    let refusal = task_refusal(tables, collected.tasks.as_slice(), job, spec);
    collected.elements.push(element_of(spec, refusal)?)?;
    add_unless(&mut collected.tasks, job, spec, refusal)
}

/// Answers the elements in their order.
fn collect(
    alloc: Global,
    tables: &Tables,
    job: &JobRow,
    specs: &[TaskSpec],
) -> Result<Collected, NoMemory>
    ensures { IfOk result (λ collected. (now : ℕ) → IsAnswered (with_moment now tables.now.state) job.now specs.now collected.elements.items collected.tasks.items) }
{
    let mut collected = Collected {
        elements: Vec::new(alloc),
        tasks: Vec::new(alloc),
    };
    for spec in specs {
        add_element(&mut collected, tables, job, spec)?;
    }
    Ok(collected)
}

/// The puts of new tasks.
fn puts(alloc: Global, tasks: Vec<Shared<TaskRow>>) -> Result<Vec<Change>, NoMemory>
    ensures { IfOk result (λ changes. changes.items ≡ map PutTask tasks.items) }
{
    Ok(tasks.into_iter().map(Change::PutTask).collect(alloc)?)
}

/// The plan that answers each element, and adds the tasks of those that are not refused.
fn put_collected(
    alloc: Global,
    tables: &Tables,
    now: u64,
    job: &JobRow,
    specs: &[TaskSpec],
) -> Result<Plan, NoMemory>
    ensures { IfOk result (IsPlanOf (accept_all (add_each (with_moment now tables.now.state) job.now specs.now)) tables.now.state) }
{
    let Collected { elements, tasks } = collect(alloc, tables, job, specs)?;
    let changes = puts(alloc, tasks)?;
    let reply = Reply::Elements(List::of_vec(elements));
    reply_listed(alloc, tables, now, reply, changes)
}

/// The answer to `add-tasks` to the job that was found.
fn add_tasks_to(
    alloc: Global,
    tables: &Tables,
    now: u64,
    specs: &[TaskSpec],
    job: &JobRow,
) -> Result<Plan, Fail<Refusal>>
    ensures { IsAnswer now (add_tasks (with_moment now tables.now.state) specs.now job.now) tables.now.state result }
{
    if is_past(job.state) {
        return Err(Fail::Why(Refusal::JobStateRefuses(job.state)));
    }
    if specs.len() > COLLECTION_LIMIT {
        return Err(Fail::Why(Refusal::CollectionTooLong));
    }
    Ok(put_collected(alloc, tables, now, job, specs)?)
}

/// The answer to `add-tasks`.
pub fn add_tasks(
    alloc: Global,
    tables: &Tables,
    now: u64,
    job: &Id,
    specs: &[TaskSpec],
) -> Result<Plan, Fail<Refusal>>
    ensures { IsAnswer now (for_row (with_moment now tables.now.state) JobNotFound (add_tasks (with_moment now tables.now.state) specs.now) (job_of (with_moment now tables.now.state) job.now)) tables.now.state result }
{
    match tables.find_job(job) {
        Some(job) => add_tasks_to(alloc, tables, now, specs, job),
        None => Err(Fail::Why(Refusal::JobNotFound)),
    }
}
