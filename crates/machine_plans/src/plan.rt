//! Plans of none, one, two and three changes. A moment `now` is in milliseconds since 1970. The only error is out of memory.
ghost use Rattle.std.specs.Prelude.{◌≡◌, [], ◌∷◌, ◌++◌, IfOk};
ghost use Rattle.bt_rows.specs.Changes.{apply_change};
ghost use Rattle.bt_rows.specs.declared.reply.Reply.TheVariants.{Status, Step};
ghost use Rattle.batch_model.specs.Events.{accept, refuse};
ghost use Rattle.machine_plans.specs.Plans.{IsPlanOf, moved_to, with_moment};

use bt_base::{List, NoMemory};
use bt_rows::due::Due;
use bt_rows::plan::Plan;
use bt_rows::refusal::Refusal;
use bt_rows::reply::Reply;
use bt_rows::tables::{Change, Tables};
use std::alloc::Global;

/// The change of the last moment, if `now` is another.
pub fn moved(alloc: Global, tables: &Tables, now: u64) -> Result<Vec<Change>, NoMemory>
    ensures { IfOk result (λ changes. changes.items ≡ moved_to now tables.now.state) }
{
    if tables.moment() == now {
        Ok(Vec::new(alloc))
    } else {
        Ok(vec![in alloc; Change::Now(now)]?)
    }
}

/// The plan of a refusal, which changes the last moment alone.
pub fn refuse(alloc: Global, tables: &Tables, now: u64, refusal: Refusal) -> Result<Plan, NoMemory>
    ensures { IfOk result (IsPlanOf (refuse refusal (with_moment now tables.now.state)) tables.now.state) }
{
    let changes = moved(alloc, tables, now)?;
    Ok(Plan {
        reply: Reply::Refused(refusal),
        changes: List::of_vec(changes),
    })
}

/// The plan of a status, with no change but that of the last moment.
pub fn accept_none(alloc: Global, tables: &Tables, now: u64, status: u16) -> Result<Plan, NoMemory>
    ensures plan { IfOk result (IsPlanOf (accept status (with_moment now tables.now.state)) tables.now.state) }
    ensures changes { IfOk result (λ plan. plan.changes ≡ moved_to now tables.now.state) }
{
    let changes = moved(alloc, tables, now)?;
    Ok(Plan {
        reply: Reply::Status(status),
        changes: List::of_vec(changes),
    })
}

/// The plan of a status and of one change after that of the last moment.
pub fn accept_one(
    alloc: Global,
    tables: &Tables,
    now: u64,
    status: u16,
    change: Change,
) -> Result<Plan, NoMemory>
    ensures { IfOk result (IsPlanOf (record { reply = Status status; state = apply_change change (with_moment now tables.now.state) }) tables.now.state) }
{
    let mut changes = moved(alloc, tables, now)?;
    changes.push(change)?;
    Ok(Plan {
        reply: Reply::Status(status),
        changes: List::of_vec(changes),
    })
}

/// The change of the last moment, if `now` is another, and two after it.
fn moved_and_two(
    alloc: Global,
    tables: &Tables,
    now: u64,
    first: Change,
    second: Change,
) -> Result<Vec<Change>, NoMemory>
    ensures { IfOk result (λ changes. changes.items ≡ moved_to now tables.now.state ++ first ∷ second ∷ []) }
{
    if tables.moment() == now {
        Ok(vec![in alloc; first, second]?)
    } else {
        Ok(vec![in alloc; Change::Now(now), first, second]?)
    }
}

/// The plan of a status and of two changes after that of the last moment.
pub fn accept_two(
    alloc: Global,
    tables: &Tables,
    now: u64,
    status: u16,
    first: Change,
    second: Change,
) -> Result<Plan, NoMemory>
    ensures reply { IfOk result (λ plan. plan.reply ≡ Status status) }
    ensures changes { IfOk result (λ plan. plan.changes ≡ moved_to now tables.now.state ++ first ∷ second ∷ []) }
{
    let changes = moved_and_two(alloc, tables, now, first, second)?;
    Ok(Plan {
        reply: Reply::Status(status),
        changes: List::of_vec(changes),
    })
}

/// The plan of a due step of one change.
pub fn step_one(alloc: Global, due: Due, change: Change) -> Result<Plan, NoMemory>
    ensures reply { IfOk result (λ plan. plan.reply ≡ Step due) }
    ensures changes { IfOk result (λ plan. plan.changes ≡ change ∷ []) }
{
    let changes = vec![in alloc; change]?;
    Ok(Plan {
        reply: Reply::Step(due),
        changes: List::of_vec(changes),
    })
}

/// The plan of a due step of two changes.
pub fn step_two(alloc: Global, due: Due, first: Change, second: Change) -> Result<Plan, NoMemory>
    ensures reply { IfOk result (λ plan. plan.reply ≡ Step due) }
    ensures changes { IfOk result (λ plan. plan.changes ≡ first ∷ second ∷ []) }
{
    let changes = vec![in alloc; first, second]?;
    Ok(Plan {
        reply: Reply::Step(due),
        changes: List::of_vec(changes),
    })
}

/// The plan of a due step of three changes.
pub fn step_three(
    alloc: Global,
    due: Due,
    first: Change,
    second: Change,
    third: Change,
) -> Result<Plan, NoMemory>
    ensures reply { IfOk result (λ plan. plan.reply ≡ Step due) }
    ensures changes { IfOk result (λ plan. plan.changes ≡ first ∷ second ∷ third ∷ []) }
{
    let changes = vec![in alloc; first, second, third]?;
    Ok(Plan {
        reply: Reply::Step(due),
        changes: List::of_vec(changes),
    })
}
