//! Plans of a list of changes.
ghost use Rattle.std.specs.Prelude.{◌≡◌, ◌++◌, IfOk};
ghost use Rattle.bt_rows.specs.Changes.{apply_changes};
ghost use Rattle.batch_model.specs.Events.{accept};
ghost use Rattle.machine_plans.specs.Plans.{IsPlanOf, moved_to, with_moment};

use crate::plan::moved;
use bt_base::{List, NoMemory};
use bt_rows::plan::Plan;
use bt_rows::reply::Reply;
use bt_rows::tables::{Change, Tables};
use std::alloc::Global;

/// The change of the last moment, if `now` is another, and these after it.
fn moved_and(
    alloc: Global,
    tables: &Tables,
    now: u64,
    changes: Vec<Change>,
) -> Result<Vec<Change>, NoMemory>
    ensures { IfOk result (λ all. all.items ≡ moved_to now tables.now.state ++ changes.items) }
{
    let mut changes = changes;
    let mut all = moved(alloc, tables, now)?;
    all.append(&mut changes)?;
    Ok(all)
}

/// The plan of a reply and of a list of changes after that of the last moment. `now` is in milliseconds since 1970.
pub fn reply_listed(
    alloc: Global,
    tables: &Tables,
    now: u64,
    reply: Reply,
    changes: Vec<Change>,
) -> Result<Plan, NoMemory>
    ensures reply { IfOk result (λ plan. plan.reply ≡ reply) }
    ensures changes { IfOk result (λ plan. plan.changes ≡ moved_to now tables.now.state ++ changes.items) }
{
    let all = moved_and(alloc, tables, now, changes)?;
    Ok(Plan {
        reply,
        changes: List::of_vec(all),
    })
}

/// The plan of a status and of these changes after that of the last moment.
pub fn accept_listed(
    alloc: Global,
    tables: &Tables,
    now: u64,
    status: u16,
    changes: Vec<Change>,
) -> Result<Plan, NoMemory>
    ensures { IfOk result (IsPlanOf (accept status (apply_changes changes.items (with_moment now tables.now.state))) tables.now.state) }
{
    reply_listed(alloc, tables, now, Reply::Status(status), changes)
}
