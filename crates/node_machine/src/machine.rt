//! The calls of the machine.
ghost use Rattle.std.specs.Prelude.{◌≡◌, ◌≤◌, true, IfOk};
ghost use Rattle.bt_rows.specs.declared.event.EventKind.TheVariants.{Tick};
ghost use Rattle.batch_model.specs.Dues.{node_step};
ghost use Rattle.batch_model.specs.Events.{accept, event_now};
ghost use Rattle.batch_model.specs.Sound.{IsSound, NumbersAreNew};
ghost use Rattle.batch_model.specs.WellFormed.{KeysAreDistinct};
ghost use Rattle.machine_plans.specs.Plans.{IsAnswer, IsRule, moved_to, with_moment};
ghost use Rattle.node_machine.specs.Owners.{is_of_nodes};

use crate::adding::add_node;
use crate::dropping::drop_first;
use crate::ending::end_start;
use crate::taking::take_run;
use bt_base::{Fail, NoMemory};
use bt_rows::event::{Event, EventKind};
use bt_rows::plan::{Plan, View};
use bt_rows::refusal::Refusal;
use bt_rows::tables::Tables;
use machine_index::IndexedTables;
use machine_plans::accept_none;
use pool_samples::sample_pool;
use std::alloc::Global;

/// The answer to `tick`: the moment moves, and nothing else changes.
fn tick(alloc: Global, tables: &Tables, now: u64) -> Result<Plan, Fail<Refusal>>
    ensures answer { IsAnswer now (accept 200 (with_moment now tables.now.state)) tables.now.state result }
    ensures changes { IfOk result (λ plan. plan.changes ≡ moved_to now tables.now.state) }
{
    Ok(accept_none(alloc, tables, now, 200)?)
}

/// The answer to an event of nodes at the view's moment: `take`, `end` of a start run, `sample`, and `tick`. Refusals come in the order
/// in which they are listed here:
///
/// - `take`: `RunNotFound`, `RunAlreadyEnded`, `RunWithdrawn`, `RunAlreadyTaken`, `RunWaiting`;
/// - `end` of a run that is there: `RunAlreadyEnded`, `RunWithdrawn`, `RunNotTaken`;
/// - `sample`: `PoolNotFound`, and `SampleTooOld` if the newest sample of the processors has the label of the moment or a later one;
/// - `tick` is never refused, and changes the last moment alone.
///
/// The only other error is out of memory.
pub fn plan_event(alloc: Global, view: &View, event: &Event) -> Result<Plan, Fail<Refusal>>
    requires own { is_of_nodes view.now.tables.now.state event.now ≡ true }
    requires sound { IsSound view.now.seats view.now.tables.now.state }
    ensures answer { IsAnswer view.entry.now.now (event_now event.now (with_moment view.entry.now.now view.entry.now.tables.now.state)) view.entry.now.tables.now.state result }
    ensures tick { event.now ≡ Tick → IfOk result (λ plan. plan.changes ≡ moved_to view.entry.now.now view.entry.now.tables.now.state) }
{
    match event.kind() {
        EventKind::Take(number) => take_run(alloc, view.tables, view.now, *number),
        EventKind::End(number, ending) => end_start(alloc, view, *number, *ending),
        EventKind::Sample(pool, percentage) => {
            sample_pool(alloc, view.tables, view.now, pool, *percentage)
        }
        EventKind::Tick => tick(alloc, view.tables, view.now),
        _ => unreachable!(),
    }
}

/// The plan of the first due step of nodes; None exactly if no rule of theirs applies. In this order: a leaving node that has nothing to
/// wait for is dropped (U14), and a pool that has fewer nodes than its target gets one on the lowest free seat, which begins the pool's
/// start task (U15). The only error is out of memory.
pub fn next_due(alloc: Global, indexed: &IndexedTables, seats: u8) -> Result<Option<Plan>, NoMemory>
    requires keys { KeysAreDistinct indexed.now.state }
    requires numbers { NumbersAreNew indexed.now.state }
    requires few { seats ≤ 32 }
    ensures { IfOk result (IsRule (node_step seats indexed.now.state) indexed.now.state) }
{
    if let Some(plan) = drop_first(alloc, indexed)? {
        return Ok(Some(plan));
    }
    add_node(alloc, indexed.tables(), seats)
}
