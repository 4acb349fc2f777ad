//! What an event does.
ghost use Rattle.std.specs.Prelude.{◌≡◌, ◌≤◌, true, max, IfOk};
ghost use Rattle.bt_base.specs.Moments.{last_moment};
ghost use Rattle.bt_rows.specs.declared.event.EventKind.TheVariants.{Tick};
ghost use Rattle.bt_rows.specs.Ranges.{is_event_in_range};
ghost use Rattle.batch_model.specs.Events.{event_now, event_step};
ghost use Rattle.batch_model.specs.Sound.{IsSound};
ghost use Rattle.machine_plans.specs.Plans.{IsAnswer, IsPlanOf, moved_to, with_moment};

use bt_base::{Fail, NoMemory};
use bt_rows::event::{Event, EventKind};
use bt_rows::plan::{Plan, View};
use bt_rows::refusal::Refusal;
use bt_rows::tables::Tables;
use machine_index::IndexedTables;
use machine_plans::or_refused;
use std::alloc::Global;
use table_scans::is_start_number;

/// The answer of the machine that owns the event, at `now`. The end of a start run is an event of nodes, that of another run one of jobs.
#[tactic(auto, using(pool_samples::proofs::SoundSamples::can_sample))]
fn answer_event(
    alloc: Global,
    indexed: &IndexedTables,
    seats: u8,
    now: u64,
    event: &Event,
) -> Result<Plan, Fail<Refusal>>
    requires sound { IsSound seats indexed.now.state }
    requires moment { now ≤ last_moment }
    ensures answer { IsAnswer now (event_now event.now (with_moment now indexed.now.state)) indexed.now.state result }
    ensures tick { event.now ≡ Tick → IfOk result (λ plan. plan.changes ≡ moved_to now indexed.now.state) }
    ensures ranges { is_event_in_range event.now ≡ true }
{
    let view = View {
        tables: indexed.tables(),
        seats,
        now,
    };
    match event.kind() {
        EventKind::AddPool(_)
        | EventKind::DeletePool(_)
        | EventKind::Resize(_, _)
        | EventKind::StopResize(_)
        | EventKind::EnableAutoscale(_, _)
        | EventKind::DisableAutoscale(_)
        | EventKind::EvaluateAutoscale(_, _) => pool_resize::plan_event(alloc, indexed, now, event),
        EventKind::AddJob(_, _)
        | EventKind::PatchJob(_, _)
        | EventKind::DisableJob(_, _)
        | EventKind::EnableJob(_)
        | EventKind::TerminateJob(_, _)
        | EventKind::DeleteJob(_)
        | EventKind::AddTask(_, _)
        | EventKind::AddTasks(_, _)
        | EventKind::DeleteTask(_, _)
        | EventKind::TerminateTask(_, _)
        | EventKind::ReactivateTask(_, _) => job_machine::plan_event(alloc, &view, event),
        EventKind::End(number, _) if !is_start_number(view.tables, *number) => {
            job_machine::plan_event(alloc, &view, event)
        }
        EventKind::Take(_) | EventKind::End(_, _) | EventKind::Sample(_, _) | EventKind::Tick =>
            node_machine::plan_event(alloc, &view, event),
    }
}

/// The plan of an event at `now`, in milliseconds since 1970: what the event's machine answers, or its refusal.
fn plan_at(
    alloc: Global,
    indexed: &IndexedTables,
    seats: u8,
    now: u64,
    event: &Event,
) -> Result<Plan, NoMemory>
    requires sound { IsSound seats indexed.now.state }
    requires moment { now ≤ last_moment }
    ensures plan { IfOk result (IsPlanOf (event_now event.now (with_moment now indexed.now.state)) indexed.now.state) }
    ensures tick { event.now ≡ Tick → IfOk result (λ plan. plan.changes ≡ moved_to now indexed.now.state) }
    ensures ranges { is_event_in_range event.now ≡ true }
{
    let answer = answer_event(alloc, indexed, seats, now, event);
    or_refused(alloc, indexed.tables(), now, answer)
}

/// The later of the tables' moment and the given one.
fn later(tables: &Tables, moment: u64) -> u64
    ensures { result ≡ max tables.now.state.moment moment }
{
    tables.moment().max(moment)
}

/// The plan of an event that is given at `moment`, in milliseconds since 1970. It is made at the tables' own moment if that is
/// later. The only error is out of memory.
pub fn plan_event(
    alloc: Global,
    indexed: &IndexedTables,
    seats: u8,
    moment: u64,
    event: &Event,
) -> Result<Plan, NoMemory>
    requires sound { IsSound seats indexed.now.state }
    requires moment { moment ≤ last_moment }
    ensures plan { IfOk result (IsPlanOf (event_step moment event.now indexed.now.state) indexed.now.state) }
    ensures tick { event.now ≡ Tick → IfOk result (λ plan. plan.changes ≡ moved_to (max indexed.now.state.moment moment) indexed.now.state) }
    ensures ranges { is_event_in_range event.now ≡ true }
{
    let now = later(indexed.tables(), moment);
    plan_at(alloc, indexed, seats, now, event)
}
