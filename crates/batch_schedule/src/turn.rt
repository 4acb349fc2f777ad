//! The turns of schedules.
ghost use Rattle.std.specs.Prelude.{◌≡◌};
ghost use Rattle.schedule_rows.specs.Turns.{retries_stage, retries_and_fires, turn};
ghost use Rattle.batch_schedule.specs.Runs.{RunsPart, RunsTurn, RunsTurns};

use crate::asking::{ask_patch, ask_tasks, fire};
use batch_desk::Ask;
use bt_base::Moment;
use schedule_rows::{Fire, ScheduleRow, Stage};
use std::alloc::Global;

/// Repeats the requests that remain for the last job. Returns false if memory ran out.
fn retry_stage<A: Ask>(
    asker: &mut A,
    alloc: Global,
    now: Moment,
    row: &mut ScheduleRow,
    fires: &mut Vec<Fire>,
) -> bool
    ensures { RunsPart A.exchanged (retries_stage now row.old.stage row.old) asker.old asker.new row.new fires.old.items fires.new.items result }
{
    match row.stage() {
        Stage::Idle => true,
        Stage::Tasks => ask_tasks(asker, alloc, now, row, fires),
        Stage::Patch => ask_patch(asker, alloc, now, row, fires),
    }
}

/// Repeats the requests that remain, and then fires if an occurrence is due. Returns false if memory ran out.
fn retry_and_fire<A: Ask>(
    asker: &mut A,
    alloc: Global,
    now: Moment,
    row: &mut ScheduleRow,
    fires: &mut Vec<Fire>,
) -> bool
    ensures { RunsPart A.exchanged (retries_and_fires now row.old) asker.old asker.new row.new fires.old.items fires.new.items result }
{
    if !retry_stage(asker, alloc, now, row, fires) {
        return false;
    }
    fire(asker, alloc, now, row, fires)
}

/// Runs the turn of a schedule. Returns false if memory ran out.
fn run_turn<A: Ask>(
    asker: &mut A,
    alloc: Global,
    now: Moment,
    row: &mut ScheduleRow,
    fires: &mut Vec<Fire>,
) -> bool
    ensures { RunsTurn A.exchanged (turn now row.old) asker.old asker.new row.new fires.old.items fires.new.items result }
{
    if !retry_and_fire(asker, alloc, now, row, fires) {
        return false;
    }
    row.complete_at(now);
    true
}

/// Runs the turns of schedules, in order. Returns false if memory ran out.
pub fn run_turns<A: Ask>(
    asker: &mut A,
    alloc: Global,
    now: Moment,
    rows: &mut [ScheduleRow],
    fires: &mut Vec<Fire>,
) -> bool
    ensures { RunsTurns A.exchanged now rows.old rows.new asker.old asker.new fires.old.items fires.new.items result }
{
    for at in 0..rows.len() {
        let row = &mut rows[at];
        if !run_turn(asker, alloc, now, row, fires) {
            return false;
        }
    }
    true
}
