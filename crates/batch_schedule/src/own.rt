//! Events on the schedules of a calendar.
ghost use Rattle.std.specs.Prelude.{◌≡◌, ◌<◌, length, IfSome};
ghost use Rattle.std.specs.List.{list_any};
ghost use Rattle.schedule_rows.specs.declared.event.CalEvent.TheVariants.{Add, Delete, Disable, Enable};
ghost use Rattle.schedule_rows.specs.OwnEvents.{has_id, place_of, state_of, put_state, with_state};
ghost use Rattle.batch_schedule.specs.Own.{DoesOwn};

use bt_base::{Id, Moment};
use schedule_rows::{CalRefusal, CalReply, SCHEDULE_LIMIT, ScheduleRow, ScheduleState};

/// Whether a schedule has the id; case is ignored.
fn has_schedule(rows: &[ScheduleRow], id: &Id) -> bool
    ensures { result ≡ list_any (has_id id.now) rows.now }
{
    rows.iter().any(|row| row.has_id(id))
}

/// The place of the schedule with the id; None if there is none.
fn place_of(rows: &[ScheduleRow], id: &Id) -> Option<usize>
    ensures place { result ≡ place_of rows.now id.now }
    ensures within { IfSome result (λ place. place < length rows.now) }
{
    rows.iter().position(|row| row.has_id(id))
}

/// The state of the schedule with the id; None if there is none.
fn state_of(rows: &[ScheduleRow], id: &Id) -> Option<ScheduleState>
    ensures { result ≡ state_of rows.now id.now }
{
    rows.iter()
        .find(|row| row.has_id(id))
        .map(|row| row.state())
}

/// Sets the state of the schedule, if it has the id.
fn put_state(row: &mut ScheduleRow, id: &Id, state: ScheduleState)
    ensures { row.new ≡ put_state id.now state row.old }
{
    if row.has_id(id) {
        row.set_state(state);
    }
}

/// Sets the state of the schedule with the id.
fn set_state(rows: &mut [ScheduleRow], id: &Id, state: ScheduleState)
    ensures { rows.new ≡ with_state id.now state rows.old }
{
    for at in 0..rows.len() {
        let row = &mut rows[at];
        put_state(row, id, state);
    }
}

/// Adds the schedule, which begins at this moment. Refused, in this order: `ScheduleExists`, `SchedulesFull`.
pub fn add(rows: &mut Vec<ScheduleRow>, now: Moment, mut row: ScheduleRow) -> CalReply
    ensures { DoesOwn now rows.old.items rows.new.items (Add row) result }
{
    if has_schedule(rows, row.id()) {
        return CalReply::Refused(CalRefusal::ScheduleExists);
    }
    if rows.len() >= SCHEDULE_LIMIT {
        return CalReply::Refused(CalRefusal::SchedulesFull);
    }
    row.begin_at(now);
    match rows.push(row) {
        Ok(()) => CalReply::Status(201),
        Err(_) => CalReply::Memory,
    }
}

/// Deletes the schedule with the id; its jobs stay. Refused: `ScheduleNotFound`.
pub fn delete(rows: &mut Vec<ScheduleRow>, now: Moment, id: Id) -> CalReply
    ensures { DoesOwn now rows.old.items rows.new.items (Delete id) result }
{
    match place_of(rows, &id) {
        None => CalReply::Refused(CalRefusal::ScheduleNotFound),
        Some(place) => {
            let row = rows.remove(place);
            drop(row);
            CalReply::Status(202)
        }
    }
}

/// Disables the schedule with the id. Refused, in this order: `ScheduleNotFound`, and `ScheduleStateRefuses` if it is not active.
pub fn disable(rows: &mut Vec<ScheduleRow>, now: Moment, id: Id) -> CalReply
    ensures { DoesOwn now rows.old.items rows.new.items (Disable id) result }
{
    match state_of(rows, &id) {
        None => CalReply::Refused(CalRefusal::ScheduleNotFound),
        Some(ScheduleState::Active) => {
            set_state(rows, &id, ScheduleState::Disabled);
            CalReply::Status(204)
        }
        Some(state) => CalReply::Refused(CalRefusal::ScheduleStateRefuses(state)),
    }
}

/// Enables the schedule with the id. Refused, in this order: `ScheduleNotFound`, and `ScheduleStateRefuses` if it is not disabled.
pub fn enable(rows: &mut Vec<ScheduleRow>, now: Moment, id: Id) -> CalReply
    ensures { DoesOwn now rows.old.items rows.new.items (Enable id) result }
{
    match state_of(rows, &id) {
        None => CalReply::Refused(CalRefusal::ScheduleNotFound),
        Some(ScheduleState::Disabled) => {
            set_state(rows, &id, ScheduleState::Active);
            CalReply::Status(204)
        }
        Some(state) => CalReply::Refused(CalRefusal::ScheduleStateRefuses(state)),
    }
}
