//! Refusals of a calendar.

use crate::stage::ScheduleState;

/// Why a calendar refuses an event on its schedules. The names follow the error codes of the Azure Batch REST reference.
#[derive(Clone, Copy, Debug, PartialEq, Eq)]
pub enum CalRefusal {
    /// The calendar has 256 schedules, the most that it takes.
    SchedulesFull,
    /// No schedule has the id.
    ScheduleNotFound,
    /// A schedule has the id; case is ignored.
    ScheduleExists,
    /// The state of the schedule, which is given, does not allow the event.
    ScheduleStateRefuses(ScheduleState),
}
