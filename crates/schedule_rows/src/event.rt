//! Events of a calendar.

use crate::row::ScheduleRow;
use bt_base::Id;
use bt_rows::event::Event;

/// An event of a calendar: the first four are events on its schedules.
#[derive(Drop)]
pub enum CalEvent {
    /// Adds the schedule, which begins at the moment of the call.
    Add(ScheduleRow),
    /// Deletes the schedule with this id; its jobs stay.
    Delete(Id),
    /// Disables the schedule with this id.
    Disable(Id),
    /// Enables the schedule with this id.
    Enable(Id),
    /// An event for the asker. It changes no schedule by itself.
    Inner(Event),
}
