//! Answers of a calendar.

use crate::fire::Fire;
use crate::refusal::CalRefusal;
use batch_desk::Answer;
use bt_base::List;

/// The reply to the event of a call.
#[derive(Drop)]
pub enum CalReply {
    /// An event on the schedules was accepted, with this HTTP status: 201, 202 or 204.
    Status(u16),
    /// An event on the schedules was refused.
    Refused(CalRefusal),
    /// The asker's answer to an inner event.
    Asked(Answer),
    /// Out of memory at an event on the schedules; nothing changed.
    Memory,
}

/// The answer to a call of a calendar.
#[derive(Drop)]
pub struct CalAnswer {
    /// The reply to the event.
    pub first: CalReply,
    /// The calls that the schedules made after it, in order.
    pub fires: List<Fire>,
    /// Whether the turns of all schedules were run; false if memory ran out before the end.
    pub whole: bool,
}
