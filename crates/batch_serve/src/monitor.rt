//! What hears how a service goes (this project's own).
use batch_crew::LaneEnd;
use batch_http::DoorEnd;
use shared_desk::{CallMonitor, NoMonitor};

/// What hears of the calls of a service, and how each of its workers ended. It changes nothing: contracts say nothing of it, as of what is
/// written to standard error.
pub trait ServiceMonitor: CallMonitor {
    /// A lane at this seat has ended.
    fn lane_ended(&self, seat: u8, end: LaneEnd);

    /// The timer has ended.
    fn timer_ended(&self, end: LaneEnd);

    /// A door has ended.
    fn door_ended(&self, end: DoorEnd);
}

impl ServiceMonitor for NoMonitor {
    fn lane_ended(&self, _seat: u8, _end: LaneEnd) {}

    fn timer_ended(&self, _end: LaneEnd) {}

    fn door_ended(&self, _end: DoorEnd) {}
}
