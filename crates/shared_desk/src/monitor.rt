//! What hears of the calls of a shared desk (this project's own).
use batch_desk::Answer;
use bt_base::Moment;
use bt_rows::event::Event;

/// The queued runs of a desk.
pub trait SeatQueues {
    /// The number of the queued run with the lowest number among those of nodes at this seat. None if there is none. It goes over the
    /// queued runs alone, and does not allocate.
    fn lowest_number_at(&self, seat: u8) -> Option<u64>;
}

/// What hears of each call of a shared desk, in the turn of the call, so in the order of the history. It changes nothing: contracts say
/// nothing of it, as of what is written to standard error. While it works, no other call is made.
pub trait CallMonitor {
    /// A call with this event is made at this moment. `call_answered` follows in the same turn.
    fn call_begins(&self, moment: Moment, event: &Event);

    /// The call that began was answered like this. The journal has `entries` entries then; the call is the last of them unless it was
    /// answered `JournalFull` or `Memory`.
    fn call_answered(&self, entries: u64, answer: &Answer);

    /// The runs that are queued after the call, in its turn: it follows `call_answered`. If it is not written, it does nothing.
    fn runs_queued<Q: SeatQueues>(&self, _queues: &Q) {}

    /// The call has left its turn, so that other calls may be made meanwhile. If it is not written, it does nothing.
    fn turn_left(&self) {}
}

/// What ignores all that it hears.
#[derive(Clone, Copy, Debug)]
pub struct NoMonitor;

impl CallMonitor for NoMonitor {
    fn call_begins(&self, _moment: Moment, _event: &Event) {}

    fn call_answered(&self, _entries: u64, _answer: &Answer) {}
}
