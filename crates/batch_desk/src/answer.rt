//! What calls are answered.

use crate::entry::Stop;
use bt_base::List;
use bt_rows::due::Due;
use bt_rows::reply::Reply;

/// What a call is answered.
#[derive(Drop)]
pub enum Answer {
    /// It was made: its reply, what its due steps show, and why they stopped.
    Done {
        reply: Reply,
        dues: List<Due>,
        stop: Stop,
    },
    /// It was not saved, and left undone.
    KeeperFault,
    /// The journal has as many entries as its limit.
    JournalFull,
    /// Memory ran out before it was saved.
    Memory,
}
