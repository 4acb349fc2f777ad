//! Plans: what a step replies and changes.

use crate::reply::Reply;
use crate::tables::{Change, Tables};
use bt_base::List;

/// A reply, and the changes of the tables that go with it.
#[derive(Drop)]
pub struct Plan {
    /// The reply.
    pub reply: Reply,
    /// The changes, which are made from the first to the last.
    pub changes: List<Change>,
}

/// What a step looks at.
#[derive(Clone, Copy)]
pub struct View<'a> {
    /// The tables before the step.
    pub tables: &'a Tables,
    /// The number of seats of the machine, 1 to 32.
    pub seats: u8,
    /// The moment of the step, in milliseconds since 1970.
    pub now: u64,
}
