//! Calls in a journal.

use bt_base::Moment;
use bt_rows::event::Event;
use bt_rows::refusal::Refusal;

/// Why the due steps of a call stopped.
#[derive(Clone, Copy, Debug, PartialEq, Eq)]
pub enum Stop {
    /// No rule applied.
    Rest,
    /// A step was due, and was not saved.
    KeeperFault,
    /// Memory ran out.
    Memory,
}

/// What became of a call.
#[derive(Clone, Copy, Debug, PartialEq, Eq)]
pub enum Mark {
    /// It was made. A refusal is a call that was made.
    Done(Option<Refusal>),
    /// It was not saved, and left undone.
    KeeperFault,
}

/// A call in a journal: what was asked at which moment, what became of it, how many due steps followed, and why they
/// stopped.
#[derive(Drop)]
pub struct Entry {
    /// The moment that was given, in milliseconds since 1970; it may be before the tables' moment.
    pub moment: Moment,
    /// What was asked.
    pub event: Event,
    /// What became of the event.
    pub mark: Mark,
    /// How many due steps were made after the event; 0 if the call was not saved.
    pub dues: u64,
    /// Why no more due steps were made; a keeper fault if the call was not saved.
    pub stop: Stop,
}
