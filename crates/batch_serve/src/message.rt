//! What the program says of a status of the service on standard error.
use crate::status::ServeStatus;
use std::fmt;

/// What happened and what to do, in one line.
fn advice(status: ServeStatus) -> &'static str {
    match status {
        ServeStatus::Done => "done",
        ServeStatus::Memory =>
            "out of memory; the service ended, or a part of it: give the program more memory and start it again",
        ServeStatus::Usage => "the words are not a command `serve`",
        ServeStatus::ListenFault =>
            "a connection could not be accepted; the service ended: start it again",
        ServeStatus::SinkFault =>
            "standard output could not be written; the service did not begin: check its target and start it again",
        ServeStatus::KeeperFault =>
            "the tables could not be loaded or saved; the service did not begin, or its last saves were not made: check the store and start it again",
        ServeStatus::JournalFull =>
            "the journal is full; the service ended, or a part of it: start it again, or give a greater --journal",
    }
}

impl fmt::Display for ServeStatus {
    /// What happened and what to do.
    fn fmt<W: fmt::Write>(&self, out: &mut fmt::Formatter<W>) -> fmt::Result {
        let text = advice(*self);
        write!(out, "batch: {text}")
    }
}
