//! The desk: calls one after another, each change of the tables saved before it counts, and the journal of the calls; the trait of
//! what answers calls and reads, of which the desk is one.
#![tactic(auto)]

mod answer;
mod ask;
mod call;
mod desk;
mod entries;
mod entry;
mod job_ids;
mod journal;
mod saved_machine;
mod saving;

pub use answer::Answer;
pub use ask::{Ask, exchanges_are_in_the_journal};
pub use desk::Desk;
pub use entries::{Entries, EntryRef};
pub use entry::{Entry, Mark, Stop};
pub use journal::Journal;
