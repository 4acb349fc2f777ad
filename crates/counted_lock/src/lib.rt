//! A counted lock: one object in the slot of a shared table, a count of the entries of its journal, and passes, each of which has
//! seen a prefix of the one history of these entries. Whoever has the turn has the object, and calls it as if it were alone.
//! That a turn is ever had is not proved.
#![tactic(auto)]

mod closing;
mod lock;
mod notes;
mod opening;
mod pass;
mod plays;
mod rule;
mod steps;
mod views;
mod wait_queue;

pub use closing::PassesOut;
pub use lock::CountedLock;
pub use pass::{Held, Pass};
pub use views::{Journaled, Stage, Stamped, View};
pub use wait_queue::WaitQueue;
