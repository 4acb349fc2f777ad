//! Listeners: what gives a service its links one at a time, and takes each back once it is served. At most one link of a listener
//! is out. Contracts see a listener by relations between its states, by its count of faults, by whether a link is out, and by
//! whether it has ended. There is one in memory that never fails and one of which given calls fail; both give the links of a
//! list, and keep those that are handed back.
#![tactic(auto)]

mod accepted;
mod listener;
mod memory;
mod sure;

pub use accepted::Accepted;
pub use listener::Listener;
pub use memory::MemoryListener;
pub use sure::SureListener;
