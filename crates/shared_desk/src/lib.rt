//! One desk that threads share. Each thread has a pass, under whose number it calls and reads the desk, in a turn of a counted
//! lock. What a pass has seen is the beginning of the one history of all calls, and each call and each read is answered by the
//! tables after what its pass has then seen. An asker, which has a pass, answers calls and reads as a desk does. The last owner
//! closes the desk with all passes, and gets its keeper and its journal. That a pass which waits for the turn ever gets it is not
//! proved.
#![tactic(auto)]

mod asker;
mod closing;
mod monitor;
mod ordered;
mod shared;
mod turns;

pub use asker::{Asker, exchanges_stand_in_the_history};
pub use closing::NotClosed;
pub use monitor::{CallMonitor, NoMonitor, SeatQueues};
pub use ordered::Origin;
pub use shared::{Pass, SharedDesk};
