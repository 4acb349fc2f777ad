//! Clocks: what a service asks for the moment, and for whether it is to end. A clock cannot fail. There is one in memory, which
//! gives the moments of a list.
#![tactic(auto)]

mod clock;
mod list_clock;

pub use clock::Clock;
pub use list_clock::ListClock;
