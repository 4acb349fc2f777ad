//! The clock of the system, as a clock of a service. Contracts see whether one of its pauses has said that the service is to end,
//! and no moment.
#![tactic(auto)]

mod clock;

pub use clock::SystemClock;
