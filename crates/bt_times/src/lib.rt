//! Times: durations and instants in texts, and the parts of dates in UTC.
#![tactic(auto)]

mod civils;
mod durations;
mod fault;
mod instants;
mod parts;

pub use civils::civil;
pub use durations::{MAX_DURATION_MS, duration_ms};
pub use fault::TimeFault;
pub use instants::{LAST_INSTANT_NS, instant};
pub use parts::Civil;
