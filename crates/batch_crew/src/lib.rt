//! Lanes and the timer of a service, as turns over a shared desk (this project's own). A lane takes the runs that are queued at its seat,
//! runs their child programs, and tells how they ended; any number of lanes may have one seat. The timer ticks, and has the child programs
//! of runs that are asked to stop stopped. In which thread they run is for their caller to say. Contracts see the turns by what their
//! passes have seen.
#![tactic(auto)]

mod calls;
mod cut;
mod lane;
mod stopping;
mod ticking;
mod timer;
mod turning;

pub use calls::{FIRST_RETRY_MS, LAST_RETRY_MS};
pub use cut::LaneEnd;
pub use lane::run_lane;
pub use ticking::TICK_GAP_MS;
pub use timer::run_timer;
