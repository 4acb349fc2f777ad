//! The words that the child program of a run is started with, and what the run is and belongs to. The names of some environment variables
//! of tasks in a command line are replaced by their texts before the child program is started. No variable is set here: that is for
//! what starts the child program.
#![tactic(auto)]

mod filling;
mod instances;
mod names;
mod queued;
mod run_names;
mod startable;

pub use filling::fill;
pub use names::Names;
pub use queued::with_words;
pub use startable::StartableRun;
