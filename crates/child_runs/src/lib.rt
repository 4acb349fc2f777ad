//! Child programs of runs: what starts one and waits for its end, and what asks one to stop. Contracts see a spawner or a
//! stopper by a relation between its states and by its count of faults. For each there is one in memory that never fails and
//! one of which given calls fail; they keep which children ran and which were asked to stop.
#![tactic(auto)]

mod counter;
mod endings;
mod memory_spawner;
mod ran;
mod run_identity;
mod spawner;
mod stopper;
mod stops;
mod sure_spawner;

pub use memory_spawner::MemorySpawner;
pub use ran::{ChildEnding, ChildRun, Ran};
pub use run_identity::RunIdentity;
pub use spawner::Spawner;
pub use stopper::Stopper;
pub use stops::{MemoryStopper, SureStopper};
pub use sure_spawner::SureSpawner;
