//! Keepers of the tables: what a desk loads its tables from, and saves each change of them to before the change counts.
//! The trait, a keeper in memory whose calls of given numbers fail, and one that never fails.
#![tactic(auto)]

mod error;
mod keeper;
mod memory;
mod sure;

pub use error::KeepError;
pub use keeper::Keeper;
pub use memory::MemoryKeeper;
pub use sure::SureKeeper;
