//! Stores of rows as texts: what tables are read from, and written to by edits that are made all at once. The trait, a store in memory
//! whose calls of given numbers fail, and one that never fails.
#![tactic(auto)]

mod content;
mod edit;
mod entries;
mod memory;
mod store;
mod sure;

pub use content::{Metas, Stored};
pub use edit::{Edit, MetaName};
pub use entries::{Entries, Entry};
pub use memory::MemoryStore;
pub use store::Store;
pub use sure::SureStore;
