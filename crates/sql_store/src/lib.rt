//! A store of rows as texts in a file of SQL, which sql_look looks at and sql_file opens, reads and writes. The file has all of a write, or
//! nothing, also after a crash, and then all writes before it. A file that is not a store is left as it was.
//! Writes wait in a queue, and those that are there are made together in one transaction once somebody waits for them; whoever shows
//! something of them waits first.
//! Contracts do not see what the file contains; they see how many faults were counted.
#![tactic(auto)]

mod closing;
mod health;
mod monitor;
mod queue;
mod store;
mod sync;

pub use closing::CloseError;
pub use health::StoreHealth;
pub use monitor::{StoreMonitor, Unmonitored};
pub use sql_file::{OpenMode, ReadFault, WriteFault};
pub use sql_look::{ForeignFile, OpenError};
pub use store::SqlStore;
pub use sync::{StoreSync, WaitFault};
