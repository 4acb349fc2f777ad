//! A file of SQL as a store of rows as texts: it is opened, if sql_look finds that it is one or can be made one, all that it contains is read, and
//! edits are made in one transaction. The file has all of them then, or none, also after a crash.
//! Contracts do not see what the file contains.
#![tactic(auto)]

mod fault;
mod file;
mod meta;
mod reading;
mod statements;
mod writing;

pub use fault::{WriteError, WriteFault};
pub use file::{OpenMode, SqlFile};
pub use reading::{ReadError, ReadFault};
pub use writing::{CopiedEdits, copy_edits};
