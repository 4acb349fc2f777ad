//! What a file at a path is that is to be a store: nothing, a file whose tables can be made, a store, or another program's. It is looked at without
//! a change, and before it is opened. Why a file is not opened, what calls answer after errors of SQL, and the tables of a store.
#![tactic(auto)]

mod at_path;
mod error;
mod schema;
mod shown_name;
mod tables;

pub use at_path::{Found, look};
pub use error::{ForeignFile, OpenError, answer_after};
pub use schema::{Content, content_of};
pub use shown_name::Shown;
pub use tables::make_tables;
