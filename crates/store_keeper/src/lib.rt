//! A keeper of the tables over any store of rows as texts. What it loads is read row by row, and must be well-formed tables; what it
//! saves are edits of the rows, which the store makes all at once.
#![tactic(auto)]

mod edits;
mod keeper;
mod keys;
mod load_fault;
mod reading;
mod rows;
mod stored_row;
mod tables;

pub use keeper::StoreKeeper;
pub use load_fault::LoadFault;
