//! Reads of the tables: what each shows, in the form of a reply. A read is no event: it changes nothing, and no journal has it.
#![tactic(auto)]

mod item;
mod page;
mod reads;
mod request;
mod rows;

pub use reads::read_reply;
pub use request::{Listing, MAX_RESULTS, Read};
