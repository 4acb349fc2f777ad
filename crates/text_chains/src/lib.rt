//! Maps from texts to short lists of places in a table, such as the places of the rows with one part of a key. Places are added and
//! never removed: who reads a list looks each place up in the table and ignores the rows that are not meant. The texts stand one after
//! the other in one list of bytes, each as often as it has places, and are found by their hashes. Only `reserve` can run out of memory.
#![tactic(auto)]

mod chains;
mod laws;
mod links;
mod places;

pub use chains::TextChains;
pub use laws::places_cover_rows;
pub use links::MOST_BYTES;
pub use places::Places;
