//! An index from names to numbers, such as their places in a list. It is an ordered map, so that a look-up among n names takes
//! about log n comparisons, whatever the names are.
#![tactic(auto)]

mod index;

pub use index::NameIndex;
