//! Tables whose rows are found by their keys in constant time on average. Each row has a place, which stays the same until the
//! table closes up its free places in `reserve`; the rows in the order of their places are in the order of adding. Only `reserve`
//! can run out of memory.
#![tactic(auto)]

mod key_text;
mod keyed;
mod rows;
mod table;

pub use key_text::KeyText;
pub use keyed::Keyed;
pub use rows::Rows;
pub use table::{Table, places_are_lists};
