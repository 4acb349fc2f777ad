//! The places of texts by their hashes. The first hash that is added has the place 0, the next one the place 1, and so on. The places
//! with one hash are found in constant time on average: who looks for a text goes over them and compares the texts that stand there.
//! Only `reserve` can run out of memory. A place takes 12 to 16 bytes.
#![tactic(auto)]

mod buckets;
mod hash;
mod index;
mod places;

pub use hash::text_hash;
pub use index::HashIndex;
pub use places::Places;
