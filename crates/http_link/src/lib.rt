//! A link to a peer: bytes that come in pieces, and bytes that are taken. A link counts its faults as the sources and sinks of
//! bt_base do, and contracts see what it has left and what it has taken in the same words; reading leaves what it took as it
//! is, and writing what is left. There are a link in memory that never fails and one of which given calls fail, both over
//! pieces that one read each does not go past, so that a test can cut the bytes of a connection anywhere. `fill` adds what comes
//! to a buffer, and `write_all` writes a whole text.
#![tactic(auto)]

mod link;
mod memory;
mod pieces;
mod room;

pub use link::{Link, write_all};
pub use memory::{MemoryLink, SureLink};
pub use pieces::Pieces;
pub use room::{FILL_BYTES, FillFault, fill};
