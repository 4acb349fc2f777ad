//! The head of a request (RFC 9112): how far it has come in the bytes at the front of a connection, where its method and its
//! target are, how many bytes its body has, whether it is the last request of the connection, and whether it has a field
//! `Origin`. Heads are read by the kit's `httparse`; a head has at most 16,384 bytes and 64 fields. Five fields are looked at:
//! `Host`, `Content-Length`, `Transfer-Encoding`, `Connection` and `Origin`. What is read depends on the bytes alone, and not on
//! how they came; nothing here allocates.
#![tactic(auto)]

mod fields;
mod framing;
mod heads;
mod items;
mod names;
mod targets;

pub use framing::{BODY_LIMIT, Framing};
pub use heads::{FIELD_LIMIT, HEAD_LIMIT, Head, HeadRead, read_head};
