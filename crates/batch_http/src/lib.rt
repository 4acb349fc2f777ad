//! HTTP over a desk: the service of connections whose requests are calls and reads of an asker (Azure Batch REST reference, in this
//! project's profile; RFC 9112). A call has the moment that the clock gives. `serve` serves one connection over a link: the bytes
//! that are written, the end, the exchanges of the asker and the moments of the clock stand in a relation to the bytes of the link
//! (`specs/Connections.antt`), which does not know how those came. `serve_links` is the work of a door: it serves the links of a listener
//! as such connections, one after the other (`specs/Doors.antt`).
#![tactic(auto)]

mod connection;
mod doors;
mod response;
mod service;

pub use connection::serve;
pub use doors::{DoorEnd, serve_links};
pub use service::HttpService;
