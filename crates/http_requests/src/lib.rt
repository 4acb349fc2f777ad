//! What requests of HTTP ask for, and replies as responses (Azure Batch REST reference, in this project's profile). A request whose
//! path names a route that has its method is a call or a read, with the ids of its path, the members of its query and the
//! values of its body; any other request has a response at once, and so has one that is refused as it is read. Replies become
//! responses by their status and their JSON.
#![tactic(auto)]

mod event;
mod ids;
mod listing;
mod look;
mod request;
mod response;

pub use request::{Wanted, read_request};
pub use response::{error_response, reply_response};
