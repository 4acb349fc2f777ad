//! HTTP over a link (RFC 9112, in this project's profile): the requests of one connection are answered in order by a service,
//! and the connection ends as one of the ends of `End` says. `serve_link` stands in a relation between all bytes of the link,
//! the exchanges, the bytes that are written and the end (`specs/Connection.antt`), which does not know how the bytes came.
//! What a request means is the service's own; heads are read by http_head, and statuses and phrases are the kit's `http`.
#![tactic(auto)]

mod connection;
mod end;
mod exchange;
mod messages;
mod response;
mod service;
mod texts;

pub use connection::{MESSAGE_LIMIT, serve_link};
pub use end::End;
pub use response::{ExtraField, Response, StopCause};
pub use service::Service;
