//! Responses.
use bt_base::Text;
use http::StatusCode;

/// What stopped the due steps of a call before none applied.
#[derive(Clone, Copy, Debug, PartialEq, Eq)]
pub enum StopCause {
    /// The keeper of the tables failed.
    KeeperFault,
    /// Memory ran out.
    Memory,
}

/// A field that only some responses have.
#[derive(Debug, Drop)]
pub enum ExtraField {
    /// `Allow` (RFC 9110, section 10.2.1), which a response 405 has: the methods of the route, separated by a comma and a space.
    Allow(Text),
    /// `Batch-Stop`, this project's own: `fault` or `memory`.
    BatchStop(StopCause),
}

/// A response to a request.
#[derive(Debug, Drop)]
pub struct Response {
    /// The status. With 204 the body is not written.
    pub status: StatusCode,
    /// The field that only some responses have.
    pub extra: Option<ExtraField>,
    /// The body, of the media type `application/json`; empty if there is none.
    pub body: Text,
}
