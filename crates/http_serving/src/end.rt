//! Ends of a connection.

/// How a connection ended. Before `BadHead`, `BadFraming`, `OriginRefused`, `HeadTooLong` and `BodyTooLong` an answer is written,
/// whose body is an error object with the name of the end as its code and the number 0.
#[derive(Clone, Copy, Debug, PartialEq, Eq)]
pub enum End {
    /// The input ended between two requests.
    Closed,
    /// A request of HTTP/1.0, or one with the connection option `close`, was answered (RFC 9112, section 9.6). Nothing more is
    /// read.
    Asked,
    /// `MESSAGE_LIMIT` requests were answered. Nothing more is read.
    Spent,
    /// The input ended inside a request. Empty lines before the end of the input are bytes of a request.
    Truncated,
    /// The bytes are not the beginning of a head. The status 400 is written.
    BadHead,
    /// The fields of a whole head do not say how long its body is, or the host is missing or given twice: see http_head
    /// `Framing::Bad`. The status 400 is written.
    BadFraming,
    /// A whole head has a field `Origin`, whatever its value, as the requests have that a browser sends for a page of another
    /// place (RFC 6454, section 7), and its fields are not faulty as `BadFraming` says. The body is not read. The status 403 is
    /// written.
    OriginRefused,
    /// The first http_head `HEAD_LIMIT` bytes have no end of a head, or the head has more fields than `FIELD_LIMIT`. The status
    /// 431 is written.
    HeadTooLong,
    /// The stated length of the body is more than http_head `BODY_LIMIT`, and the head has no `Origin`. The status 413 is
    /// written.
    BodyTooLong,
    /// The link failed in this call.
    LinkFault,
    /// Memory ran out.
    Memory,
}
