//! The fields that are looked at.
ghost use Rattle.std.specs.Prelude.{◌≡◌};
ghost use Rattle.http_head.specs.Fields.{name_text};

/// A field's name.
#[derive(Clone, Copy, Debug, PartialEq, Eq)]
pub enum FieldName {
    /// `Host` (RFC 9112, section 3.2). Its value is not looked at.
    Host,
    /// `Content-Length` (RFC 9112, section 6.2).
    ContentLength,
    /// `Transfer-Encoding` (RFC 9112, section 6.1), which no request may have here.
    TransferEncoding,
    /// `Connection` (RFC 9110, section 7.6.1).
    Connection,
    /// `Origin` (RFC 6454, section 7): a browser sends it with a request of a page. Its value is not looked at.
    Origin,
}

impl FieldName {
    /// The name in lower case.
    #[tactic(auto, unfolding(crate::specs::Fields::name_text))]
    pub fn text(self) -> &'static [u8]
        ensures { result.now ≡ name_text self }
    {
        match self {
            FieldName::Host => b"host",
            FieldName::ContentLength => b"content-length",
            FieldName::TransferEncoding => b"transfer-encoding",
            FieldName::Connection => b"connection",
            FieldName::Origin => b"origin",
        }
    }
}
