//! How many bytes a request's body has.
ghost use Rattle.std.specs.Prelude.{◌≡◌, ◌≤◌, length, map, All, Some, None, ◌<◌};
ghost use Rattle.httparse.specs.Spans.{IsHeaderWithin, header_bytes};
ghost use Rattle.http_head.specs.Framing.{length_in, stated_length, has_bad_fields, framing_of, is_last};

use crate::fields::{count_closing, count_with, first_with};
use crate::names::FieldName;
use bt_base::read_number;
use httparse::spans::HeaderSpan;

/// How a request's body is found in the bytes after its head (RFC 9112, section 6.3).
#[derive(Clone, Copy, Debug, PartialEq, Eq)]
pub enum Framing {
    /// The fields contradict themselves, or state a length that cannot be read: a transfer coding, two lengths, a length that
    /// is not 1 to 10 digits, two hosts, or no host in HTTP/1.1.
    Bad,
    /// The body has more bytes than `BODY_LIMIT`.
    TooLong,
    /// The body has this many bytes.
    Body(usize),
}

/// The most bytes of a body.
pub const BODY_LIMIT: usize = 1_048_576;

/// The most digits of a stated length.
const LENGTH_DIGITS: usize = 10;

/// A stated length: 1 to 10 digits.
fn read_length(text: &[u8]) -> Option<u64>
    ensures { result ≡ length_in text.now }
{
    if text.len() > LENGTH_DIGITS {
        return None;
    }
    read_number(text)
}

/// The length that the fields state, 0 if none does; None if it cannot be read.
fn stated_length(buf: &[u8], fields: &[HeaderSpan]) -> Option<u64>
    requires { All (IsHeaderWithin (length buf.now)) fields.now }
    ensures { result ≡ stated_length (map (header_bytes buf.now) fields.now) }
{
    match count_with(buf, fields, FieldName::ContentLength) {
        0 => Some(0),
        1 => {
            let field = first_with(buf, fields, FieldName::ContentLength)?;
            read_length(field.value.of(buf))
        }
        _ => None,
    }
}

/// Whether the request cannot be read by its fields, whatever length they state.
fn has_bad_fields(buf: &[u8], fields: &[HeaderSpan], minor: u8) -> bool
    requires { All (IsHeaderWithin (length buf.now)) fields.now }
    ensures { result ≡ has_bad_fields minor (map (header_bytes buf.now) fields.now) }
{
    let encodings = count_with(buf, fields, FieldName::TransferEncoding);
    let hosts = count_with(buf, fields, FieldName::Host);
    encodings > 0 || hosts > 1 || minor == 1 && hosts == 0
}

/// How the body of a request of HTTP/1.minor with these fields is found. Faulty fields go before a body that is too long.
pub fn frame(buf: &[u8], fields: &[HeaderSpan], minor: u8) -> Framing
    requires { All (IsHeaderWithin (length buf.now)) fields.now }
    ensures { result ≡ framing_of minor (map (header_bytes buf.now) fields.now) }
{
    if has_bad_fields(buf, fields, minor) {
        return Framing::Bad;
    }
    match stated_length(buf, fields) {
        None => Framing::Bad,
        Some(length) if length > BODY_LIMIT as u64 => Framing::TooLong,
        Some(length) => Framing::Body(length as usize),
    }
}

/// Whether a request of HTTP/1.minor with these fields is the last one of its connection.
pub fn ends_after(buf: &[u8], fields: &[HeaderSpan], minor: u8) -> bool
    requires { All (IsHeaderWithin (length buf.now)) fields.now }
    ensures { result ≡ is_last minor (map (header_bytes buf.now) fields.now) }
{
    minor == 0 || count_closing(buf, fields) > 0
}
