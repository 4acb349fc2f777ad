//! Heads at the front of a buffer.
ghost use Rattle.std.specs.Prelude.{◌≡◌, ◌≤◌, length, map, All, take};
ghost use Rattle.httparse.specs.Spans.{IsHeaderWithin, IsRequestWithin, IsRequestAt, IsRequestOf, header_bytes};
ghost use Rattle.http_head.specs.Fields.{has_origin};
ghost use Rattle.http_head.specs.Framing.{framing_of, is_last};
ghost use Rattle.http_head.specs.Heads.{IsHead, IsAnswer, IsParsed, IsHeadRead, StaysRead};
ghost use Rattle.http_head.specs.Lines.{lines_ended};

use crate::fields::has_origin;
use crate::framing::{Framing, ends_after, frame};
use crate::targets::ends_in_target;
use httparse::spans::{EMPTY_HEADER_SPAN, HeaderSpan, RequestSpans, Span, parse_request};
use httparse::{Error, Status};

/// The most bytes of a head, empty lines before it counted.
pub const HEAD_LIMIT: usize = 16_384;

/// The most fields of a head.
pub const FIELD_LIMIT: usize = 64;

/// What is needed of a head.
#[derive(Clone, Copy, Debug, PartialEq, Eq)]
pub struct Head {
    /// How many bytes it has, empty lines before it counted.
    pub len: usize,
    /// Where its method is in the bytes.
    pub method: Span,
    /// Where its target is in the bytes. The target is UTF-8.
    pub target: Span,
    /// How the body is found.
    pub framing: Framing,
    /// Whether the request is the last one that is answered.
    pub is_last: bool,
    /// Whether it has a field `Origin`, with any value (RFC 6454, section 7).
    pub has_origin: bool,
}

/// What the parser returns.
#[derive(Clone, Copy, Debug, PartialEq, Eq)]
pub(crate) enum Parsed {
    /// A head.
    Whole(Head),
    /// The beginning of a head.
    Partial,
    /// More fields than the limit.
    TooMany,
    /// Bytes that do not begin a head.
    Invalid,
}

/// What is at the front of the bytes.
#[derive(Clone, Copy, Debug, PartialEq, Eq)]
pub enum HeadRead {
    /// A head.
    Found(Head),
    /// Further bytes may make it a head.
    More,
    /// No further bytes make it a head.
    Bad,
    /// The head has more bytes than `HEAD_LIMIT`, or more fields than `FIELD_LIMIT`.
    TooLong,
}

/// What is needed of a head with these parts.
fn head_of(buf: &[u8], spans: &RequestSpans, fields: &[HeaderSpan]) -> Head
    requires within { All (IsHeaderWithin (length buf.now)) fields.now }
    ensures len { result.len ≡ spans.now.len }
    ensures method { result.method ≡ spans.now.method }
    ensures target { result.target ≡ spans.now.path }
    ensures framing { result.framing ≡ framing_of spans.now.version (map (header_bytes buf.now) fields.now) }
    ensures last { result.is_last ≡ is_last spans.now.version (map (header_bytes buf.now) fields.now) }
    ensures origin { result.has_origin ≡ has_origin (map (header_bytes buf.now) fields.now) }
{
    Head {
        len: spans.len,
        method: spans.method,
        target: spans.path,
        framing: frame(buf, fields, spans.version),
        is_last: ends_after(buf, fields, spans.version),
        has_origin: has_origin(buf, fields),
    }
}

/// What the kit's parser makes of the bytes.
pub(crate) fn ask_parser(buf: &[u8]) -> Parsed
    ensures { IsAnswer buf.now result }
{
    let mut fields = [EMPTY_HEADER_SPAN; FIELD_LIMIT];
    match parse_request(buf, &mut fields) {
        Ok(Status::Complete(spans)) => Parsed::Whole(head_of(
            buf,
            &spans,
            &fields[..spans.headers],
        )),
        Ok(Status::Partial) => Parsed::Partial,
        Err(Error::TooManyHeaders) => Parsed::TooMany,
        Err(_) => Parsed::Invalid,
    }
}

/// Parses the bytes. Those that end inside a target are the beginning of a head, whether or not it is UTF-8.
#[tactic(auto, using(crate::proofs::TargetEnds::begun))]
fn parse(buf: &[u8]) -> Parsed
    ensures { IsParsed buf.now result }
{
    match ask_parser(buf) {
        Parsed::Whole(head) => Parsed::Whole(head),
        Parsed::Partial => Parsed::Partial,
        Parsed::TooMany => Parsed::TooMany,
        Parsed::Invalid => {
            if ends_in_target(buf) {
                Parsed::Partial
            } else {
                Parsed::Invalid
            }
        }
    }
}

/// How many lines have ended, from the request line on.
fn count_lines(buf: &[u8]) -> usize
    ensures { result ≡ lines_ended buf.now }
{
    let mut begun = false;
    let mut lines = 0;
    for byte in buf {
        begun |= *byte != b'\r' && *byte != b'\n';
        if begun && *byte == b'\n' {
            lines += 1;
        }
    }
    lines
}

/// Reads the head at the front of the bytes, of which the first `HEAD_LIMIT` are looked at.
fn read_front(buf: &[u8]) -> HeadRead
    ensures { IsHeadRead buf.now result }
{
    let front = &buf[..buf.len().min(HEAD_LIMIT)];
    match parse(front) {
        Parsed::Whole(head) => HeadRead::Found(head),
        Parsed::Partial if front.len() == HEAD_LIMIT => HeadRead::TooLong,
        Parsed::Partial if count_lines(front) > FIELD_LIMIT + 1 => HeadRead::TooLong,
        Parsed::Partial => HeadRead::More,
        Parsed::TooMany => HeadRead::TooLong,
        Parsed::Invalid => HeadRead::Bad,
    }
}

/// Reads the head at the front of the bytes, as far as they have come. Only the first `HEAD_LIMIT` bytes are looked at. Once a
/// head is found, or cannot come any more, further bytes do not change that. More fields than the limit are known once they have
/// come, also if the head has no end yet. Bytes that end inside a target are the beginning of a head, whether or not it is UTF-8.
pub fn read_head(buf: &[u8]) -> HeadRead
    ensures read { IsHeadRead buf.now result }
    ensures stays { StaysRead buf.now result }
{
    read_front(buf)
}
