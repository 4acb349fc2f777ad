//! Scans of a head's fields.
ghost use Rattle.std.specs.Prelude.{◌≡◌, List, length, map, All, find, count_by, option_map, Some, None, IfSome};
ghost use Rattle.httparse.specs.Spans.{IsHeaderWithin, IsWithin, header_bytes, span_bytes};
ghost use Rattle.http_head.specs.Fields.{is_named, count_named, has_origin, is_close, close_text};

use crate::items::has_item;
use crate::names::FieldName;
use httparse::spans::{HeaderSpan, Span};

/// Whether the field has this name, in any case.
fn has_name(buf: &[u8], field: HeaderSpan, name: FieldName) -> bool
    requires { IsHeaderWithin (length buf.now) field }
    ensures { result ≡ is_named name (header_bytes buf.now field) }
{
    field.name.of(buf).eq_ignore_ascii_case(name.text())
}

/// Whether the field asks that the connection be closed.
#[tactic(auto, unfolding(crate::specs::Fields::close_text))]
fn asks_to_close(buf: &[u8], field: HeaderSpan) -> bool
    requires { IsHeaderWithin (length buf.now) field }
    ensures { result ≡ is_close (header_bytes buf.now field) }
{
    has_name(buf, field, FieldName::Connection) && has_item(field.value.of(buf), b"close")
}

/// How many fields have this name.
pub fn count_with(buf: &[u8], fields: &[HeaderSpan], name: FieldName) -> usize
    requires { All (IsHeaderWithin (length buf.now)) fields.now }
    ensures { result ≡ count_named name (map (header_bytes buf.now) fields.now) }
{
    let mut count = 0;
    for field in fields {
        if has_name(buf, *field, name) {
            count += 1;
        }
    }
    count
}

/// How many fields ask that the connection be closed.
pub fn count_closing(buf: &[u8], fields: &[HeaderSpan]) -> usize
    requires { All (IsHeaderWithin (length buf.now)) fields.now }
    ensures { result ≡ count_by is_close (map (header_bytes buf.now) fields.now) }
{
    let mut count = 0;
    for field in fields {
        if asks_to_close(buf, *field) {
            count += 1;
        }
    }
    count
}

/// Whether one field at least is an `Origin`, whatever its value.
pub fn has_origin(buf: &[u8], fields: &[HeaderSpan]) -> bool
    requires { All (IsHeaderWithin (length buf.now)) fields.now }
    ensures { result ≡ has_origin (map (header_bytes buf.now) fields.now) }
{
    count_with(buf, fields, FieldName::Origin) > 0
}

/// The first field with this name.
pub fn first_with(buf: &[u8], fields: &[HeaderSpan], name: FieldName) -> Option<HeaderSpan>
    requires { All (IsHeaderWithin (length buf.now)) fields.now }
    ensures value { option_map (header_bytes buf.now) result ≡ find (is_named name) (map (header_bytes buf.now) fields.now) }
    ensures within { IfSome result (IsHeaderWithin (length buf.now)) }
{
    for field in fields {
        if has_name(buf, *field, name) {
            return Some(*field);
        }
    }
    None
}
