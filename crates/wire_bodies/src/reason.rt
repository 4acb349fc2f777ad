//! Reasons with which jobs are terminated.
ghost use Rattle.std.specs.Prelude.{◌≡◌, ◌||◌, nat_lt, nat_eq};
ghost use Rattle.bt_rows.specs.Ranges.{passes_if_some, begins_control, has_control, is_reason};

use bt_base::Text;
use bt_rows::limits::REASON_LIMIT;

/// Whether the byte is the first of a character from U+0080 to U+009F, in UTF-8.
fn begins_control(byte: u8, rest: &[u8]) -> bool
    ensures { result ≡ begins_control byte rest.now }
{
    match rest.first() {
        None => false,
        Some(next) => byte == 194 && *next < 160,
    }
}

/// Whether a control character begins with this byte: one below U+0020, U+007F, or one from U+0080 to U+009F.
fn is_control(byte: u8, rest: &[u8]) -> bool
    ensures { result ≡ (nat_lt byte 32 || nat_eq byte 127 || begins_control byte rest.now) }
{
    byte < 32 || byte == 127 || begins_control(byte, rest)
}

/// Whether the text has a control character.
fn has_control(text: &[u8]) -> bool
    ensures { result ≡ has_control text.now }
{
    let mut left = text;
    while let Some((byte, rest)) = left.split_first() {
        if is_control(*byte, rest) {
            return true;
        }
        left = rest;
    }
    false
}

/// Whether it has 1 to 256 bytes, none of them of a control character.
fn is_reason(reason: &str) -> bool
    ensures { result ≡ is_reason reason.now }
{
    let bytes = reason.as_bytes();
    1 <= bytes.len() && bytes.len() <= REASON_LIMIT && !has_control(bytes)
}

/// Whether it has 1 to 256 bytes, none of them of a control character, if there is a reason. It does not allocate.
pub fn is_reason_if_some(reason: &Option<Text>) -> bool
    ensures { result ≡ passes_if_some is_reason reason.now }
{
    match reason {
        None => true,
        Some(reason) => is_reason(reason.as_str()),
    }
}
