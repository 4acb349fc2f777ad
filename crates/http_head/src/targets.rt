//! Bytes that end inside the target of a request. The parser tests a target once it has ended.
ghost use Rattle.std.specs.Prelude.{◌≡◌, ◌≤◌, length, true, false};
ghost use Rattle.std.specs.List.{list_all, prefix_len};
ghost use Rattle.httparse.specs.Grammar.{is_uri_byte, EndsInTarget};
ghost use Rattle.http_head.specs.Targets.{is_no_space};

use crate::heads::{Parsed, ask_parser};

/// How many bytes stand before the first space.
fn before_space(buf: &[u8]) -> usize
    ensures count { result ≡ prefix_len is_no_space buf.now }
    ensures within { result ≤ length buf.now }
{
    let mut at = 0;
    while at < buf.len() && buf[at] != b' ' {
        at += 1;
    }
    at
}

/// Whether each byte may stand in a target.
fn are_of_target(bytes: &[u8]) -> bool
    ensures { result ≡ list_all is_uri_byte bytes.now }
{
    bytes.iter().all(|b| *b > b' ' && *b != 127)
}

/// Whether the bytes end inside a target: after a method and a space, each byte may stand in one.
pub fn ends_in_target(buf: &[u8]) -> bool
    ensures yes { result ≡ true → EndsInTarget buf.now }
    ensures no { result ≡ false → ¬ EndsInTarget buf.now }
{
    let at = before_space(buf);
    if at == buf.len() {
        return false;
    }
    match ask_parser(&buf[..at + 1]) {
        Parsed::Partial => are_of_target(&buf[at + 1..]),
        _ => false,
    }
}
