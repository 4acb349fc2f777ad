//! Whole messages at the front of a buffer.
ghost use Rattle.std.specs.Prelude.{◌≡◌, ◌≢◌, false, ◌≤◌, ◌<◌, ◌++◌, List, ℕ, ◌+◌, MatchResult, IsErrOf, IfOk, OnOk, length};
ghost use Rattle.bt_base.specs.Causes.{Rose};
ghost use Rattle.http_link.specs.Filling.{Fills, Loses};
ghost use Rattle.http_link.specs.declared.room.TheConstants.{FILL_BYTES};
ghost use Rattle.http_head.specs.Heads.{IsHead, IsOpen};
ghost use Rattle.http_head.specs.declared.heads.TheConstants.{HEAD_LIMIT};
ghost use Rattle.http_head.specs.declared.framing.TheConstants.{BODY_LIMIT};
ghost use Rattle.http_serving.specs.Reading.{end_of_origin, FillsLine, GrowsByLine, FoundHead, FoundMessage, Stops, AllowsEnd, IsFault};

use crate::end::End;
use http_head::{Framing, HEAD_LIMIT, Head, HeadRead, read_head};
use http_link::{FillFault, Link, fill};

/// A message at the front of a buffer.
#[derive(Clone, Copy, Debug, PartialEq, Eq)]
pub struct Message {
    /// Its head.
    pub head: Head,
    /// How many bytes its head and its body have.
    pub len: usize,
}

/// Adds some bytes of the link to the buffer, and returns whether there were any.
fn fill_more<L: Link>(link: &mut L, buffer: &mut Vec<u8>) -> Result<bool, End>
    ensures bytes { MatchResult result
        (λ more. Fills (L.left link.old) (L.left link.new) buffer.old.items buffer.new.items more)
        (λ end. Loses (L.left link.old) (L.left link.new) × IsFault end) }
    ensures same_taken { L.taken link.new ≡ L.taken link.old }
    ensures later { L.faults link.old ≤ L.faults link.new }
    ensures failed { IsErrOf result End.LinkFault → Rose (L.faults link.old) (L.faults link.new) }
{
    match fill(link, buffer) {
        Ok(more) => Ok(more),
        Err(FillFault::Memory) => Err(End::Memory),
        Err(FillFault::Failed) => Err(End::LinkFault),
    }
}

/// Adds bytes of the link to the buffer until a line has ended in them, or the buffer has as many as a head may have. Returns
/// whether it did; else the bytes of the link have ended.
fn fill_line<L: Link>(link: &mut L, buffer: &mut Vec<u8>) -> Result<bool, End>
    requires { length buffer.old.items < HEAD_LIMIT }
    ensures bytes { MatchResult result
        (λ more. FillsLine (L.left link.old) (L.left link.new) buffer.old.items buffer.new.items more)
        (λ end. Loses (L.left link.old) (L.left link.new) × IsFault end) }
    ensures by_line { OnOk result (GrowsByLine buffer.old.items buffer.new.items) }
    ensures same_taken { L.taken link.new ≡ L.taken link.old }
    ensures later { L.faults link.old ≤ L.faults link.new }
    ensures failed { IsErrOf result End.LinkFault → Rose (L.faults link.old) (L.faults link.new) }
{
    'line: while buffer.len() < HEAD_LIMIT {
        let from = buffer.len();
        match fill_more(link, buffer) {
            Ok(true) if buffer[from..].contains(&b'\n') => return Ok(true),
            Ok(true) => {}
            Ok(false) => return Ok(false),
            Err(end) => return Err(end),
        }
    }
    Ok(true)
}

/// The end of a connection whose bytes end in these.
fn end_of(buffer: &[u8]) -> End
    requires { IsOpen buffer.now }
    ensures allowed { AllowsEnd buffer.now result }
    ensures no_fault { result ≢ End.LinkFault }
{
    if buffer.is_empty() {
        End::Closed
    } else {
        End::Truncated
    }
}

/// Reads until the buffer begins with a head. It is parsed again only once a further line has ended.
fn find_head<L: Link>(link: &mut L, buffer: &mut Vec<u8>) -> Result<Head, End>
    requires { length buffer.old.items < FILL_BYTES }
    ensures found { MatchResult result
        (λ head. FoundHead (L.left link.old) (L.left link.new) buffer.old.items buffer.new.items head)
        (λ end. Stops (L.left link.old) (L.left link.new) buffer.old.items end) }
    ensures few { IfOk result (λ head. length buffer.new.items < head.len + FILL_BYTES) }
    ensures same_taken { L.taken link.new ≡ L.taken link.old }
    ensures later { L.faults link.old ≤ L.faults link.new }
    ensures failed { IsErrOf result End.LinkFault → Rose (L.faults link.old) (L.faults link.new) }
{
    let mut more = true;
    loop {
        match read_head(buffer) {
            HeadRead::Found(head) => return Ok(head),
            HeadRead::Bad => return Err(End::BadHead),
            HeadRead::TooLong => return Err(End::HeadTooLong),
            HeadRead::More if !more => return Err(end_of(buffer)),
            HeadRead::More => match fill_line(link, buffer) {
                Ok(filled) => more = filled,
                Err(end) => return Err(end),
            },
        }
    }
}

/// Reads until the buffer has the whole message of this head, which has no `Origin`.
fn find_body<L: Link>(
    link: &mut L,
    buffer: &mut Vec<u8>,
    head: Head,
    size: usize,
) -> Result<Message, End>
    requires is_head { (more : List ℕ) → IsHead (buffer.old.items ++ more) head }
    requires short { head.len ≤ HEAD_LIMIT }
    requires small { size ≤ BODY_LIMIT }
    requires framed { head.framing ≡ Framing.Body size }
    requires no_origin { head.has_origin ≡ false }
    requires few { length buffer.old.items < head.len + FILL_BYTES }
    ensures found { MatchResult result
        (λ m. FoundMessage (L.left link.old) (L.left link.new) buffer.old.items buffer.new.items m)
        (λ end. Stops (L.left link.old) (L.left link.new) buffer.old.items end) }
    ensures few { IfOk result (λ m. length buffer.new.items < m.len + FILL_BYTES) }
    ensures same_taken { L.taken link.new ≡ L.taken link.old }
    ensures later { L.faults link.old ≤ L.faults link.new }
    ensures failed { IsErrOf result End.LinkFault → Rose (L.faults link.old) (L.faults link.new) }
{
    let len = head.len + size;
    'body: while buffer.len() < len {
        match fill_more(link, buffer) {
            Ok(true) => {}
            Ok(false) => return Err(End::Truncated),
            Err(end) => return Err(end),
        }
    }
    Ok(Message { head, len })
}

/// The end of a connection at a head with a field `Origin`, whose body has this framing. Faulty fields go first.
fn end_of_origin(framing: Framing) -> End
    ensures { result ≡ end_of_origin framing }
{
    match framing {
        Framing::Bad => End::BadFraming,
        Framing::TooLong | Framing::Body(_) => End::OriginRefused,
    }
}

/// Reads until the buffer begins with a whole message. An error is the end of a connection whose bytes allow it. A head with a
/// field `Origin` is refused before any byte of its body is waited for.
pub fn find_message<L: Link>(link: &mut L, buffer: &mut Vec<u8>) -> Result<Message, End>
    requires { length buffer.old.items < FILL_BYTES }
    ensures found { MatchResult result
        (λ m. FoundMessage (L.left link.old) (L.left link.new) buffer.old.items buffer.new.items m)
        (λ end. Stops (L.left link.old) (L.left link.new) buffer.old.items end) }
    ensures few { IfOk result (λ m. length buffer.new.items < m.len + FILL_BYTES) }
    ensures same_taken { L.taken link.new ≡ L.taken link.old }
    ensures later { L.faults link.old ≤ L.faults link.new }
    ensures failed { IsErrOf result End.LinkFault → Rose (L.faults link.old) (L.faults link.new) }
{
    let head = match find_head(link, buffer) {
        Ok(head) => head,
        Err(end) => return Err(end),
    };
    if head.has_origin {
        return Err(end_of_origin(head.framing));
    }
    match head.framing {
        Framing::Bad => Err(End::BadFraming),
        Framing::TooLong => Err(End::BodyTooLong),
        Framing::Body(size) => find_body(link, buffer, head, size),
    }
}
