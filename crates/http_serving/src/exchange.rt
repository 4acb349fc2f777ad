//! One exchange of a connection: a message is read, answered and taken from the buffer.
ghost use Rattle.std.specs.Prelude.{◌≡◌, ◌≤◌, ◌<◌, ◌⊎◌, drop, length, OnOk, OnErr, IsErrOf, MatchResult, vec_len, IsUtf8};
ghost use Rattle.std.specs.Str.{bytes_eq};
ghost use Rattle.httparse.specs.Spans.{IsWithin, span_bytes};
ghost use Rattle.bt_base.specs.Causes.{Rose};
ghost use Rattle.byte_streams.specs.Content.{Gains};
ghost use Rattle.http_link.specs.Writing.{GainsPart};
ghost use Rattle.http_link.specs.declared.room.TheConstants.{FILL_BYTES};
ghost use Rattle.http_serving.specs.Responses.{head_text, text_of};
ghost use Rattle.http_serving.specs.Reading.{IsFault};
ghost use Rattle.http_serving.specs.Connection.{IsClosed};
ghost use Rattle.http_serving.specs.Stages.{request_in, Answers, BreaksOff, Steps, Ends};

use crate::end::End;
use crate::messages::{Message, find_message};
use crate::response::Response;
use crate::service::Service;
use crate::texts::{end_text, response_text};
use bt_base::NoMemory;
use byte_streams::Failed;
use http_link::{Link, write_all};
use std::alloc::Global;
use std::str;

/// Whether the method is HEAD.
#[tactic(auto, unfolding(crate::specs::Responses::head_text))]
fn is_head(method: &[u8]) -> bool
    ensures { result ≡ bytes_eq method.now head_text }
{
    method == b"HEAD".as_slice()
}

/// Writes a response.
fn write_response<L: Link>(
    alloc: Global,
    link: &mut L,
    to_head: bool,
    response: &Response,
) -> Result<(), End>
    ensures written { MatchResult result
        (λ _. Gains (L.taken link.old) (L.taken link.new) (text_of to_head response.now))
        (λ end. GainsPart (L.taken link.old) (L.taken link.new) (text_of to_head response.now) × IsFault end) }
    ensures same_left { L.left link.new ≡ L.left link.old }
    ensures later { L.faults link.old ≤ L.faults link.new }
    ensures failed { IsErrOf result End.LinkFault → Rose (L.faults link.old) (L.faults link.new) }
{
    let Ok(text) = response_text(alloc, to_head, response) else {
        return Err(End::Memory);
    };
    match write_all(link, text.as_bytes()) {
        Ok(()) => Ok(()),
        Err(Failed) => Err(End::LinkFault),
    }
}

/// Has the service answer a request, and writes the response.
fn answer_request<L: Link, S: Service>(
    alloc: Global,
    link: &mut L,
    method: &[u8],
    target: &str,
    body: &[u8],
    service: &mut S,
) -> Result<(), End>
    ensures answered { MatchResult result
        (λ _. Answers S.answers service.old service.new (record { method = method.now; target = target.now; body = body.now }) (L.taken link.old) (L.taken link.new))
        (λ end. BreaksOff S.answers service.old service.new (record { method = method.now; target = target.now; body = body.now }) (L.taken link.old) (L.taken link.new) end) }
    ensures same_left { L.left link.new ≡ L.left link.old }
    ensures later { L.faults link.old ≤ L.faults link.new }
    ensures failed { IsErrOf result End.LinkFault → Rose (L.faults link.old) (L.faults link.new) }
{
    match service.answer(alloc, method, target, body) {
        Ok(response) => write_response(alloc, link, is_head(method), &response),
        Err(NoMemory) => Err(End::Memory),
    }
}

/// Answers the message at the front of the buffer.
fn answer_message<L: Link, S: Service>(
    alloc: Global,
    link: &mut L,
    buffer: &[u8],
    message: Message,
    service: &mut S,
) -> Result<(), End>
    requires method { IsWithin (length buffer.now) message.head.method }
    requires target { IsWithin (length buffer.now) message.head.target }
    requires text { IsUtf8 (span_bytes buffer.now message.head.target) }
    requires ordered { message.head.len ≤ message.len }
    requires whole { message.len ≤ length buffer.now }
    ensures answered { MatchResult result
        (λ _. Answers S.answers service.old service.new (request_in buffer.now message) (L.taken link.old) (L.taken link.new))
        (λ end. BreaksOff S.answers service.old service.new (request_in buffer.now message) (L.taken link.old) (L.taken link.new) end) }
    ensures same_left { L.left link.new ≡ L.left link.old }
    ensures later { L.faults link.old ≤ L.faults link.new }
    ensures failed { IsErrOf result End.LinkFault → Rose (L.faults link.old) (L.faults link.new) }
{
    let method = message.head.method.of(buffer);
    let Ok(target) = str::from_utf8(message.head.target.of(buffer)) else {
        unreachable!()
    };
    let body = &buffer[message.head.len..message.len];
    answer_request(alloc, link, method, target, body, service)
}

/// Writes the answer before an end, if there is one, and returns how the connection ends then.
fn end_with<L: Link>(alloc: Global, link: &mut L, end: End) -> End
    ensures closed { IsClosed end result (L.taken link.old) (L.taken link.new) }
    ensures same_left { L.left link.new ≡ L.left link.old }
    ensures later { L.faults link.old ≤ L.faults link.new }
    ensures failed { result ≡ End.LinkFault → (end ≡ End.LinkFault) ⊎ Rose (L.faults link.old) (L.faults link.new) }
{
    match end {
        End::BadHead | End::BadFraming | End::OriginRefused | End::HeadTooLong | End::BodyTooLong =>
            {
                let Ok(text) = end_text(alloc, end) else {
                    return End::Memory;
                };
                match write_all(link, text.as_bytes()) {
                    Ok(()) => end,
                    Err(Failed) => End::LinkFault,
                }
            }
        _ => end,
    }
}

/// Takes the first bytes from the buffer.
fn drop_front(buffer: &mut Vec<u8>, count: usize)
    requires { count ≤ vec_len buffer.old }
    ensures { buffer.new.items ≡ drop count buffer.old.items }
{
    let rest = buffer.len() - count;
    buffer.copy_within(count.., 0);
    buffer.truncate(rest);
}

/// Answers the next request, and returns whether it is the last one. An error is the end of the connection.
pub fn serve_one<L: Link, S: Service>(
    alloc: Global,
    link: &mut L,
    buffer: &mut Vec<u8>,
    service: &mut S,
) -> Result<bool, End>
    requires { length buffer.old.items < FILL_BYTES }
    ensures served { MatchResult result
        (λ last. Steps S.answers service.old service.new (L.left link.old) (L.left link.new) buffer.old.items buffer.new.items (L.taken link.old) (L.taken link.new) last)
        (λ end. Ends S.answers service.old service.new (L.left link.old) (L.left link.new) buffer.old.items (L.taken link.old) (L.taken link.new) end) }
    ensures few { OnOk result (length buffer.new.items < FILL_BYTES) }
    ensures later { L.faults link.old ≤ L.faults link.new }
    ensures failed { IsErrOf result End.LinkFault → Rose (L.faults link.old) (L.faults link.new) }
{
    let message = match find_message(link, buffer) {
        Ok(message) => message,
        Err(end) => return Err(end_with(alloc, link, end)),
    };
    match answer_message(alloc, link, buffer, message, service) {
        Ok(()) => {
            drop_front(buffer, message.len);
            Ok(message.head.is_last)
        }
        Err(end) => Err(end),
    }
}
