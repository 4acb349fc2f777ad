//! The texts of responses.
ghost use Rattle.std.specs.Prelude.{◌≡◌, IfOk, None};
ghost use Rattle.std.specs.String.{string_bytes};
ghost use Rattle.http_serving.specs.Responses.{phrase_of, content_of, type_line, length_line, extra_line, joined_text, text_with, text_of, end_status, end_body, end_text};

use crate::end::End;
use crate::response::{ExtraField, Response, StopCause};
use http::StatusCode;
use std::alloc::{AllocError, Global};

/// The reason phrase of a status.
#[tactic(auto, unfolding(crate::specs::Responses::phrase_of))]
fn phrase(status: StatusCode) -> &'static str
    ensures { result.now ≡ phrase_of status }
{
    status.canonical_reason().unwrap_or("")
}

/// The content of a response with this body.
fn content_of(status: StatusCode, body: &str) -> &str
    ensures { result.now ≡ content_of status body.now }
{
    if status == StatusCode::NO_CONTENT {
        ""
    } else {
        body
    }
}

/// The line of the content's media type.
#[tactic(auto, unfolding(crate::specs::Responses::type_line))]
fn type_line(content: &str) -> &'static str
    ensures { result.now ≡ type_line content.now }
{
    if content.is_empty() {
        ""
    } else {
        "Content-Type: application/json\r\n"
    }
}

/// The line of the content's length.
#[tactic(auto, unfolding(crate::specs::Responses::length_line))]
fn length_line(alloc: Global, status: StatusCode, content: &str) -> Result<String, AllocError>
    ensures { IfOk result (λ text. string_bytes text ≡ length_line status content.now) }
{
    if status == StatusCode::NO_CONTENT {
        return Ok(String::new(alloc));
    }
    let name = "Content-Length: ";
    let length = content.len();
    let line_end = "\r\n";
    format!(in alloc; "{name}{length}{line_end}")
}

/// The line of the field that only some responses have.
#[tactic(auto, unfolding(crate::specs::Responses::extra_line))]
fn extra_line(alloc: Global, extra: &Option<ExtraField>) -> Result<String, AllocError>
    ensures { IfOk result (λ text. string_bytes text ≡ extra_line extra.now) }
{
    match extra {
        None => Ok(String::new(alloc)),
        Some(ExtraField::Allow(methods)) => {
            let name = "Allow: ";
            let value = methods.as_str();
            let line_end = "\r\n";
            format!(in alloc; "{name}{value}{line_end}")
        }
        Some(ExtraField::BatchStop(StopCause::KeeperFault)) => {
            String::from_str(alloc, "Batch-Stop: fault\r\n")
        }
        Some(ExtraField::BatchStop(StopCause::Memory)) => {
            String::from_str(alloc, "Batch-Stop: memory\r\n")
        }
    }
}

/// The lines of a head, and what follows them.
#[tactic(auto, unfolding(crate::specs::Responses::joined_text))]
fn join(
    alloc: Global,
    status: u16,
    phrase: &str,
    type_line: &str,
    length_line: &str,
    extra_line: &str,
    content: &str,
) -> Result<String, AllocError>
    ensures { IfOk result (λ text. string_bytes text
        ≡ joined_text status phrase.now type_line.now length_line.now extra_line.now content.now) }
{
    let version = "HTTP/1.1 ";
    let space = " ";
    let line_end = "\r\n";
    format!(in alloc;
        "{version}{status}{space}{phrase}{line_end}{type_line}{length_line}{extra_line}{line_end}{content}"
    )
}

/// The text of a response with these parts; with `to_head` it answers a request HEAD, and has no content.
fn text_with(
    alloc: Global,
    to_head: bool,
    status: StatusCode,
    extra: &Option<ExtraField>,
    body: &str,
) -> Result<String, AllocError>
    ensures { IfOk result (λ text. string_bytes text ≡ text_with to_head status extra.now body.now) }
{
    let content = content_of(status, body);
    let length = length_line(alloc, status, content)?;
    let extra = extra_line(alloc, extra)?;
    let shown = if to_head { "" } else { content };
    join(
        alloc,
        status.as_u16(),
        phrase(status),
        type_line(content),
        &length,
        &extra,
        shown,
    )
}

/// The text of a response.
pub fn response_text(
    alloc: Global,
    to_head: bool,
    response: &Response,
) -> Result<String, AllocError>
    ensures { IfOk result (λ text. string_bytes text ≡ text_of to_head response.now) }
{
    text_with(
        alloc,
        to_head,
        response.status,
        &response.extra,
        response.body.as_str(),
    )
}

/// The status of the answer before an end.
fn end_status(end: End) -> StatusCode
    ensures { result ≡ end_status end }
{
    match end {
        End::HeadTooLong => StatusCode::REQUEST_HEADER_FIELDS_TOO_LARGE,
        End::BodyTooLong => StatusCode::PAYLOAD_TOO_LARGE,
        End::OriginRefused => StatusCode::FORBIDDEN,
        _ => StatusCode::BAD_REQUEST,
    }
}

/// The body of the answer before an end.
#[tactic(auto, unfolding(crate::specs::Responses::end_body))]
fn end_body(end: End) -> &'static str
    ensures { result.now ≡ end_body end }
{
    match end {
        End::HeadTooLong => "{\"code\":\"HeadTooLong\",\"number\":0,\"values\":[]}",
        End::BodyTooLong => "{\"code\":\"BodyTooLong\",\"number\":0,\"values\":[]}",
        End::BadFraming => "{\"code\":\"BadFraming\",\"number\":0,\"values\":[]}",
        End::OriginRefused => "{\"code\":\"OriginRefused\",\"number\":0,\"values\":[]}",
        _ => "{\"code\":\"BadHead\",\"number\":0,\"values\":[]}",
    }
}

/// The answer before an end that what the peer sent brought about.
pub fn end_text(alloc: Global, end: End) -> Result<String, AllocError>
    ensures { IfOk result (λ text. string_bytes text ≡ end_text end) }
{
    text_with(alloc, false, end_status(end), &None, end_body(end))
}
