//! Whole connections over links in memory, cut at each size.
ghost use Rattle.std.specs.Prelude.{◌<◌, ⊤};

use bt_base::{NoMemory, Text};
use http::StatusCode;
use http_link::MemoryLink;
use http_serving::{End, ExtraField, Response, Service, serve_link};
use std::alloc::{AllocError, Global};
use std::test::Fail;

/// A service that adds every pool and knows no job.
#[derive(Clone, Copy, Debug, PartialEq, Eq)]
struct Pools;

impl Service for Pools {
    ghost answers = { λ _ _ _ _. ⊤ };

    fn answer(
        &mut self,
        alloc: Global,
        method: &[u8],
        target: &str,
        _body: &[u8],
    ) -> Result<Response, NoMemory> {
        respond(alloc, method, target)
    }
}

const JOB_NOT_FOUND: &str = "{\"code\":\"JobNotFound\",\"number\":13,\"values\":[]}";

fn response(
    alloc: Global,
    status: StatusCode,
    extra: Option<ExtraField>,
    body: &str,
) -> Result<Response, NoMemory> {
    Ok(Response {
        status,
        extra,
        body: text(alloc, body)?,
    })
}

/// The response to a request with this method and target.
fn respond(alloc: Global, method: &[u8], target: &str) -> Result<Response, NoMemory> {
    match target {
        "/jobs" => {
            let allow = Some(ExtraField::Allow(text(alloc, "POST, GET")?));
            response(alloc, StatusCode::METHOD_NOT_ALLOWED, allow, "{}")
        }
        "/pools" => {
            if method == b"POST".as_slice() {
                response(alloc, StatusCode::CREATED, None, "")
            } else {
                response(alloc, StatusCode::NO_CONTENT, None, "")
            }
        }
        _ => response(alloc, StatusCode::NOT_FOUND, None, JOB_NOT_FOUND),
    }
}

fn text(alloc: Global, text: &str) -> Result<Text, NoMemory> {
    Text::of_string(String::from_str(alloc, text)?)
}

const TWO: &[u8] =
    b"POST /pools HTTP/1.1\r\nHost: localhost\r\nContent-Length: 35\r\n\r\n{\"id\":\"p\",\"targetDedicatedNodes\":1}GET /jobs/x/taskcounts HTTP/1.1\r\nHost: localhost\r\n\r\n";

const ANSWERS: &[u8] =
    b"HTTP/1.1 201 Created\r\nContent-Length: 0\r\n\r\nHTTP/1.1 404 Not Found\r\nContent-Type: application/json\r\nContent-Length: 46\r\n\r\n{\"code\":\"JobNotFound\",\"number\":13,\"values\":[]}";

/// The text in pieces of this size.
fn cut(alloc: Global, text: &[u8], size: usize) -> Result<Vec<Vec<u8>>, AllocError>
    requires { 0 < size }
{
    let mut pieces = Vec::new(alloc);
    for part in text.chunks(size) {
        pieces.push(part.to_vec(alloc)?)?;
    }
    Ok(pieces)
}

/// What a connection of these pieces writes, and its end.
fn serve(alloc: Global, pieces: Vec<Vec<u8>>, fails: Vec<u64>) -> (Option<Vec<u8>>, End) {
    let mut link = MemoryLink::new(alloc, pieces, fails);
    let mut service = Pools;
    let end = serve_link(alloc, &mut link, &mut service);
    (link.into_bytes(), end)
}

/// Whether the text, cut at each size, has this answer and this end.
fn gives(alloc: Global, text: &[u8], answer: &[u8], end: End) -> Result<bool, AllocError> {
    for size in 1..text.len() + 1 {
        let (bytes, ended) = serve(alloc, cut(alloc, text, size)?, Vec::new(alloc));
        let Some(bytes) = bytes else {
            return Ok(false);
        };
        if bytes.as_slice() != answer || ended != end {
            return Ok(false);
        }
    }
    Ok(true)
}

#[test]
fn two_requests_cut_at_each_size_are_answered_alike(rt: HostRuntime) -> Result<(), Fail> {
    assert!(rt; gives(rt.alloc(), TWO, ANSWERS, End::Closed)?);
    Ok(())
}

/// Connections, each with what is written and its end.
const CONNECTIONS: &[(&[u8], &[u8], End)] = &[
    (b"GET /pools", b"", End::Truncated),
    (b"\r\n", b"", End::Truncated),
    (
        b"POST /pools HTTP/1.1\r\nContent-Length: 35\r\n\r\n{",
        b"HTTP/1.1 400 Bad Request\r\nContent-Type: application/json\r\nContent-Length: 44\r\n\r\n{\"code\":\"BadFraming\",\"number\":0,\"values\":[]}",
        End::BadFraming,
    ),
    (
        b"HEAD /x HTTP/1.1\r\nHost: a\r\n\r\nPOST /pools HTTP/1.1\r\nHost: a\r\norigin: http://b\r\nContent-Length: 35\r\n\r\n{",
        b"HTTP/1.1 404 Not Found\r\nContent-Type: application/json\r\nContent-Length: 46\r\n\r\nHTTP/1.1 403 Forbidden\r\nContent-Type: application/json\r\nContent-Length: 47\r\n\r\n{\"code\":\"OriginRefused\",\"number\":0,\"values\":[]}",
        End::OriginRefused,
    ),
    (
        b"GET / HTTP/2",
        b"HTTP/1.1 400 Bad Request\r\nContent-Type: application/json\r\nContent-Length: 41\r\n\r\n{\"code\":\"BadHead\",\"number\":0,\"values\":[]}",
        End::BadHead,
    ),
    (
        b"POST /pools HTTP/1.0\r\nContent-Length: 1048577\r\n\r\n",
        b"HTTP/1.1 413 Payload Too Large\r\nContent-Type: application/json\r\nContent-Length: 45\r\n\r\n{\"code\":\"BodyTooLong\",\"number\":0,\"values\":[]}",
        End::BodyTooLong,
    ),
    (
        b"HEAD /x HTTP/1.1\r\nHost: a\r\n\r\nPUT /jobs HTTP/1.1\r\nHost: a\r\nConnection: keep-alive, Close\r\n\r\nGET",
        b"HTTP/1.1 404 Not Found\r\nContent-Type: application/json\r\nContent-Length: 46\r\n\r\nHTTP/1.1 405 Method Not Allowed\r\nContent-Type: application/json\r\nContent-Length: 2\r\nAllow: POST, GET\r\n\r\n{}",
        End::Asked,
    ),
];

#[test]
fn connections_have_their_ends(rt: HostRuntime) -> Result<(), Fail> {
    for (text, answer, end) in CONNECTIONS {
        assert!(rt; gives(rt.alloc(), text, answer, *end)?);
    }
    Ok(())
}

/// A text, this many times.
fn repeated(alloc: Global, text: &[u8], count: usize) -> Result<Vec<u8>, AllocError> {
    let mut all = Vec::new(alloc);
    for _ in 0..count {
        all.extend_from_slice(text)?;
    }
    Ok(all)
}

#[test]
fn a_connection_has_so_many_requests(rt: HostRuntime) -> Result<(), Fail> {
    let alloc = rt.alloc();
    let requests = repeated(alloc, b"GET /pools HTTP/1.1\r\nHost: a\r\n\r\n", 10_001)?;
    let (bytes, end) = serve(alloc, cut(alloc, &requests, 5_000)?, Vec::new(alloc));
    let answers = repeated(alloc, b"HTTP/1.1 204 No Content\r\n\r\n", 10_000)?;
    assert!(rt; bytes.ok_or("memory was ample")? == answers);
    assert_eq!(rt; end, End::Spent);
    Ok(())
}

#[test]
fn a_head_has_so_many_fields(rt: HostRuntime) -> Result<(), Fail> {
    let alloc = rt.alloc();
    let mut head = repeated(alloc, b"GET / HTTP/1.1\n", 1)?;
    head.extend_from_slice(&repeated(alloc, b"a: b\n", 65)?)?;
    assert!(rt;
        gives(
            alloc,
            &head,
            b"HTTP/1.1 431 Request Header Fields Too Large\r\nContent-Type: application/json\r\nContent-Length: 45\r\n\r\n{\"code\":\"HeadTooLong\",\"number\":0,\"values\":[]}",
            End::HeadTooLong
        )?
    );
    Ok(())
}

#[test]
fn a_fault_ends_a_connection(rt: HostRuntime) -> Result<(), Fail> {
    let alloc = rt.alloc();
    let (bytes, end) = serve(alloc, cut(alloc, TWO, 20)?, [3].to_vec(alloc)?);
    assert!(rt; bytes.ok_or("memory was ample")?.is_empty());
    assert_eq!(rt; end, End::LinkFault);
    Ok(())
}
