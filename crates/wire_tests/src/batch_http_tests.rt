//! Connections over a desk whose tables are kept in memory. What is written stands here by hand, from the profile's rules.
ghost use Rattle.std.specs.Prelude.{◌<◌};

use batch_desk::Desk;
use batch_http::{HttpService, serve};
use batch_keeper::MemoryKeeper;
use bt_clock::ListClock;
use bt_rows::tables::Tables;
use http_link::MemoryLink;
use http_serving::End;
use std::alloc::{AllocError, Global};
use std::test::Fail;

/// A service over a desk in memory.
type Served = HttpService<Desk<MemoryKeeper>, ListClock>;

/// The text in pieces of this size.
fn cut(alloc: Global, text: &[u8], size: usize) -> Result<Vec<Vec<u8>>, AllocError>
    requires { 0 < size }
{
    let mut pieces = Vec::new(alloc);
    for part in text.chunks(size) {
        pieces.push(part.to_vec(alloc)?)?;
    }
    Ok(pieces)
}

/// A desk over this keeper, whose journal takes so many calls.
fn open_desk(alloc: Global, keeper: MemoryKeeper, limit: u32) -> Result<Desk<MemoryKeeper>, Fail> {
    match Desk::open(alloc, keeper, 8, limit) {
        Ok(desk) => Ok(desk),
        Err((keeper, _error)) => {
            drop(keeper);
            Err("the keeper fails".into())
        }
    }
}

/// A service over this desk.
fn make_service(alloc: Global, desk: Desk<MemoryKeeper>, clock: ListClock) -> Result<Served, Fail> {
    match HttpService::new(alloc, desk, clock) {
        Ok(service) => Ok(service),
        Err((desk, clock)) => {
            drop(desk);
            drop(clock);
            Err("memory is ample".into())
        }
    }
}

/// A service over empty tables, whose keeper fails at these calls, and over a journal of so many calls.
pub(crate) fn new_service(alloc: Global, fails: &[u64], limit: u32) -> Result<Served, Fail> {
    let keeper = MemoryKeeper::new(Tables::empty(alloc), fails.to_vec(alloc)?);
    let desk = open_desk(alloc, keeper, limit)?;
    make_service(alloc, desk, ListClock::new(Vec::new(alloc), 0))
}

/// What a connection of these pieces writes, and its end.
fn serve_pieces(
    alloc: Global,
    service: &mut Served,
    pieces: Vec<Vec<u8>>,
) -> Result<(Vec<u8>, End), Fail> {
    let mut link = MemoryLink::new(alloc, pieces, Vec::new(alloc));
    let end = serve(alloc, &mut link, service);
    Ok((link.into_bytes().ok_or("memory is ample")?, end))
}

/// Whether a connection with this text, cut in pieces of this size, has this answer and this end.
pub(crate) fn answers(
    alloc: Global,
    service: &mut Served,
    text: &[u8],
    size: usize,
    answer: &[u8],
    end: End,
) -> Result<bool, Fail>
    requires { 0 < size }
{
    let pieces = cut(alloc, text, size)?;
    let (bytes, ended) = serve_pieces(alloc, service, pieces)?;
    Ok(bytes.as_slice() == answer && ended == end)
}

/// Whether the text has this answer and this end over a new desk, whose keeper fails at these calls and whose journal takes so many.
fn gives_with(
    alloc: Global,
    failing: (&[u64], u32),
    text: &[u8],
    size: usize,
    answer: &[u8],
    end: End,
) -> Result<bool, Fail>
    requires { 0 < size }
{
    let (fails, limit) = failing;
    let mut service = new_service(alloc, fails, limit)?;
    let found = answers(alloc, &mut service, text, size, answer, end);
    let (desk, clock) = service.into_parts();
    drop(desk);
    drop(clock);
    found
}

/// Whether the text has this answer and this end over a new desk.
pub(crate) fn gives(
    alloc: Global,
    text: &[u8],
    size: usize,
    answer: &[u8],
    end: End,
) -> Result<bool, Fail>
    requires { 0 < size }
{
    gives_with(alloc, (&[], 100), text, size, answer, end)
}

const TWO: &[u8] =
    b"POST /pools HTTP/1.1\r\nHost: localhost\r\nContent-Length: 35\r\n\r\n{\"id\":\"p\",\"targetDedicatedNodes\":1}GET /jobs/x/taskcounts HTTP/1.1\r\nHost: localhost\r\n\r\n";

const TWO_ANSWERS: &[u8] =
    b"HTTP/1.1 201 Created\r\nContent-Length: 0\r\n\r\nHTTP/1.1 404 Not Found\r\nContent-Type: application/json\r\nContent-Length: 46\r\n\r\n{\"code\":\"JobNotFound\",\"number\":13,\"values\":[]}";

#[test]
fn a_pool_is_added_and_a_job_is_not_there_however_the_bytes_are_cut(
    rt: HostRuntime,
) -> Result<(), Fail> {
    for size in 1..TWO.len() + 1 {
        assert!(rt;
            gives(rt.alloc(), TWO, size, TWO_ANSWERS, End::Closed)?,
            "{size}"
        );
    }
    Ok(())
}

pub(crate) const BAD_HEAD: &[u8] =
    b"HTTP/1.1 400 Bad Request\r\nContent-Type: application/json\r\nContent-Length: 41\r\n\r\n{\"code\":\"BadHead\",\"number\":0,\"values\":[]}";

pub(crate) const BAD_FRAMING: &[u8] =
    b"HTTP/1.1 400 Bad Request\r\nContent-Type: application/json\r\nContent-Length: 44\r\n\r\n{\"code\":\"BadFraming\",\"number\":0,\"values\":[]}";

const BODY_TOO_LONG: &[u8] =
    b"HTTP/1.1 413 Payload Too Large\r\nContent-Type: application/json\r\nContent-Length: 45\r\n\r\n{\"code\":\"BodyTooLong\",\"number\":0,\"values\":[]}";

const ROUTE_NOT_FOUND: &[u8] =
    b"HTTP/1.1 404 Not Found\r\nContent-Type: application/json\r\nContent-Length: 47\r\n\r\n{\"code\":\"RouteNotFound\",\"number\":0,\"values\":[]}";

const HEAD_TOO_LONG: &[u8] =
    b"HTTP/1.1 431 Request Header Fields Too Large\r\nContent-Type: application/json\r\nContent-Length: 45\r\n\r\n{\"code\":\"HeadTooLong\",\"number\":0,\"values\":[]}";

/// Lists by pages, routes and methods, and the heads of real clients, each with what is written and the end.
const CONNECTIONS: &[(&[u8], &[u8], End)] = &[
    (
        b"POST /pools HTTP/1.1\r\nHost: localhost\r\nContent-Length: 35\r\n\r\n{\"id\":\"p\",\"targetDedicatedNodes\":1}POST /jobs HTTP/1.1\r\nHost: localhost\r\nContent-Length: 36\r\n\r\n{\"id\":\"a\",\"poolInfo\":{\"poolId\":\"p\"}}POST /jobs HTTP/1.1\r\nHost: localhost\r\nContent-Length: 36\r\n\r\n{\"id\":\"b\",\"poolInfo\":{\"poolId\":\"p\"}}POST /jobs HTTP/1.1\r\nHost: localhost\r\nContent-Length: 36\r\n\r\n{\"id\":\"c\",\"poolInfo\":{\"poolId\":\"p\"}}GET /jobs?maxresults=2&after=A HTTP/1.1\r\nHost: localhost\r\n\r\nGET /jobs?maxresults=2 HTTP/1.1\r\nHost: localhost\r\n\r\nGET /jobs?api-version=1&maxresults=1&after=c HTTP/1.1\r\nHost: localhost\r\n\r\n",
        b"HTTP/1.1 201 Created\r\nContent-Length: 0\r\n\r\nHTTP/1.1 201 Created\r\nContent-Length: 0\r\n\r\nHTTP/1.1 201 Created\r\nContent-Length: 0\r\n\r\nHTTP/1.1 201 Created\r\nContent-Length: 0\r\n\r\nHTTP/1.1 200 OK\r\nContent-Type: application/json\r\nContent-Length: 163\r\n\r\n{\"value\":[{\"id\":\"b\",\"maxParallelTasks\":-1,\"poolId\":\"p\",\"priority\":0,\"state\":\"active\"},{\"id\":\"c\",\"maxParallelTasks\":-1,\"poolId\":\"p\",\"priority\":0,\"state\":\"active\"}]}HTTP/1.1 200 OK\r\nContent-Type: application/json\r\nContent-Length: 179\r\n\r\n{\"nextAfter\":\"b\",\"value\":[{\"id\":\"a\",\"maxParallelTasks\":-1,\"poolId\":\"p\",\"priority\":0,\"state\":\"active\"},{\"id\":\"b\",\"maxParallelTasks\":-1,\"poolId\":\"p\",\"priority\":0,\"state\":\"active\"}]}HTTP/1.1 200 OK\r\nContent-Type: application/json\r\nContent-Length: 12\r\n\r\n{\"value\":[]}",
        End::Closed,
    ),
    (
        b"PUT /jobs HTTP/1.1\r\nHost: localhost\r\n\r\nGET /x HTTP/1.1\r\nHost: localhost\r\n\r\nHEAD /jobs/j/tasks/t HTTP/1.1\r\nHost: localhost\r\n\r\n",
        b"HTTP/1.1 405 Method Not Allowed\r\nContent-Type: application/json\r\nContent-Length: 50\r\nAllow: POST, GET\r\n\r\n{\"code\":\"MethodNotAllowed\",\"number\":0,\"values\":[]}HTTP/1.1 404 Not Found\r\nContent-Type: application/json\r\nContent-Length: 47\r\n\r\n{\"code\":\"RouteNotFound\",\"number\":0,\"values\":[]}HTTP/1.1 405 Method Not Allowed\r\nContent-Type: application/json\r\nContent-Length: 50\r\nAllow: GET, DELETE\r\n\r\n",
        End::Closed,
    ),
    (
        b"POST /jobs/j/tasks?api-version=2022-10-01.16.0&timeout=30 HTTP/1.1\r\nHost: 127.0.0.1:8080\r\nUser-Agent: python/3.11.2 (Linux-6.1.0-x86_64) msrest/0.6.21 msrest_azure/0.6.4 azure-batch/13.0.1 Azure-SDK-For-Python\r\nAccept-Encoding: gzip, deflate\r\nAccept: application/json\r\nConnection: keep-alive\r\nContent-Type: application/json; odata=minimalmetadata; charset=utf-8\r\nclient-request-id: f6983b34-0000-4000-8000-000000000000\r\naccept-language: en-US\r\nocp-date: Fri, 27 Nov 2026 01:57:55 GMT\r\nAuthorization: SharedKey dummy:msGe+/=\r\nContent-Length: 89\r\n\r\n{\"id\": \"t\", \"commandLine\": \"/bin/true\", \"constraints\": {\"maxWallClockTime\": \"PT1M30.5S\"}}POST /jobs/j/terminate?api-version=2022-10-01.16.0 HTTP/1.1\r\nHost: 127.0.0.1:8080\r\nUser-Agent: python/3.11.2 (Linux-6.1.0-x86_64) msrest/0.6.21 msrest_azure/0.6.4 azure-batch/13.0.1 Azure-SDK-For-Python\r\nAccept-Encoding: gzip, deflate\r\nAccept: application/json\r\nConnection: close\r\nContent-Type: application/json; odata=minimalmetadata; charset=utf-8\r\nclient-request-id: f6983b34-0000-4000-8000-000000000000\r\naccept-language: en-US\r\nocp-date: Fri, 27 Nov 2026 01:57:55 GMT\r\nAuthorization: SharedKey dummy:msGe+/=\r\nContent-Length: 0\r\n\r\nGET",
        b"HTTP/1.1 404 Not Found\r\nContent-Type: application/json\r\nContent-Length: 46\r\n\r\n{\"code\":\"JobNotFound\",\"number\":13,\"values\":[]}HTTP/1.1 404 Not Found\r\nContent-Type: application/json\r\nContent-Length: 46\r\n\r\n{\"code\":\"JobNotFound\",\"number\":13,\"values\":[]}",
        End::Asked,
    ),
    (
        b"GET /jobs HTTP/1.1\r\nHost: 127.0.0.1:8080\r\nUser-Agent: curl/7.88.1\r\nAccept: */*\r\n\r\nPOST /pools HTTP/1.1\r\nHost: 127.0.0.1:8080\r\nUser-Agent: curl/7.88.1\r\nAccept: */*\r\nContent-Length: 35\r\nContent-Type: application/x-www-form-urlencoded\r\n\r\n{\"id\":\"p\",\"targetDedicatedNodes\":1}POST /pools HTTP/1.1\r\nHost: 127.0.0.1:8080\r\nAccept-Encoding: identity\r\nContent-Length: 35\r\n\r\n{\"id\":\"q\",\"targetDedicatedNodes\":1}DELETE /jobs/x HTTP/1.1\r\nHost: 127.0.0.1:8080\r\nUser-Agent: python-requests/2.28.1\r\nAccept-Encoding: gzip, deflate\r\nAccept: */*\r\nConnection: keep-alive\r\nContent-Length: 0\r\n\r\n",
        b"HTTP/1.1 200 OK\r\nContent-Type: application/json\r\nContent-Length: 12\r\n\r\n{\"value\":[]}HTTP/1.1 201 Created\r\nContent-Length: 0\r\n\r\nHTTP/1.1 201 Created\r\nContent-Length: 0\r\n\r\nHTTP/1.1 404 Not Found\r\nContent-Type: application/json\r\nContent-Length: 46\r\n\r\n{\"code\":\"JobNotFound\",\"number\":13,\"values\":[]}",
        End::Closed,
    ),
    (
        b"GET /x HTTP/1.1\r\nHost: a\0b\r\n\r\n",
        BAD_HEAD,
        End::BadHead,
    ),
    (
        b"GET /x\0 HTTP/1.1\r\nHost: a\r\n\r\n",
        BAD_HEAD,
        End::BadHead,
    ),
    (
        b"GET /x HTTP/1.1\nHost: a\n\n",
        ROUTE_NOT_FOUND,
        End::Closed,
    ),
    (
        b"GET /x HTTP/1.1\r\nHost: a\rb\r\n\r\n",
        BAD_HEAD,
        End::BadHead,
    ),
    (
        b"GET /x HTTP/1.1\r\nHost: a\r\nA: b\r\n c\r\n\r\n",
        BAD_HEAD,
        End::BadHead,
    ),
    (
        b"GET /x HTTP/1.1\r\nHost: a\r\nA : b\r\n\r\n",
        BAD_HEAD,
        End::BadHead,
    ),
    (
        b"GET /x HTTP/1.1\r\nHost: a\r\nA\r\n\r\n",
        BAD_HEAD,
        End::BadHead,
    ),
    (b"GET /x\r\n", BAD_HEAD, End::BadHead),
    (b"PRI * HTTP/2.0\r\n\r\nSM\r\n\r\n", BAD_HEAD, End::BadHead),
    (
        b"GET http://a/jobs HTTP/1.1\r\nHost: a\r\n\r\n",
        ROUTE_NOT_FOUND,
        End::Closed,
    ),
    (
        b"GET /x HTTP/1.1\r\nHost: a\r\nHost: b\r\n\r\n",
        BAD_FRAMING,
        End::BadFraming,
    ),
    (
        b"GET /x HTTP/1.1\r\nHost: a\r\nContent-Length: +1\r\n\r\nx",
        BAD_FRAMING,
        End::BadFraming,
    ),
    (
        b"GET /x HTTP/1.1\r\nHost: a\r\nContent-Length: -1\r\n\r\nx",
        BAD_FRAMING,
        End::BadFraming,
    ),
    (
        b"GET /x HTTP/1.1\r\nHost: a\r\nContent-Length: 00000000001\r\n\r\nx",
        BAD_FRAMING,
        End::BadFraming,
    ),
    (
        b"GET /x HTTP/1.1\r\nHost: a\r\nContent-Length: 1\r\nContent-Length: 1\r\n\r\nx",
        BAD_FRAMING,
        End::BadFraming,
    ),
    (
        b"GET /x HTTP/1.1\r\nHost: a\r\nTransfer-Encoding: chunked\r\n\r\n0\r\n\r\n",
        BAD_FRAMING,
        End::BadFraming,
    ),
    (
        b"GET /x HTTP/1.1\r\nHost: a\r\nContent-Length: 9999999999\r\n\r\n",
        BODY_TOO_LONG,
        End::BodyTooLong,
    ),
    (
        b"POST /pools HTTP/1.1\r\nHost: localhost\r\nContent-Length: 1048577\r\n\r\n",
        BODY_TOO_LONG,
        End::BodyTooLong,
    ),
    (
        b"POST /pools HTTP/1.1\r\nContent-Length: 35\r\n\r\n{\"id\":\"p\",\"targetDedicatedNodes\":1}",
        BAD_FRAMING,
        End::BadFraming,
    ),
    (
        b"GET /x HTTP/1.1\r\nHost: a\r\nA: 1\r\nA: 1\r\nA: 1\r\nA: 1\r\nA: 1\r\nA: 1\r\nA: 1\r\nA: 1\r\nA: 1\r\nA: 1\r\nA: 1\r\nA: 1\r\nA: 1\r\nA: 1\r\nA: 1\r\nA: 1\r\nA: 1\r\nA: 1\r\nA: 1\r\nA: 1\r\nA: 1\r\nA: 1\r\nA: 1\r\nA: 1\r\nA: 1\r\nA: 1\r\nA: 1\r\nA: 1\r\nA: 1\r\nA: 1\r\nA: 1\r\nA: 1\r\nA: 1\r\nA: 1\r\nA: 1\r\nA: 1\r\nA: 1\r\nA: 1\r\nA: 1\r\nA: 1\r\nA: 1\r\nA: 1\r\nA: 1\r\nA: 1\r\nA: 1\r\nA: 1\r\nA: 1\r\nA: 1\r\nA: 1\r\nA: 1\r\nA: 1\r\nA: 1\r\nA: 1\r\nA: 1\r\nA: 1\r\nA: 1\r\nA: 1\r\nA: 1\r\nA: 1\r\nA: 1\r\nA: 1\r\nA: 1\r\nA: 1\r\nA: 1\r\n\r\n",
        HEAD_TOO_LONG,
        End::HeadTooLong,
    ),
    (b"GET /poo", b"", End::Truncated),
    (b"GET /\xff", b"", End::Truncated),
    (
        b"GET /\xff HTTP/1.1\r\nHost: a\r\n\r\n",
        BAD_HEAD,
        End::BadHead,
    ),
];

#[test]
fn connections_are_answered_and_end(rt: HostRuntime) -> Result<(), Fail> {
    for (text, answer, end) in CONNECTIONS {
        for size in [1, 7, 20_000] {
            assert!(rt; gives(rt.alloc(), text, size, answer, *end)?, "{answer:?}");
        }
    }
    Ok(())
}

/// A text, this many times.
fn repeated(alloc: Global, text: &[u8], count: usize) -> Result<Vec<u8>, AllocError> {
    let mut all = Vec::new(alloc);
    for _ in 0..count {
        all.extend_from_slice(text)?;
    }
    Ok(all)
}

const LONG_BODY: &[u8] =
    b"POST /pools HTTP/1.1\r\nHost: localhost\r\nContent-Length: 1048576\r\n\r\n";

pub(crate) const UNREADABLE: &[u8] =
    b"HTTP/1.1 400 Bad Request\r\nContent-Type: application/json\r\nContent-Length: 48\r\n\r\n{\"code\":\"UnreadableBody\",\"number\":1,\"values\":[]}";

#[test]
fn the_longest_body_is_read_and_a_head_of_16384_bytes_has_ended(
    rt: HostRuntime,
) -> Result<(), Fail> {
    let alloc = rt.alloc();
    let mut text = LONG_BODY.to_vec(alloc)?;
    text.extend_from_slice(&repeated(alloc, b" ", 1_048_576)?)?;
    assert!(rt; gives(alloc, &text, 60_000, UNREADABLE, End::Closed)?);
    let mut text = b"GET /".to_vec(alloc)?;
    text.extend_from_slice(&repeated(alloc, b"x", 16_379)?)?;
    assert!(rt; gives(alloc, &text, 1, HEAD_TOO_LONG, End::HeadTooLong)?);
    Ok(())
}

/// A pool is added twice, a job that is not there is deleted twice, and the tasks of one are counted.
const FAULTY: &[u8] =
    b"POST /pools HTTP/1.1\r\nHost: localhost\r\nContent-Length: 35\r\n\r\n{\"id\":\"p\",\"targetDedicatedNodes\":1}POST /pools HTTP/1.1\r\nHost: localhost\r\nContent-Length: 35\r\n\r\n{\"id\":\"p\",\"targetDedicatedNodes\":1}DELETE /jobs/x HTTP/1.1\r\nHost: localhost\r\n\r\nDELETE /jobs/x HTTP/1.1\r\nHost: localhost\r\n\r\nGET /jobs/x/taskcounts HTTP/1.1\r\nHost: localhost\r\n\r\n";

const FAULTY_ANSWERS: &[u8] =
    b"HTTP/1.1 500 Internal Server Error\r\nContent-Type: application/json\r\nContent-Length: 45\r\n\r\n{\"code\":\"KeeperFault\",\"number\":0,\"values\":[]}HTTP/1.1 201 Created\r\nContent-Length: 0\r\nBatch-Stop: fault\r\n\r\nHTTP/1.1 404 Not Found\r\nContent-Type: application/json\r\nContent-Length: 46\r\n\r\n{\"code\":\"JobNotFound\",\"number\":13,\"values\":[]}HTTP/1.1 503 Service Unavailable\r\nContent-Type: application/json\r\nContent-Length: 45\r\n\r\n{\"code\":\"JournalFull\",\"number\":0,\"values\":[]}HTTP/1.1 404 Not Found\r\nContent-Type: application/json\r\nContent-Length: 46\r\n\r\n{\"code\":\"JobNotFound\",\"number\":13,\"values\":[]}";

/// The first save of the desk fails, and the third, which is that of a due step; the journal takes three calls.
#[test]
fn keeper_faults_and_a_full_journal_are_answered(rt: HostRuntime) -> Result<(), Fail> {
    let failing: (&[u64], u32) = (&[2, 4], 3);
    assert!(rt;
        gives_with(
            rt.alloc(),
            failing,
            FAULTY,
            1_000,
            FAULTY_ANSWERS,
            End::Closed
        )?
    );
    Ok(())
}
