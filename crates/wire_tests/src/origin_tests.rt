//! Requests with a field `Origin`, over a desk whose tables are kept in memory. What is written stands here by hand, from the
//! profile's rules.
use crate::batch_http_tests::{BAD_FRAMING, BAD_HEAD, UNREADABLE, answers, gives, new_service};
use http_serving::End;
use std::alloc::Global;
use std::test::Fail;

const ORIGIN_REFUSED: &[u8] =
    b"HTTP/1.1 403 Forbidden\r\nContent-Type: application/json\r\nContent-Length: 47\r\n\r\n{\"code\":\"OriginRefused\",\"number\":0,\"values\":[]}";

const NO_ROWS: &[u8] =
    b"HTTP/1.1 200 OK\r\nContent-Type: application/json\r\nContent-Length: 12\r\n\r\n{\"value\":[]}";

/// Requests whose heads have a field `Origin`; the first is as a browser writes it for a page.
const REFUSED: &[&[u8]] = &[
    b"POST /jobs/j/tasks HTTP/1.1\r\nHost: 127.0.0.1:8080\r\nConnection: keep-alive\r\nContent-Length: 36\r\nsec-ch-ua-platform: \"Linux\"\r\nUser-Agent: Mozilla/5.0 (X11; Linux x86_64) AppleWebKit/537.36 (KHTML, like Gecko) Chrome/131.0.0.0 Safari/537.36\r\nContent-Type: text/plain;charset=UTF-8\r\nAccept: */*\r\nOrigin: http://page.example\r\nSec-Fetch-Site: cross-site\r\nSec-Fetch-Mode: no-cors\r\nSec-Fetch-Dest: empty\r\nReferer: http://page.example/\r\nAccept-Encoding: gzip, deflate, br, zstd\r\nAccept-Language: en-US,en;q=0.9\r\n\r\n{\"id\":\"t\",\"commandLine\":\"/bin/true\"}",
    b"OPTIONS /pools HTTP/1.1\r\nHost: 127.0.0.1:8080\r\nAccess-Control-Request-Method: POST\r\nOrigin: http://page.example\r\n\r\n",
    b"GET /jobs HTTP/1.1\r\nHost: a\r\nOrigin: null\r\n\r\n",
    b"GET /jobs HTTP/1.1\r\noRIGIN: http://a\r\nHost: a\r\n\r\n",
    b"GET /jobs HTTP/1.1\r\nHost: a\r\nORIGIN:\r\nA: b\r\n\r\n",
    b"GET /jobs HTTP/1.1\nHost: a\norigin: \t \n\n",
    b"GET /jobs HTTP/1.1\r\nHost: a\r\nOrigin: a\r\nOrigin: b\r\n\r\n",
    b"GET /jobs HTTP/1.0\r\nOrigin: a\r\n\r\n",
    b"DELETE /x HTTP/1.1\r\nHost: a\r\nConnection: close\r\nOrigin: a\r\n\r\n",
    b"POST /pools HTTP/1.1\r\nHost: a\r\nOrigin: a\r\nContent-Length: 35\r\n\r\n",
    b"POST /pools HTTP/1.1\r\nHost: a\r\nContent-Length: 1048577\r\nOrigin: a\r\n\r\n",
    b"POST /pools HTTP/1.1\r\nOrigin: a\r\nHost: a\r\nContent-Length: 9999999999\r\n\r\nx",
];

/// Heads that are faulty or have no end beside their `Origin`, and requests in which the word is no field.
const OTHERS: &[(&[u8], &[u8], End)] = &[
    (
        b"GET /jobs HTTP/1.1\r\nOrigin: a\r\n\r\n",
        BAD_FRAMING,
        End::BadFraming,
    ),
    (
        b"GET /jobs HTTP/1.1\r\nHost: a\r\nOrigin: a\r\nHost: a\r\n\r\n",
        BAD_FRAMING,
        End::BadFraming,
    ),
    (
        b"POST /pools HTTP/1.1\r\nHost: a\r\nOrigin: a\r\nContent-Length: +1\r\n\r\nx",
        BAD_FRAMING,
        End::BadFraming,
    ),
    (
        b"POST /pools HTTP/1.1\r\nHost: a\r\nOrigin: a\r\nTransfer-Encoding: chunked\r\n\r\n0\r\n\r\n",
        BAD_FRAMING,
        End::BadFraming,
    ),
    (
        b"POST /pools HTTP/1.1\r\nHost: a\r\nContent-Length: 1\r\nOrigin: a\r\nContent-Length: 1\r\n\r\nx",
        BAD_FRAMING,
        End::BadFraming,
    ),
    (
        b"GET /jobs HTTP/1.1\r\nHost: a\r\nOrigin : a\r\n\r\n",
        BAD_HEAD,
        End::BadHead,
    ),
    (
        b"GET /jobs HTTP/1.1\r\nHost: a\r\nOrigin: a\r\n",
        b"",
        End::Truncated,
    ),
    (
        b"GET /jobs?Origin=a&origin:b HTTP/1.1\r\nHost: a\r\n\r\n",
        NO_ROWS,
        End::Closed,
    ),
    (
        b"GET /jobs HTTP/1.1\r\nHost: Origin\r\nX-Origin: a\r\nOrigins: a\r\nOrigi: n\r\nReferer: http://a/Origin: b\r\nA: Origin: b\r\n\r\n",
        NO_ROWS,
        End::Closed,
    ),
    (
        b"POST /pools HTTP/1.1\r\nHost: a\r\nContent-Length: 15\r\n\r\n\r\nOrigin: a\r\n\r\n",
        UNREADABLE,
        End::Closed,
    ),
];

#[test]
fn a_head_with_an_origin_is_refused(rt: HostRuntime) -> Result<(), Fail> {
    for text in REFUSED {
        for size in [1, 7, 20_000] {
            assert!(rt;
                gives(rt.alloc(), text, size, ORIGIN_REFUSED, End::OriginRefused)?,
                "{text:?}"
            );
        }
    }
    Ok(())
}

#[test]
fn faults_of_a_head_go_before_its_origin_and_other_heads_are_answered(
    rt: HostRuntime,
) -> Result<(), Fail> {
    for (text, answer, end) in OTHERS {
        for size in [1, 7, 20_000] {
            assert!(rt; gives(rt.alloc(), text, size, answer, *end)?, "{text:?}");
        }
    }
    Ok(())
}

/// A pool is added, a page would add another one, and the pools are listed.
const PAGE_BETWEEN: &[u8] =
    b"POST /pools HTTP/1.1\r\nHost: localhost\r\nContent-Length: 35\r\n\r\n{\"id\":\"p\",\"targetDedicatedNodes\":1}POST /pools HTTP/1.1\r\nHost: localhost\r\nOrigin: a\r\nContent-Length: 35\r\n\r\n{\"id\":\"q\",\"targetDedicatedNodes\":1}GET /pools HTTP/1.1\r\nHost: localhost\r\n\r\n";

const ADDED_AND_REFUSED: &[u8] =
    b"HTTP/1.1 201 Created\r\nContent-Length: 0\r\n\r\nHTTP/1.1 403 Forbidden\r\nContent-Type: application/json\r\nContent-Length: 47\r\n\r\n{\"code\":\"OriginRefused\",\"number\":0,\"values\":[]}";

/// How many calls the journal of a new desk has after a connection with this text; None if the answer or the end is another one.
fn calls_after(alloc: Global, text: &[u8], answer: &[u8]) -> Result<Option<u64>, Fail> {
    let mut service = new_service(alloc, &[], 100)?;
    let found = answers(alloc, &mut service, text, 7, answer, End::OriginRefused);
    let (desk, clock) = service.into_parts();
    let calls = desk.entry_count();
    drop(desk);
    drop(clock);
    Ok(found?.then_some(calls))
}

#[test]
fn nothing_is_called_for_a_head_with_an_origin_or_after_it(rt: HostRuntime) -> Result<(), Fail> {
    let alloc = rt.alloc();
    assert_eq!(rt;
        calls_after(alloc, PAGE_BETWEEN, ADDED_AND_REFUSED)?,
        Some(1)
    );
    for text in REFUSED {
        assert_eq!(rt; calls_after(alloc, text, ORIGIN_REFUSED)?, Some(0));
    }
    Ok(())
}
