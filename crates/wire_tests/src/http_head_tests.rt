//! A test on the head of a real client: the lists in its fields are read as written.
use http_head::{Framing, HeadRead, read_head};
use std::test::Fail as TestFail;

#[test]
fn a_head_is_read(rt: HostRuntime) -> Result<(), TestFail> {
    let bytes =
        b"POST /pools HTTP/1.1\r\nHost: localhost\r\nContent-Length: 35\r\nConnection: TE, Close\r\n\r\n{";
    let HeadRead::Found(head) = read_head(bytes) else {
        return Err("no head".into());
    };
    assert_eq!(rt; head.method.of(bytes), b"POST".as_slice());
    assert_eq!(rt; head.target.of(bytes), b"/pools".as_slice());
    assert_eq!(rt; head.framing, Framing::Body(35));
    assert!(rt; head.is_last);
    assert!(rt; !head.has_origin);
    assert_eq!(rt; head.len, bytes.len() - 1);
    Ok(())
}

#[test]
fn an_origin_is_a_field_in_any_case_and_with_any_value(rt: HostRuntime) -> Result<(), TestFail> {
    let heads: &[(&[u8], bool)] = &[
        (
            b"GET / HTTP/1.1\r\nHost: a\r\nOrigin: http://b\r\n\r\n",
            true,
        ),
        (b"GET / HTTP/1.1\r\noRiGiN:\r\nHost: a\r\n\r\n", true),
        (
            b"GET /?Origin: HTTP/1.1\r\nHost: Origin\r\nX-Origin: b\r\n\r\n",
            false,
        ),
    ];
    for (bytes, has_origin) in heads {
        let HeadRead::Found(head) = read_head(bytes) else {
            return Err("no head".into());
        };
        assert_eq!(rt; head.has_origin, *has_origin);
        assert_eq!(rt; head.framing, Framing::Body(0));
    }
    Ok(())
}
