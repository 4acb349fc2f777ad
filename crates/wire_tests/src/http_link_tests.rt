//! A test of what no clause says: that `fill` and a link that keeps what it took have memory while it is ample.
use http_link::{FillFault, MemoryLink, fill, write_all};
use std::test::Fail as TestFail;

#[test]
fn a_link_is_read_and_written(rt: HostRuntime) -> Result<(), TestFail> {
    let mut pieces = Vec::new(rt.alloc());
    pieces.push(b"GET".to_vec(rt.alloc())?)?;
    pieces.push(b" /".to_vec(rt.alloc())?)?;
    let mut link = MemoryLink::new(rt.alloc(), pieces, [2].to_vec(rt.alloc())?);
    let mut buffer = Vec::new(rt.alloc());
    assert_eq!(rt; fill(&mut link, &mut buffer), Ok(true));
    assert_eq!(rt; fill(&mut link, &mut buffer), Err(FillFault::Failed));
    assert_eq!(rt; fill(&mut link, &mut buffer), Ok(true));
    assert_eq!(rt; fill(&mut link, &mut buffer), Ok(false));
    assert_eq!(rt; buffer.as_slice(), b"GET /".as_slice());
    assert_eq!(rt; write_all(&mut link, b"HTTP/1.1"), Ok(()));
    let taken = link.into_bytes().ok_or("memory was ample")?;
    assert_eq!(rt; taken.as_slice(), b"HTTP/1.1".as_slice());
    Ok(())
}
