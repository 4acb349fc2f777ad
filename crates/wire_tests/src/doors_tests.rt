//! Doors over a desk whose tables are kept in memory, and links in memory.
ghost use Rattle.std.specs.Prelude.{◌≡◌, false};

use batch_desk::Desk;
use batch_http::{DoorEnd, HttpService, serve_links};
use batch_keeper::MemoryKeeper;
use bt_clock::ListClock;
use bt_rows::tables::Tables;
use http_link::SureLink;
use link_doors::{Accepted, Listener, MemoryListener, SureListener};
use std::alloc::{AllocError, Global};
use std::sync::Wait;
use std::test::Fail;

const ADD_POOL: &[u8] =
    b"POST /pools HTTP/1.1\r\nHost: localhost\r\nContent-Length: 35\r\n\r\n{\"id\":\"p\",\"targetDedicatedNodes\":1}";

/// The same, as a browser sends it for a page of another place.
const ADD_POOL_BY_PAGE: &[u8] =
    b"POST /pools HTTP/1.1\r\nHost: localhost\r\nOrigin: http://page.example\r\nContent-Length: 35\r\n\r\n{\"id\":\"p\",\"targetDedicatedNodes\":1}";

const GET_POOL: &[u8] = b"GET /pools/p HTTP/1.1\r\nHost: localhost\r\n\r\n";

/// A desk over empty tables.
fn open_desk(alloc: Global) -> Result<Desk<MemoryKeeper>, Fail> {
    let keeper = MemoryKeeper::new(Tables::empty(alloc), Vec::new(alloc));
    match Desk::open(alloc, keeper, 8, 100) {
        Ok(desk) => Ok(desk),
        Err((keeper, _error)) => {
            drop(keeper);
            Err("the keeper fails".into())
        }
    }
}

/// Serves the links of the listener over empty tables.
fn serve_over_desk<R: Wait, N: Listener>(
    rt: &R,
    alloc: Global,
    listener: &mut N,
) -> Result<DoorEnd, Fail>
    requires { N.is_out listener.old ≡ false }
    ensures { N.is_out listener.new ≡ false }
{
    let desk = open_desk(alloc)?;
    match HttpService::new(alloc, desk, ListClock::new(Vec::new(alloc), 0)) {
        Ok(mut service) => {
            let end = serve_links(rt, alloc, &mut service, listener);
            let (desk, clock) = service.into_parts();
            drop(desk);
            drop(clock);
            Ok(end)
        }
        Err((desk, clock)) => {
            drop(desk);
            drop(clock);
            Err("memory is ample".into())
        }
    }
}

/// A link whose peer sends this text.
fn new_link(alloc: Global, text: &[u8]) -> Result<SureLink, AllocError> {
    let mut pieces = Vec::new(alloc);
    pieces.push(text.to_vec(alloc)?)?;
    Ok(SureLink::new(alloc, pieces))
}

/// Two links: over the first the peer sends this text, and over the second it reads the pool.
fn links_after(alloc: Global, first: &[u8]) -> Result<Vec<SureLink>, AllocError> {
    let mut links = Vec::new(alloc);
    links.push(new_link(alloc, first)?)?;
    links.push(new_link(alloc, GET_POOL)?)?;
    Ok(links)
}

/// Whether the link has taken a text that begins so.
fn has_taken(link: SureLink, front: &[u8]) -> bool {
    match link.into_bytes() {
        Some(bytes) => bytes.starts_with(front),
        None => false,
    }
}

#[test]
fn links_are_served_and_handed_back_in_order(rt: HostRuntime) -> Result<(), Fail> {
    let mut listener = SureListener::new(links_after(rt.alloc(), ADD_POOL)?);
    let end = serve_over_desk(&rt, rt.alloc(), &mut listener)?;
    assert!(rt; !end.failed && !end.met_memory);
    assert!(rt; matches!(listener.accept(), Accepted::Ended));
    let mut links = listener.into_links();
    assert_eq!(rt; links.len(), 2);
    assert!(rt; has_taken(links.remove(0), b"HTTP/1.1 201 Created\r\n"));
    assert!(rt; has_taken(links.remove(0), b"HTTP/1.1 200 OK\r\n"));
    Ok(())
}

#[test]
fn a_door_ends_when_its_listener_fails(rt: HostRuntime) -> Result<(), Fail> {
    let fails = [2].to_vec(rt.alloc())?;
    let mut listener = MemoryListener::new(links_after(rt.alloc(), ADD_POOL)?, fails);
    let end = serve_over_desk(&rt, rt.alloc(), &mut listener)?;
    assert!(rt; end.failed && !end.met_memory);
    assert_eq!(rt; listener.handed().len(), 1);
    let mut links = listener.into_links();
    assert_eq!(rt; links.len(), 2);
    assert!(rt; has_taken(links.remove(1), b"HTTP/1.1 201 Created\r\n"));
    Ok(())
}

#[test]
fn a_page_adds_no_pool_and_the_next_link_is_served(rt: HostRuntime) -> Result<(), Fail> {
    let mut listener = SureListener::new(links_after(rt.alloc(), ADD_POOL_BY_PAGE)?);
    let end = serve_over_desk(&rt, rt.alloc(), &mut listener)?;
    assert!(rt; !end.failed && !end.met_memory);
    let mut links = listener.into_links();
    assert_eq!(rt; links.len(), 2);
    assert!(rt; has_taken(links.remove(0), b"HTTP/1.1 403 Forbidden\r\n"));
    assert!(rt; has_taken(links.remove(0), b"HTTP/1.1 404 Not Found\r\n"));
    Ok(())
}
