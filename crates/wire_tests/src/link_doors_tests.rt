//! A test of listeners in memory: links come in order, calls of given numbers fail, and links are handed back as they are.
use http_link::SureLink;
use link_doors::{Accepted, Listener, MemoryListener};
use std::test::Fail;

#[test]
fn links_are_given_and_handed_back(rt: HostRuntime) -> Result<(), Fail> {
    let mut links = Vec::new(rt.alloc());
    links.push(SureLink::new(rt.alloc(), Vec::new(rt.alloc())))?;
    let fails = [1].to_vec(rt.alloc())?;
    let mut listener = MemoryListener::new(links, fails);
    let failed = matches!(listener.accept(), Accepted::Failed);
    let Accepted::Link(link) = listener.accept() else {
        panic!(rt; "no link")
    };
    listener.done(link);
    let ended = matches!(listener.accept(), Accepted::Ended);
    assert!(rt; failed && ended);
    assert_eq!(rt; listener.handed().len(), 1);
    assert_eq!(rt; listener.into_links().len(), 1);
    Ok(())
}
