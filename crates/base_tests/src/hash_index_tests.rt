//! Tests of the hashes of texts and of places by hashes.

use bt_base::NoMemory;
use hash_index::{HashIndex, text_hash};
use std::alloc::Global;
use std::test::Fail as TestFail;

/// An index of so many places, the place n with the hash n % 10.
fn index_of(alloc: Global, count: u32) -> Result<HashIndex, NoMemory> {
    let mut index = HashIndex::new(alloc);
    for place in 0..count {
        index.reserve(1)?;
        index.add(place % 10);
    }
    Ok(index)
}

#[test]
fn texts_have_their_hashes(rt: HostRuntime) -> Result<(), TestFail> {
    assert_eq!(rt; text_hash(b""), 2_166_136_261);
    assert_eq!(rt; text_hash(b"a"), 84_696_448);
    assert_eq!(rt; text_hash(b"task-1"), 900_984_070);
    Ok(())
}

#[test]
fn hashes_have_their_places(rt: HostRuntime) -> Result<(), TestFail> {
    let index = index_of(rt.alloc(), 34)?;
    let mut places = index.places(3);
    assert_eq!(rt; places.next(), Some(33));
    assert_eq!(rt; places.next(), Some(23));
    assert_eq!(rt; places.next(), Some(13));
    assert_eq!(rt; places.next(), Some(3));
    assert_eq!(rt; places.next(), None);
    assert_eq!(rt; index.places(9).next(), Some(29));
    assert_eq!(rt; index.places(10).next(), None);
    assert_eq!(rt; HashIndex::new(rt.alloc()).places(0).next(), None);
    Ok(())
}
