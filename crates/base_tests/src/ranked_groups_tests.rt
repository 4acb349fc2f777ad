//! A test of ranked groups: the first item of a group within a bound.
use ranked_groups::RankedGroups;
use std::test::Fail;

#[test]
fn first_item_of_a_group_within_a_bound(rt: HostRuntime) -> Result<(), Fail> {
    let mut groups = RankedGroups::new(rt.alloc());
    groups.reserve(4)?;
    groups.push(b"night", 3);
    groups.push(b"day", 5);
    groups.push(b"night", 2);
    groups.push(b"day", 4);
    assert_eq!(rt; groups.first(b"night", 2), Some(2));
    assert_eq!(rt; groups.first(b"day", 5), Some(1));
    groups.set(1, 9);
    assert_eq!(rt; groups.first(b"day", 5), Some(3));
    assert_eq!(rt; groups.first(b"day", 3), None);
    assert_eq!(rt; groups.first(b"noon", 9), None);
    assert_eq!(rt; groups.len(), 4);
    Ok(())
}
