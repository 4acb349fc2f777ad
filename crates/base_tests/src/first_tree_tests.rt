//! A test of trees of ranks: the first rank within a bound.
use first_tree::{FirstTree, NO_RANK};
use std::test::Fail;

#[test]
fn first_rank_within_a_bound(rt: HostRuntime) -> Result<(), Fail> {
    let mut tree = FirstTree::new(rt.alloc())?;
    assert_eq!(rt; tree.least(), NO_RANK);
    tree.reserve(3)?;
    tree.push(7);
    tree.push(NO_RANK);
    tree.push(4);
    assert_eq!(rt; tree.first(6), Some(2));
    assert_eq!(rt; tree.first(3), None);
    assert_eq!(rt; tree.least(), 4);
    tree.set(1, 5);
    assert_eq!(rt; tree.first(6), Some(1));
    assert_eq!(rt; tree.first_from(1, 6), Some(1));
    assert_eq!(rt; tree.first_from(2, 6), Some(2));
    assert_eq!(rt; tree.first_from(3, 6), None);
    assert_eq!(rt; tree.get(2), 4);
    assert_eq!(rt; tree.len(), 3);
    Ok(())
}
