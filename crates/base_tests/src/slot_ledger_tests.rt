//! What a ledger of slots chooses, before and after calls.
use bt_base::Id;
use bt_rows::pool::Fill;
use slot_ledger::Ledger;
use std::test::Fail;

#[test]
fn the_fill_type_and_the_number_choose_the_node(rt: HostRuntime) -> Result<(), Fail> {
    let pool = Id::read(rt.alloc(), "pool")?;
    let other = Id::read(rt.alloc(), "other")?;
    let mut ledger = Ledger::new(rt.alloc());
    ledger.add_node(3, &other, 8)?;
    ledger.add_node(2, &pool, 4)?;
    ledger.add_node(1, &pool, 4)?;
    ledger.hold(2, 3);
    ledger.give(2, 1);
    let table = [
        (Fill::Spread, 1, Some(1)),
        (Fill::Pack, 1, Some(2)),
        (Fill::Pack, 2, Some(2)),
        (Fill::Pack, 3, Some(1)),
        (Fill::Spread, 4, Some(1)),
        (Fill::Spread, 5, None),
    ];
    for (fill, need, wanted) in table {
        assert_eq!(rt; ledger.choose(&pool, fill, need), wanted, "of {need} slots");
    }
    ledger.hold(1, 2);
    assert_eq!(rt; ledger.choose(&pool, Fill::Spread, 1), Some(1));
    assert_eq!(rt; ledger.choose(&pool, Fill::Pack, 1), Some(1));
    ledger.remove_node(3);
    assert_eq!(rt; ledger.choose(&other, Fill::Pack, 1), None);
    Ok(())
}
