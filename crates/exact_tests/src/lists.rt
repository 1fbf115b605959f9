//! `plain_list`: items in their order.

use plain_list::List;
use std::test::Fail;

#[test]
fn keeps_items_in_order(rt: HostRuntime) -> Result<(), Fail> {
    let mut list = List::new(rt.alloc());
    assert_eq!(rt; list.len(), 0);
    list.push(3u32)?;
    list.push(5)?;
    assert_eq!(rt; list.slice(), [3, 5].as_slice());
    assert!(rt; list.len() == 2);
    assert_eq!(rt; *list.at(1), 5);
    list.set(0, 7);
    assert_eq!(rt; list.slice(), [7, 5].as_slice());
    list.slice_mut()[1] = 8;
    assert_eq!(rt; list.slice(), [7, 8].as_slice());
    Ok(())
}
