//! `record_reading`: an item where there is one.

use plain_list::List;
use record_reading::push_some;
use std::test::Fail;

#[test]
fn pushes_what_there_is(rt: HostRuntime) -> Result<(), Fail> {
    let mut list = List::new(rt.alloc());
    push_some(&mut list, Some(3u32))?;
    push_some(&mut list, None)?;
    assert_eq!(rt; list.slice(), [3].as_slice());
    Ok(())
}
