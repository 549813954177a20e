//! A queue of places.
use place_queue::{Key, Queue};
use std::test::Fail;

#[test]
fn the_least_key_comes_first(rt: HostRuntime) -> Result<(), Fail> {
    let mut queue = Queue::reserve(rt.alloc(), 3)?;
    queue.put(0, Key { cost: 7, count: 1 });
    queue.put(1, Key { cost: 5, count: 9 });
    queue.put(2, Key { cost: 5, count: 8 });
    assert_eq!(rt; queue.take(), Some((2, Key { cost: 5, count: 8 })));
    assert_eq!(rt; queue.take(), Some((1, Key { cost: 5, count: 9 })));
    Ok(())
}
