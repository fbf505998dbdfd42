//! A queue of two places and two senders, by its public calls alone.

use lsv_queue::make;
use std::test::*;

#[test]
fn a_full_queue_gives_the_item_back_and_keeps_the_order(rt: HostRuntime) -> Result<(), Fail> {
    let (queue, mut first, mut out) = make::<u32>(rt.alloc(), 2).expect(&rt, "memory");
    let mut second = queue.split(&mut first).expect(&rt, "memory");
    assert!(rt; queue.put(&rt, &mut first, 1).is_ok());
    assert!(rt; queue.put(&rt, &mut second, 2).is_ok());
    let (back, _) = queue.put(&rt, &mut first, 3).err().expect(&rt, "full");
    assert_eq!(rt; queue.get(&rt, &mut out).ok().expect(&rt, "item"), 1);
    assert!(rt; queue.put(&rt, &mut first, back).is_ok());
    assert_eq!(rt; queue.get(&rt, &mut out).ok().expect(&rt, "item"), 2);
    assert!(rt; queue.end(&rt, &mut second).is_ok());
    assert_eq!(rt; queue.get(&rt, &mut out).ok().expect(&rt, "item"), 3);
    assert_eq!(rt; queue.get(&rt, &mut out).err().expect(&rt, "gap").at(), 3);
    assert_eq!(rt; out.ended(), 1);
    queue.join(&mut out, first);
    queue.join(&mut out, second);
    assert_eq!(rt; queue.get(&rt, &mut out).err().expect(&rt, "gap").at(), 3);
    Ok(())
}
