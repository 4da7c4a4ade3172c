//! One queue, from its first reservation to a fault.
use disk_model::Op;
use op_queue::{OpQueue, Waiting};
use std::test::Fail;

#[test]
fn the_second_of_two_completes_first(rt: HostRuntime) -> Result<(), Fail> {
    let alloc = rt.alloc();
    let mut sizes = Vec::new(alloc);
    sizes.push(8)?;
    sizes.push(16)?;
    let mut queue = OpQueue::new(alloc, sizes)?;
    queue.reserve(2, 0)?;
    assert_eq!(rt; queue.count(), 2);
    assert_eq!(rt; queue.sectors(1), 16);
    let first = queue.submit(Op::Flush(0));
    let second = queue.submit(Op::Flush(1));
    assert_eq!(rt; queue.in_flight(), 2);
    assert!(rt; queue.get(1).is_some_and(|it| it.tag == second));
    assert!(rt; queue.get(2).is_none());
    let Waiting { tag, op } = queue.take(1);
    assert_eq!(rt; tag, second);
    let done = queue.complete(tag, op, false);
    assert!(rt; !done.well);
    assert_eq!(rt; queue.in_flight(), 1);
    let Waiting { tag, op } = queue.take(0);
    assert_eq!(rt; tag, first);
    let done = queue.complete(tag, op, true);
    assert!(rt; done.well);
    assert_eq!(rt; queue.steps(), 4);
    Ok(())
}
