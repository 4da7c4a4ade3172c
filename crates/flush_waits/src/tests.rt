//! One flush serves two pieces, and a line joins it; what comes behind it waits for the next one, and one that fails makes nothing stable.
use crate::{Awaited, FlushWaits, Ticket, Waiter};
use std::test::Fail;

#[test]
fn one_flush_serves_all_before_it(rt: HostRuntime) -> Result<(), Fail> {
    let mut waits = FlushWaits::new(rt.alloc(), 2, 3)?;
    waits.reserve(3, 4)?;
    assert!(rt; waits.disks() == 2);
    let first = waits.wrote(10, 1);
    assert!(rt;
        waits.wait(Ticket::new(rt.alloc())?, Waiter::Piece(10), 1, first) == Awaited::Unserved
    );
    let second = waits.wrote(11, 1);
    assert!(rt;
        waits.wait(Ticket::new(rt.alloc())?, Waiter::Piece(11), 1, second) == Awaited::Unserved
    );
    waits.note(2, 1, second);
    assert!(rt; waits.dirty(2, 1) == second);
    assert!(rt; waits.dirty(2, 0) == 0);
    assert!(rt; waits.unserved(1) == 2);
    assert!(rt; waits.wants(1));
    assert!(rt; !waits.wants(0));
    waits.submitted(1, 100);
    assert!(rt; !waits.wants(1));
    assert!(rt; waits.unserved(1) == 0);
    assert!(rt;
        waits.wait(Ticket::new(rt.alloc())?, Waiter::Line(7), 1, second) == Awaited::Served
    );
    let third = waits.wrote(12, 1);
    assert!(rt;
        waits.wait(Ticket::new(rt.alloc())?, Waiter::Piece(12), 1, third) == Awaited::Unserved
    );
    waits.ended(100, true);
    assert!(rt; matches!(waits.release(1), Some(w) if w.waiter == Waiter::Piece(10)));
    assert!(rt; matches!(waits.release(1), Some(w) if w.waiter == Waiter::Piece(11)));
    assert!(rt; matches!(waits.release(1), Some(w) if w.waiter == Waiter::Line(7)));
    assert!(rt; waits.release(1).is_none());
    assert!(rt; waits.awaited(1, second) == Awaited::Stable);
    waits.forget(10, 1);
    Ok(())
}

#[test]
fn what_comes_behind_waits_for_the_next_flush_which_fails(rt: HostRuntime) -> Result<(), Fail> {
    let mut waits = FlushWaits::new(rt.alloc(), 1, 1)?;
    waits.reserve(2, 2)?;
    let first = waits.wrote(10, 0);
    assert!(rt;
        waits.wait(Ticket::new(rt.alloc())?, Waiter::Piece(10), 0, first) == Awaited::Unserved
    );
    waits.submitted(0, 100);
    let second = waits.wrote(11, 0);
    assert!(rt;
        waits.wait(Ticket::new(rt.alloc())?, Waiter::Piece(11), 0, second) == Awaited::Unserved
    );
    waits.ended(100, false);
    assert!(rt; matches!(waits.release(0), Some(w) if w.waiter == Waiter::Piece(10)));
    assert!(rt; waits.awaited(0, first) == Awaited::Lost);
    assert!(rt; waits.awaited(0, second) == Awaited::Unserved);
    assert!(rt; waits.wants(0));
    Ok(())
}
