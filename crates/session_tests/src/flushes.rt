//! Eight writes, of which the first has a flush of its own and the others one together, a flush that failed, and writes that
//! are forgotten.
use flush_plan::FlushPlan;
use std::test::Fail;

#[test]
fn two_flushes_serve_eight_writes(rt: HostRuntime) -> Result<(), Fail> {
    let mut plan = FlushPlan::new(rt.alloc(), 2)?;
    assert!(rt; !plan.wants(1));
    plan.reserve(8, 1)?;
    plan.wrote(0, 1);
    assert!(rt; plan.wants(1));
    assert!(rt; !plan.wants(0));
    plan.submitted(1, 100);
    plan.wrote(1, 1);
    plan.wrote(2, 1);
    plan.wrote(3, 1);
    plan.wrote(4, 1);
    plan.wrote(5, 1);
    plan.wrote(6, 1);
    plan.wrote(7, 1);
    assert!(rt; !plan.wants(1));
    assert!(rt; !plan.ended(0, 1));
    plan.flushed(100);
    assert!(rt; plan.stable(0, 1));
    assert!(rt; plan.ended(0, 1));
    assert!(rt; !plan.ended(1, 1));
    assert!(rt; !plan.stable(0, 0));
    assert!(rt; !plan.stable(1, 1));
    assert!(rt; plan.wants(1));
    plan.submitted(1, 101);
    plan.flushed(101);
    assert!(rt; plan.stable(1, 1));
    assert!(rt; plan.stable(7, 1));
    assert!(rt; !plan.wants(1));
    plan.forget(0, 1);
    assert!(rt; !plan.stable(0, 1));
    assert!(rt; plan.stable(7, 1));
    Ok(())
}

#[test]
fn a_flush_that_failed_serves_none(rt: HostRuntime) -> Result<(), Fail> {
    let mut plan = FlushPlan::new(rt.alloc(), 1)?;
    plan.reserve(2, 2)?;
    plan.wrote(0, 0);
    plan.submitted(0, 100);
    plan.lost(100);
    assert!(rt; !plan.stable(0, 0));
    assert!(rt; plan.ended(0, 0));
    assert!(rt; !plan.wants(0));
    plan.wrote(1, 0);
    assert!(rt; plan.wants(0));
    Ok(())
}
