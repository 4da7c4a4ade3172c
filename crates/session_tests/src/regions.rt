//! Four regions: a resync in order, and a leg that fails behind it.
use region_log::{Region, RegionLog};
use std::test::Fail;

#[test]
fn the_least_unsynced_region_is_next(rt: HostRuntime) -> Result<(), Fail> {
    let mut log = RegionLog::new(rt.alloc(), 3)?;
    assert_eq!(rt; log.next_to_copy(), Some(0));
    log.copying(0);
    assert_eq!(rt; log.next_to_copy(), Some(1));
    log.synced(0);
    log.synced(2);
    assert_eq!(rt; log.next_to_copy(), Some(1));
    log.synced(1);
    assert_eq!(rt; log.next_to_copy(), None);
    log.unsynced(2);
    log.unsynced(0);
    assert_eq!(rt; log.next_to_copy(), Some(0));
    assert_eq!(rt; log.state(0), Region::Unsynced);
    assert_eq!(rt; log.state(1), Region::Synced);
    Ok(())
}
