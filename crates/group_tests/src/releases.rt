//! Rows of what is written where a group lets a disk go, and where it goes on using one with an old header.
use group_plan::marked;
use lvm_id::{LvmId, parse_plain};
use pv_header::{Extents, PvHeader};
use std::process::Abort;
use std::test::Fail;

fn id(rt: &impl Abort) -> LvmId {
    parse_plain(b"00000000100000000100000030000000").expect(rt, "an id")
}

#[test]
fn the_lowest_flag_of_a_header_goes_or_is_set(rt: HostRuntime) -> Result<(), Fail> {
    for (flags, without, with) in [
        (0, 0, 1),
        (1, 0, 1),
        (2, 2, 3),
        (3, 2, 3),
        (u32::MAX, u32::MAX - 1, u32::MAX),
    ] {
        for (in_use, left) in [(false, without), (true, with)] {
            let old = PvHeader {
                id: id(&rt),
                device_bytes: 4_096,
                data_areas: Extents::from_vec(Vec::new(rt.alloc())),
                areas: Extents::from_vec(Vec::new(rt.alloc())),
                version: 1,
                flags,
            };
            let header = marked(old, in_use);
            assert_eq!(rt; (header.version, header.flags), (2, left));
            assert_eq!(rt; header.device_bytes, 4_096);
        }
    }
    Ok(())
}
