//! A mirror of three legs: which of them a piece uses, and where a read that fails goes on.
ghost use Rattle.std.specs.Prelude.{◌≡◌, length};

use mirror_io::{after_read_fault, legs};
use region_log::Region;
use sector_base::At;
use seg_place::{Ats, MirrorAt, Places};

fn at(pv: u32, sector: u64) -> At {
    At { pv, sector }
}

fn mirror() -> Places
    ensures { length result.others ≡ 2 }
{
    let mut others = Ats::new();
    others.push(at(1, 4_096));
    others.push(at(2, 384));
    Places {
        primary: at(0, 2_048),
        others,
        mirror: Some(MirrorAt {
            lv: 0,
            segment: 0,
            region: 1,
        }),
    }
}

#[test]
fn all_legs_are_written_where_they_agree(rt: HostRuntime) {
    let places = mirror();
    let all = [at(0, 2_048), at(1, 4_096), at(2, 384)];
    let one = [at(0, 2_048)];
    let written = legs(&places, Region::Synced, true);
    assert_eq!(rt; written.as_slice(), all.as_slice());
    let read = legs(&places, Region::Synced, false);
    assert_eq!(rt; read.as_slice(), one.as_slice());
    let written = legs(&places, Region::Unsynced, true);
    assert_eq!(rt; written.as_slice(), one.as_slice());
}

#[test]
fn a_read_goes_on_until_each_leg_was_tried(rt: HostRuntime) {
    let places = mirror();
    assert_eq!(rt;
        after_read_fault(&places, Region::Synced, 1),
        Some(at(1, 4_096))
    );
    assert_eq!(rt;
        after_read_fault(&places, Region::Synced, 2),
        Some(at(2, 384))
    );
    assert_eq!(rt; after_read_fault(&places, Region::Synced, 3), None);
    assert_eq!(rt; after_read_fault(&places, Region::Unsynced, 1), None);
}
