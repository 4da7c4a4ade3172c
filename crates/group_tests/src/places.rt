//! Places of the sectors of a small group.
use crate::groups::group_of_text;
use sector_base::At;
use seg_place::{MirrorAt, places, primary, sectors};
use std::process::Abort;
use vg_check::Checked;

// Two physical volumes; a striped volume, a mirror, a volume that moves with the volume of its move, and a mirror of which
// the second leg moves.
fn group_text() -> &'static [u8] {
    br#"
vg0 {
id = "400000-0050-0000-0060-0000-0070-000000"
seqno = 1
format = "lvm2"
status = ["RESIZEABLE", "READ", "WRITE"]
flags = []
extent_size = 8192
max_lv = 0
max_pv = 0
metadata_copies = 0
physical_volumes {
pv0 {
id = "000000-0010-0000-0001-0000-0030-000000"
device = "a"
status = ["ALLOCATABLE"]
flags = []
pe_start = 2048
pe_count = 15
}
pv1 {
id = "000000-0010-0000-0001-0000-0030-000001"
device = "b"
status = ["ALLOCATABLE"]
flags = []
pe_start = 4096
pe_count = 15
}
}
logical_volumes {
striped {
id = "500000-0050-0000-0060-0000-0070-000000"
status = ["READ", "WRITE", "VISIBLE"]
segment_count = 1
segment1 {
start_extent = 0
extent_count = 2
type = "striped"
stripe_count = 2
stripe_size = 16
stripes = ["pv0", 0, "pv1", 0]
}
}
copied {
id = "500000-0050-0000-0060-0000-0070-000001"
status = ["READ", "WRITE", "VISIBLE"]
segment_count = 1
segment1 {
start_extent = 0
extent_count = 1
type = "mirror"
mirror_count = 2
mirrors = ["pv0", 3, "pv1", 4]
}
}
moving {
id = "500000-0050-0000-0060-0000-0070-000002"
status = ["READ", "WRITE", "VISIBLE", "LOCKED"]
segment_count = 1
segment1 {
start_extent = 0
extent_count = 3
type = "striped"
stripe_count = 1
stripes = ["pvmove0", 0]
}
}
pvmove0 {
id = "500000-0050-0000-0060-0000-0070-000003"
status = ["READ", "WRITE", "PVMOVE", "LOCKED"]
segment_count = 2
segment1 {
start_extent = 0
extent_count = 1
type = "mirror"
mirror_count = 2
extents_moved = 1
mirrors = ["pv0", 5, "pv1", 5]
}
segment2 {
start_extent = 1
extent_count = 3
type = "mirror"
mirror_count = 2
extents_moved = 1
mirrors = ["pv0", 6, "pv1", 7]
}
}
half {
id = "500000-0050-0000-0060-0000-0070-000004"
status = ["READ", "WRITE", "VISIBLE"]
segment_count = 1
segment1 {
start_extent = 0
extent_count = 2
type = "mirror"
mirror_count = 2
mirrors = ["pv0", 10, "over", 0]
}
}
over {
id = "500000-0050-0000-0060-0000-0070-000005"
status = ["READ", "WRITE"]
segment_count = 2
segment1 {
start_extent = 0
extent_count = 1
type = "striped"
stripe_count = 1
stripes = ["pv1", 12]
}
segment2 {
start_extent = 1
extent_count = 1
type = "striped"
stripe_count = 1
stripes = ["pvmove0", 3]
}
}
}
}
contents = "Text Format Volume Group"
version = 1
"#
}

fn on_first(sector: u64) -> At {
    At { pv: 0, sector }
}

fn on_second(sector: u64) -> At {
    At { pv: 1, sector }
}

// A sector of two legs with stripes of 16 sectors, the leg that has it, and how far into the leg it stands.
static STRIPES: [(u64, usize, u64); 5] = [
    (15, 0, 15),
    (16, 1, 0),
    (17, 1, 1),
    (31, 1, 15),
    (32, 0, 16),
];

#[test]
fn stripes_go_round_the_legs(rt: HostRuntime) {
    let group = group_of_text(&rt, rt.alloc(), group_text());
    for (sector, leg, offset) in STRIPES {
        assert!(rt; offset < 100 && sector < sectors(&group, 0));
        let at = if leg == 0 {
            on_first(2_048 + offset)
        } else {
            on_second(4_096 + offset)
        };
        assert_eq!(rt; primary(&group, 0, sector), at);
    }
}

// The places of the sector of the volume, as they should be.
fn assert_places(
    rt: &impl Abort,
    group: &Checked,
    lv: u32,
    sector: u64,
    at: At,
    others: &[At],
    mirror: Option<MirrorAt>,
) {
    assert!(rt; sector < sectors(group, lv));
    let found = places(group, lv, sector);
    assert_eq!(rt; found.primary, at);
    assert_eq!(rt; found.others.as_slice(), others);
    assert_eq!(rt; found.mirror, mirror);
    assert_eq!(rt; primary(group, lv, sector), at);
}

fn region(lv: u32, segment: u32, region: u64) -> Option<MirrorAt> {
    Some(MirrorAt {
        lv,
        segment,
        region,
    })
}

#[test]
fn a_mirror_has_others_and_regions(rt: HostRuntime) {
    let group = group_of_text(&rt, rt.alloc(), group_text());
    let at = on_first(2_048 + 3 * 8_192 + 1_030);
    let other = on_second(4_096 + 4 * 8_192 + 1_030);
    assert_places(&rt, &group, 1, 1_030, at, &[other], region(1, 0, 1));
}

#[test]
fn a_finished_move_has_its_second_leg_alone(rt: HostRuntime) {
    let group = group_of_text(&rt, rt.alloc(), group_text());
    let at = on_second(4_096 + 5 * 8_192 + 5);
    assert_places(&rt, &group, 2, 5, at, &[], None);
}

#[test]
fn a_move_that_is_not_finished_has_its_first_leg(rt: HostRuntime) {
    let group = group_of_text(&rt, rt.alloc(), group_text());
    let at = on_first(2_048 + 6 * 8_192 + 5);
    let other = on_second(4_096 + 7 * 8_192 + 5);
    assert_places(&rt, &group, 2, 8_197, at, &[other], region(3, 1, 0));
}

#[test]
fn a_mirror_that_moves_elsewhere_has_no_others(rt: HostRuntime) {
    let group = group_of_text(&rt, rt.alloc(), group_text());
    let at = on_first(2_048 + 10 * 8_192 + 7);
    assert_places(&rt, &group, 4, 7, at, &[], None);
}

#[test]
fn a_volume_that_is_not_there_has_no_sectors(rt: HostRuntime) {
    let group = group_of_text(&rt, rt.alloc(), group_text());
    assert_eq!(rt; (sectors(&group, 3), sectors(&group, 6)), (4 * 8_192, 0));
}
