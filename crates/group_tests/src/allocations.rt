//! Requests of a group of seven physical volumes: which extents they get, and each refusal.

use crate::groups::group_of_text;
use extent_alloc::{AllocRefusal, Request};
use extent_map::{ExtentRun, all_free_runs, free_count, free_runs, used};
use sector_base::PvSet;
use std::alloc::Global;
use std::process::Abort;
use std::test::Fail;
use vg_check::Checked;

// Of pv0 the runs from 0 with 2 extents and from 4 with 5 are free, of pv1 those from 0 and from 5 with 4 each; pv2 isn't
// allocatable, pv3 is missing, pv4 is the source of a move; pv5 has 10 free extents, and pv6 has 3.
fn group_text() -> &'static [u8] {
    br#"
vg0 {
id = "400000-0050-0000-0060-0000-0070-000000"
seqno = 1
format = "lvm2"
status = ["RESIZEABLE", "READ", "WRITE"]
flags = []
extent_size = 8192
max_lv = 0
max_pv = 0
metadata_copies = 0
physical_volumes {
pv0 {
id = "000000-0010-0000-0001-0000-0030-000000"
status = ["ALLOCATABLE"]
flags = []
pe_start = 2048
pe_count = 10
}
pv1 {
id = "000000-0010-0000-0001-0000-0030-000001"
status = ["ALLOCATABLE"]
flags = []
pe_start = 2048
pe_count = 10
}
pv2 {
id = "000000-0010-0000-0001-0000-0030-000002"
status = []
flags = []
pe_start = 2048
pe_count = 10
}
pv3 {
id = "000000-0010-0000-0001-0000-0030-000003"
status = ["ALLOCATABLE"]
flags = ["MISSING"]
pe_start = 2048
pe_count = 10
}
pv4 {
id = "000000-0010-0000-0001-0000-0030-000004"
status = ["ALLOCATABLE"]
flags = []
pe_start = 2048
pe_count = 10
}
pv5 {
id = "000000-0010-0000-0001-0000-0030-000005"
status = ["ALLOCATABLE"]
flags = []
pe_start = 2048
pe_count = 10
}
pv6 {
id = "000000-0010-0000-0001-0000-0030-000006"
status = ["ALLOCATABLE"]
flags = []
pe_start = 2048
pe_count = 3
}
}
logical_volumes {
one {
id = "500000-0050-0000-0060-0000-0070-000000"
status = ["READ", "WRITE", "VISIBLE"]
segment_count = 1
segment1 {
start_extent = 0
extent_count = 2
type = "striped"
stripe_count = 1
stripes = ["pv0", 2]
}
}
two {
id = "500000-0050-0000-0060-0000-0070-000001"
status = ["READ", "WRITE", "VISIBLE"]
segment_count = 1
segment1 {
start_extent = 0
extent_count = 2
type = "striped"
stripe_count = 2
stripe_size = 16
stripes = ["pv0", 9, "pv1", 4]
}
}
moving {
id = "500000-0050-0000-0060-0000-0070-000002"
status = ["READ", "WRITE", "VISIBLE", "LOCKED"]
segment_count = 1
segment1 {
start_extent = 0
extent_count = 1
type = "striped"
stripe_count = 1
stripes = ["pvmove0", 0]
}
}
pvmove0 {
id = "500000-0050-0000-0060-0000-0070-000003"
status = ["READ", "WRITE", "PVMOVE", "LOCKED"]
segment_count = 1
segment1 {
start_extent = 0
extent_count = 1
type = "mirror"
mirror_count = 2
extents_moved = 0
mirrors = ["pv4", 0, "pv1", 9]
}
}
}
}
contents = "Text Format Volume Group"
version = 1
"#
}

fn set_of(pvs: &[u32]) -> PvSet {
    let mut set = PvSet::new();
    for pv in pvs {
        if *pv < 64 {
            set.insert(*pv);
        }
    }
    set
}

fn request(extents: u64, legs: u32, contiguous: bool) -> Request {
    Request {
        extents,
        legs,
        contiguous,
        on: PvSet::new(),
        avoid: PvSet::new(),
    }
}

// What is refused, and why.
fn assert_refused(
    rt: &impl Abort,
    alloc: Global,
    group: &Checked,
    want: &Request,
    refusal: AllocRefusal,
) {
    assert!(rt; 1 <= want.extents && 1 <= want.legs && want.legs <= 8);
    let answer = extent_alloc::alloc(alloc, group, want);
    assert_eq!(rt; answer.err(), Some(refusal));
}

// What is given: of each part its extents, and of each of its legs the volume and the first extent.
fn assert_given(
    rt: &impl Abort,
    alloc: Global,
    group: &Checked,
    want: &Request,
    parts: &[(u64, &[(u32, u64)])],
) {
    assert!(rt; 1 <= want.extents && 1 <= want.legs && want.legs <= 8);
    let given = extent_alloc::alloc(alloc, group, want).expect(rt, "it has room");
    assert_eq!(rt; given.len(), parts.len());
    for (part, (extents, runs)) in given.as_slice().iter().zip(parts) {
        assert_eq!(rt; part.extents, *extents);
        assert_eq!(rt; part.runs.len(), runs.len());
        for (run, (pv, first)) in part.runs.as_slice().iter().zip(*runs) {
            assert_eq!(rt; run.pv, *pv);
            assert_eq!(rt; run.first, *first);
        }
    }
}

#[test]
fn free_extents_lie_between_legs(rt: HostRuntime) -> Result<(), Fail> {
    let group = group_of_text(&rt, rt.alloc(), group_text());
    let found = group.group();
    assert!(rt; found.pvs.len() == 7);
    let free = [
        ExtentRun { first: 0, count: 2 },
        ExtentRun { first: 4, count: 5 },
    ];
    let runs = free_runs(rt.alloc(), found, 0)?;
    assert_eq!(rt; runs.as_slice(), free.as_slice());
    assert_eq!(rt; free_count(found, 0), 7);
    assert_eq!(rt; (used(found, 0, 2), used(found, 0, 4)), (true, false));
    assert_eq!(rt; all_free_runs(rt.alloc(), found)?.len(), 7);
    Ok(())
}

#[test]
fn the_sets_say_which_volumes_are_used(rt: HostRuntime) {
    let group = group_of_text(&rt, rt.alloc(), group_text());
    let alloc = rt.alloc();
    let none = AllocRefusal::NoSpace { need: 1, free: 0 };
    let mut want = request(1, 1, false);
    // The source of the move, and a missing volume.
    want.on = set_of(&[4]);
    assert_refused(&rt, alloc, &group, &want, none);
    want.on = set_of(&[3]);
    assert_refused(&rt, alloc, &group, &want, none);
    want.on = set_of(&[6, 1]);
    assert_given(&rt, alloc, &group, &want, &[(1, &[(1, 0)])]);
    want.avoid = set_of(&[1]);
    assert_given(&rt, alloc, &group, &want, &[(1, &[(6, 0)])]);
    want.avoid = set_of(&[1, 6]);
    assert_refused(&rt, alloc, &group, &want, none);
}

#[test]
fn one_leg_takes_the_first_run_that_is_long_enough(rt: HostRuntime) {
    let group = group_of_text(&rt, rt.alloc(), group_text());
    let alloc = rt.alloc();
    assert_given(&rt, alloc, &group, &request(3, 1, false), &[(3, &[(0, 4)])]);
    assert_given(&rt, alloc, &group, &request(6, 1, true), &[(6, &[(5, 0)])]);
}

#[test]
fn one_leg_takes_the_longest_runs(rt: HostRuntime) {
    let group = group_of_text(&rt, rt.alloc(), group_text());
    let alloc = rt.alloc();
    let parts: &[(u64, &[(u32, u64)])] = &[(10, &[(5, 0)]), (2, &[(0, 4)])];
    assert_given(&rt, alloc, &group, &request(12, 1, false), parts);
    let parts: &[(u64, &[(u32, u64)])] = &[
        (10, &[(5, 0)]),
        (5, &[(0, 4)]),
        (4, &[(1, 0)]),
        (4, &[(1, 5)]),
        (3, &[(6, 0)]),
        (2, &[(0, 0)]),
    ];
    assert_given(&rt, alloc, &group, &request(28, 1, false), parts);
}

#[test]
fn two_legs_go_on_in_their_own_runs(rt: HostRuntime) {
    let group = group_of_text(&rt, rt.alloc(), group_text());
    let parts: &[(u64, &[(u32, u64)])] = &[
        (4, &[(0, 4), (1, 0)]),
        (1, &[(0, 8), (1, 5)]),
        (2, &[(0, 0), (1, 6)]),
    ];
    assert_given(&rt, rt.alloc(), &group, &request(7, 2, false), parts);
}

#[test]
fn three_legs_lie_on_three_volumes(rt: HostRuntime) {
    let group = group_of_text(&rt, rt.alloc(), group_text());
    let alloc = rt.alloc();
    let mut want = request(3, 3, true);
    assert_given(&rt, alloc, &group, &want, &[(3, &[(0, 4), (1, 0), (5, 0)])]);
    want.avoid = set_of(&[0]);
    assert_given(&rt, alloc, &group, &want, &[(3, &[(1, 0), (5, 0), (6, 0)])]);
}
