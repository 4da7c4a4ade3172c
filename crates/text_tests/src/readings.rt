//! A text whose group has volumes of each kind, and a text for each refusal.
use conf_text::read_conf;
use meta_read::group_of;
use std::alloc::Global;
use std::process::Abort;

// A group with a striped volume, that of a move, and a key that is passed over.
fn group_text() -> &'static [u8] {
    br#"
vg {
id = "400000-0050-0000-0060-0000-0070-000000"
seqno = 7
extent_size = 8
max_lv = 0
max_pv = 0
status = ["READ", "WRITE"]
physical_volumes {
pv0 {
id = "000000-0010-0000-0001-0000-0030-000000"
pe_start = 8
pe_count = 15
status = []
}
}
logical_volumes {
data {
id = "500000-0050-0000-0060-0000-0070-000000"
status = "READ"
segment_count = 1
segment1 {
start_extent = 0
extent_count = 4
type = "striped"
stripe_count = 1
stripes = ["pvmove0", 0]
}
}
pvmove0 {
id = "600000-0050-0000-0060-0000-0070-000000"
status = "PVMOVE"
segment_count = 1
segment1 {
start_extent = 0
extent_count = 4
type = "mirror"
mirror_count = 1
mirrors = ["pv0", 0]
colour = "red"
}
}
}
}
"#
}

#[test]
fn a_group_is_read(rt: HostRuntime) {
    let tree = read_conf(rt.alloc(), group_text()).expect(&rt, "a tree");
    let (group, unknown) = group_of(rt.alloc(), &tree).expect(&rt, "a group");
    assert!(rt; group.pvs.len() == 1);
    assert!(rt; group.lvs.len() == 2);
    assert!(rt; unknown.len() == 1);
}

// Stops unless the text is refused by this kind.
fn assert_refused(rt: &impl Abort, alloc: Global, text: &[u8], kind: &str) {
    let tree = read_conf(alloc, text).expect(rt, "a tree");
    match group_of(alloc, &tree) {
        Ok(_) => panic!(rt; "a group"),
        Err(refusal) => assert_eq!(rt; refusal.kind(), kind),
    }
}

#[test]
fn what_is_no_group_is_refused(rt: HostRuntime) {
    assert_refused(&rt, rt.alloc(), b"", "Missing");
    assert_refused(&rt, rt.alloc(), b"a{}b{}", "WrongKind");
    assert_refused(&rt, rt.alloc(), b"version{}", "BadName");
    assert_refused(&rt, rt.alloc(), b"a{id=\"x\"}", "BadId");
}
