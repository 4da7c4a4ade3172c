//! Groups by their texts.
use conf_text::read_conf;
use meta_read::group_of;
use std::alloc::Global;
use std::process::Abort;
use vg_check::{Checked, check};

/// The group of the text, which keeps all rules.
pub fn group_of_text(rt: &impl Abort, alloc: Global, text: &[u8]) -> Checked {
    let tree = read_conf(alloc, text).expect(rt, "the text has a tree");
    let (group, _) = group_of(alloc, &tree).expect(rt, "the tree has a group");
    check(group).ok().expect(rt, "it keeps all rules")
}

/// A group of two physical volumes, and a logical volume on the second.
pub fn small_group_text() -> &'static [u8] {
    br#"
vg {
id = "400000-0050-0000-0060-0000-0070-000000"
seqno = 7
extent_size = 8
max_lv = 0
max_pv = 0
status = ["READ", "WRITE"]
physical_volumes {
pv0 {
id = "000000-0010-0000-0001-0000-0030-000000"
pe_start = 8
pe_count = 15
status = []
}
pv1 {
id = "000000-0010-0000-0001-0000-0030-000001"
pe_start = 16
pe_count = 15
status = []
}
}
logical_volumes {
data {
id = "500000-0050-0000-0060-0000-0070-000000"
status = ["READ", "WRITE", "VISIBLE"]
segment_count = 1
segment1 {
start_extent = 0
extent_count = 4
type = "striped"
stripe_count = 1
stripes = ["pv1", 0]
}
}
}
}
"#
}
