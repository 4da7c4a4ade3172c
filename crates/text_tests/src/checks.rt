//! A small group that keeps all rules, and one whose extents have a size that none may have.
use conf_text::read_conf;
use meta_read::group_of;
use std::alloc::{AllocError, Global};
use std::process::Abort;
use std::test::Fail;
use vg_check::check;
use volume_rules::Rule;

// A group of one physical volume, with extents of so many sectors.
fn group_text(alloc: Global, extent_size: u32) -> Result<String, AllocError> {
    format!(in alloc;
        "vg {{
id = \"400000-0050-0000-0060-0000-0070-000000\"
seqno = 1
extent_size = {extent_size}
max_lv = 0
max_pv = 0
status = [\"READ\", \"WRITE\"]
physical_volumes {{
pv0 {{
id = \"000000-0010-0000-0001-0000-0030-000000\"
pe_start = 8
pe_count = 15
status = []
}}
}}
}}
"
    )
}

// The first rule that the group of this text breaks.
fn first_broken(rt: &impl Abort, alloc: Global, text: &str) -> Option<Rule> {
    let tree = read_conf(alloc, text.as_bytes()).expect(rt, "a tree");
    let (group, _) = group_of(alloc, &tree).expect(rt, "a group");
    check(group).err().map(|refused| refused.rule)
}

#[test]
fn a_group_keeps_all_rules_or_breaks_a_first(rt: HostRuntime) -> Result<(), Fail> {
    for (extent_size, broken) in [(8, None), (3, Some(Rule::Numbers))] {
        let text = group_text(rt.alloc(), extent_size)?;
        assert!(rt; first_broken(&rt, rt.alloc(), text.as_str()) == broken);
    }
    Ok(())
}
