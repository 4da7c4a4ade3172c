//! What disks come to of which one has a copy of the group's text.
ghost use Rattle.std.specs.Prelude.{IfOk};
ghost use Rattle.scan_rules.specs.Readings.{DiskIsOf};

use conf_text::read_conf;
use lvm_id::{LvmId, parse_plain};
use meta_read::group_of;
use scan_rules::{
    AreaGives, AreaRead, Decided, DiskRead, GroupCopy, PvRead, Readings, ScanRefusal, decide,
};
use sector_base::{ItemList, Text};
use std::alloc::{AllocError, Global};
use std::process::Abort;
use std::test::Fail;
use vg_check::check;

fn id(rt: &impl Abort, text: &[u8; 32]) -> LvmId {
    parse_plain(text).expect(rt, "an id")
}

const FIRST: &[u8; 32] = b"00000000100000000100000030000000";

const SECOND: &[u8; 32] = b"00000000100000000100000030000001";

const THIRD: &[u8; 32] = b"00000000100000000100000030000002";

// A group with the first and the third of these physical volumes.
fn group_text() -> &'static [u8] {
    br#"
vg0 {
id = "400000-0050-0000-0060-0000-0070-000000"
seqno = 1
format = "lvm2"
status = ["RESIZEABLE", "READ", "WRITE"]
flags = []
extent_size = 8192
max_lv = 0
max_pv = 0
metadata_copies = 0
physical_volumes {
pv0 {
id = "000000-0010-0000-0001-0000-0030-000000"
device = "a"
status = ["ALLOCATABLE"]
flags = []
dev_size = 131072
pe_start = 2048
pe_count = 15
}
pv1 {
id = "000000-0010-0000-0001-0000-0030-000002"
device = "b"
status = ["ALLOCATABLE"]
flags = []
dev_size = 131072
pe_start = 2048
pe_count = 15
}
}
}
contents = "Text Format Volume Group"
version = 1
description = ""
creation_host = "localhost"
creation_time = 0
"#
}

// A copy of the group, with this for its text.
fn copy(rt: &impl Abort, alloc: Global, text: &[u8]) -> Result<GroupCopy, AllocError> {
    let tree = read_conf(alloc, group_text()).expect(rt, "the text has a tree");
    let (group, passed) = group_of(alloc, &tree).expect(rt, "the tree has a group");
    Ok(GroupCopy {
        group: check(group).ok().expect(rt, "it keeps all rules"),
        text: Text::from_vec(Vec::from_slice(alloc, text)?),
        passed,
    })
}

// A disk with two areas: the second copy, and nothing.
fn disk_with_copy(alloc: Global, id: LvmId) -> Result<DiskRead, AllocError>
    ensures { IfOk result (DiskIsOf 2) }
{
    let holder = AreaRead {
        start: 8,
        sectors: 2_040,
        gives: Some(AreaGives::Copy(1)),
    };
    let empty = AreaRead {
        start: 130_000,
        sectors: 1_072,
        gives: Some(AreaGives::Nothing),
    };
    Ok(DiskRead {
        sectors: 131_072,
        pv: Some(PvRead {
            id,
            areas: ItemList::from_vec(vec![in alloc; holder, empty]?),
        }),
    })
}

// What two disks come to, the first of them in the group, each with the second of two copies of it, whose texts differ.
fn answer(rt: &impl Abort, alloc: Global) -> Result<Result<Decided, ScanRefusal>, AllocError> {
    let mut readings = Readings::new(alloc);
    readings.push_copy(copy(rt, alloc, b"a")?)?;
    readings.push_copy(copy(rt, alloc, b"b")?)?;
    readings.push_disk(disk_with_copy(alloc, id(rt, FIRST))?)?;
    readings.push_disk(disk_with_copy(alloc, id(rt, SECOND))?)?;
    Ok(decide(alloc, readings))
}

#[test]
fn a_listed_disk_holds_the_group(rt: HostRuntime) -> Result<(), Fail> {
    let decided = answer(&rt, rt.alloc())?.ok().expect(&rt, "an answer");
    let copy = decided.copy.expect(&rt, "a group");
    assert_eq!(rt; copy.text.as_bytes(), b"b".as_slice());
    assert_eq!(rt; (decided.stale.len(), decided.missing.len()), (1, 1));
    assert_eq!(rt; decided.stale.as_slice()[0], (0, 1));
    assert!(rt; decided.missing.as_slice()[0] == id(&rt, THIRD));
    assert!(rt; decided.strays.contains(1) && !decided.strays.contains(0));
    Ok(())
}
