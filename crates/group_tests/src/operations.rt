//! A line that is planned on one disk, and a text that gives a group.
ghost use Rattle.std.specs.Prelude.{◌≡◌, [], ◌∷◌, codes, IfOk};
ghost use Rattle.lvm_id.specs.LvmId.{IsId};
ghost use Rattle.group_plan.specs.State.{IsState};

use command_table::Command;
use disk_contents::PvFound;
use group_ops::plan;
use group_plan::{Backup, Change, GroupState, PlanRefusal, copied_header, read_backup};
use line_answers::DiskNames;
use lvm_id::{LvmId, parse_plain};
use lvm_script::Line;
use pv_header::{Extent, Extents, PvHeader, PvRefusal};
use sector_base::{PvDisks, Text};
use std::alloc::{AllocError, Global};
use std::process::Abort;
use std::test::Fail;
use vg_found::{Disk, DiskTable, held_areas};

fn id(rt: &impl Abort) -> LvmId
    ensures { IsId result }
{
    parse_plain(b"newnew0000000100000030000000zzzz").expect(rt, "an id")
}

fn text(alloc: Global, bytes: &[u8]) -> Result<Text, AllocError> {
    Ok(Text::from_vec(Vec::from_slice(alloc, bytes)?))
}

fn disk_names(alloc: Global) -> Result<DiskNames, AllocError>
    ensures { IfOk result (λ names. names ≡ codes "c" ∷ []) }
{
    let c = String::from_str(alloc, "c")?;
    Ok(DiskNames::from_vec(vec![in alloc; c]?))
}

// The state of one disk without a group: it has a label in sector 3, and no physical volume.
fn bare_state(alloc: Global) -> Result<GroupState, AllocError>
    ensures { IfOk result IsState }
{
    let disk = Disk {
        sectors: 2_056,
        contents: Some(PvFound::NoHeader {
            label: 3,
            refusal: PvRefusal::ListUnended(1),
        }),
    };
    let disks = vec![in alloc; disk]?;
    let areas = held_areas(alloc, &disks)?;
    let names = disk_names(alloc)?;
    Ok(GroupState {
        group: None,
        disks: DiskTable::from_vec(disks),
        names,
        areas,
        disk_of: PvDisks::from_vec(Vec::new(alloc)),
        backup: None,
    })
}

fn pvcreate(
    rt: &impl Abort,
    alloc: Global,
    state: &GroupState,
    pv: Text,
) -> Result<Change, PlanRefusal>
    requires { IsState state.now }
{
    let drawn = id(rt);
    let line = Line {
        number: 1,
        id: Some(drawn),
        command: Command::Pvcreate {
            pv,
            metadata_copies: 1,
        },
    };
    plan(alloc, state, &line, 0)
}

// Stops unless one label is written, and no group.
fn assert_one_label(rt: &impl Abort, planned: Result<Change, PlanRefusal>) {
    match planned {
        Ok(change) => {
            assert!(rt; change.group.is_none());
            assert!(rt; change.labels.len() == 1);
        }
        Err(_) => panic!(rt; "a change"),
    }
}

#[test]
fn pvcreate_writes_one_label(rt: HostRuntime) -> Result<(), Fail> {
    let state = bare_state(rt.alloc())?;
    let pv = text(rt.alloc(), b"c").expect(&rt, "memory");
    assert_one_label(&rt, pvcreate(&rt, rt.alloc(), &state, pv));
    Ok(())
}

fn group_text() -> &'static [u8] {
    br#"
vg {
id = "400000-0050-0000-0060-0000-0070-000000"
seqno = 7
extent_size = 8
max_lv = 0
max_pv = 0
status = ["READ", "WRITE"]
physical_volumes {
pv0 {
id = "000000-0010-0000-0001-0000-0030-000000"
pe_start = 8
pe_count = 15
status = []
}
}
}
"#
}

#[test]
fn a_text_gives_its_group(rt: HostRuntime) {
    let said = text(rt.alloc(), group_text()).expect(&rt, "memory");
    match read_backup(rt.alloc(), &said).expect(&rt, "memory") {
        Backup::Sound(group) => assert!(rt; group.group().seqno == 7),
        _ => panic!(rt; "it keeps all rules"),
    }
}

#[test]
fn a_text_without_a_tree_gives_no_group(rt: HostRuntime) {
    let said = text(rt.alloc(), b"{").expect(&rt, "memory");
    match read_backup(rt.alloc(), &said).expect(&rt, "memory") {
        Backup::Unread(kind) => assert!(rt; kind.as_bytes() == b"BadToken".as_slice()),
        _ => panic!(rt; "it has no tree"),
    }
}

fn header(rt: &impl Abort, alloc: Global) -> Result<PvHeader, AllocError> {
    let area = Extent {
        offset: 4_096,
        size: 1_044_480,
    };
    let data_areas = Extents::from_vec(Vec::from_slice(alloc, &[area])?);
    let areas = Extents::from_vec(Vec::from_slice(alloc, &[area])?);
    Ok(PvHeader {
        id: id(rt),
        device_bytes: 1_052_672,
        data_areas,
        areas,
        version: 2,
        flags: 0,
    })
}

#[test]
fn a_header_is_copied(rt: HostRuntime) {
    let header = header(&rt, rt.alloc()).expect(&rt, "memory");
    let copy = copied_header(rt.alloc(), &header).expect(&rt, "memory");
    assert!(rt; copy.areas.len() == 1);
}
