//! Each public function once: tables that are filled, a group that is copied, and refusals as they print.
use crate::groups::{group, mirrored, name, one_lv, one_pv, text};
use meta_model::{GroupRefusal, LvTable};
use std::alloc::AllocError;

#[test]
fn a_table_finds_its_rows_by_their_names(rt: HostRuntime) {
    let pvs = one_pv(&rt, rt.alloc());
    let known = name(&rt, rt.alloc(), b"pv0");
    assert!(rt; pvs.len() == 1);
    assert!(rt; pvs.get(0).1.pe_count == 15);
    assert!(rt; pvs.contains(&known));
    assert!(rt; pvs.position(&known) == Some(0));
}

#[test]
fn volumes_have_room_for_runs(rt: HostRuntime) {
    let lvs = one_lv(&rt, rt.alloc());
    let known = name(&rt, rt.alloc(), b"data");
    assert!(rt; LvTable::new(rt.alloc()).len() == 0);
    assert!(rt; lvs.len() == 1);
    assert!(rt; lvs.get(0).1.created == 5);
    assert!(rt; lvs.rows().len() == 1);
    assert!(rt; lvs.contains(&known));
    assert!(rt; lvs.position(&known) == Some(0));
    let (rows, runs) = lvs.into_parts();
    let lvs = LvTable::from_parts(rows, runs);
    assert!(rt; lvs.len() == 1);
}

#[test]
fn a_group_is_copied(rt: HostRuntime) {
    let group = group(&rt, rt.alloc());
    let copy = group.try_copy(rt.alloc()).expect(&rt, "memory");
    assert!(rt; copy.seqno == 7);
    assert!(rt; copy.pvs.len() == 1);
    assert!(rt; copy.lvs.len() == 1);
}

#[test]
fn a_segment_is_copied(rt: HostRuntime) {
    let segment = mirrored(rt.alloc()).expect(&rt, "memory");
    let copy = segment.try_copy(rt.alloc()).expect(&rt, "memory");
    assert!(rt; copy.kind.legs().len() == 2);
}

#[test]
fn a_refusal_prints_its_kind_and_values(rt: HostRuntime) -> Result<(), AllocError> {
    let unknown = GroupRefusal::UnknownName(text(rt.alloc(), b"x\xC3")?);
    assert_eq!(rt; unknown.kind(), "UnknownName");
    let shown = format!(in rt.alloc(); "{unknown}")?;
    assert_eq!(rt; shown.as_str(), "UnknownName x?");
    let differs = GroupRefusal::CountDiffers(1_000_000, 1);
    let shown = format!(in rt.alloc(); "{differs}")?;
    assert_eq!(rt; shown.as_str(), "CountDiffers 1000000 1");
    Ok(())
}
