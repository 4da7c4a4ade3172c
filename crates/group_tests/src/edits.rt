//! Next versions of a small group, each made once.
ghost use Rattle.std.specs.Prelude.{◌≢◌};

use crate::groups::{group_of_text, small_group_text};
use group_edits::{
    find_visible, has_leg_on_pv, next_version, reduced_group, renamed_group, renamed_volume,
    restored_group, without_volume,
};
use lvm_name::{GroupName, VolumeName};
use sector_base::Text;
use seg_place::is_moving;
use std::alloc::Global;
use std::process::Abort;
use vg_check::Checked;

fn typed(rt: &impl Abort, alloc: Global, bytes: &[u8]) -> Text {
    Text::from_vec(Vec::from_slice(alloc, bytes).expect(rt, "there is memory"))
}

// (through a copy: the bytes of a literal are taken apart where it is handed to a call)
fn small_group(rt: &impl Abort, alloc: Global) -> Checked {
    group_of_text(rt, alloc, typed(rt, alloc, small_group_text()).as_bytes())
}

// The group, whose number isn't the last one.
fn group_to_change(rt: &impl Abort, alloc: Global) -> Checked
    ensures { result.seqno ≢ 4294967295 }
{
    let group = small_group(rt, alloc);
    assert!(rt; group.group().seqno != 4_294_967_295);
    group
}

#[test]
fn a_visible_volume_is_found(rt: HostRuntime) {
    let group = small_group(&rt, rt.alloc());
    let name = typed(&rt, rt.alloc(), b"data");
    let found = group.group();
    assert!(rt; found.lvs.len() <= 1_024);
    assert!(rt; find_visible(found, &name) == Some(0));
    assert!(rt; has_leg_on_pv(found, 1));
}

#[test]
fn the_next_version_has_the_next_seqno(rt: HostRuntime) {
    let group = small_group(&rt, rt.alloc());
    let next = next_version(rt.alloc(), &group).expect(&rt, "there is memory");
    assert!(rt; next.seqno == 8);
}

#[test]
fn a_group_that_keeps_all_rules_is_checked(rt: HostRuntime) {
    let group = small_group(&rt, rt.alloc());
    let again = Checked::new(group.into_group());
    assert!(rt; again.group().seqno == 7);
}

#[test]
fn a_group_is_renamed(rt: HostRuntime) {
    let group = group_to_change(&rt, rt.alloc());
    let name = GroupName::new(rt.alloc(), b"vg1").expect(&rt, "a name");
    let next = renamed_group(rt.alloc(), &group, name).expect(&rt, "there is memory");
    assert!(rt; next.group().seqno == 8);
}

#[test]
fn a_volume_is_renamed(rt: HostRuntime) {
    let group = group_to_change(&rt, rt.alloc());
    let old = typed(&rt, rt.alloc(), b"data");
    let new = VolumeName::new(rt.alloc(), b"home").expect(&rt, "a name");
    let found = group.group();
    assert!(rt; found.lvs.len() <= 1_024);
    assert!(rt; find_visible(found, &old).is_some());
    assert!(rt; !found.lvs.contains(&new));
    let next = renamed_volume(rt.alloc(), &group, &old, &new).expect(&rt, "there is memory");
    assert!(rt; next.group().lvs.contains(&new));
}

// The group without this volume.
fn without(rt: &impl Abort, alloc: Global, group: &Checked, name: &[u8]) -> Checked
    requires { group.now.seqno ≢ 4294967295 }
{
    let name = typed(rt, alloc, name);
    let found = group.group();
    assert!(rt; found.lvs.len() <= 1_024);
    let number = find_visible(found, &name).expect(rt, "it is visible");
    assert!(rt; !is_moving(found, number));
    without_volume(alloc, group, number).expect(rt, "there is memory")
}

#[test]
fn a_volume_is_removed(rt: HostRuntime) {
    let group = group_to_change(&rt, rt.alloc());
    let rest = without(&rt, rt.alloc(), &group, b"data");
    assert!(rt; rest.group().lvs.len() == 0);
}

// The group without its first physical volume.
fn reduced(rt: &impl Abort, alloc: Global, group: &Checked) -> Checked
    requires { group.now.seqno ≢ 4294967295 }
{
    let found = group.group();
    assert!(rt; found.pvs.len() == 2);
    assert!(rt; !has_leg_on_pv(found, 0));
    reduced_group(alloc, group, 0).expect(rt, "there is memory")
}

#[test]
fn an_unused_physical_volume_goes(rt: HostRuntime) {
    let group = group_to_change(&rt, rt.alloc());
    let rest = reduced(&rt, rt.alloc(), &group);
    assert!(rt; rest.group().pvs.len() == 1);
}

#[test]
fn a_group_is_restored(rt: HostRuntime) {
    let found = group_to_change(&rt, rt.alloc());
    let said = group_to_change(&rt, rt.alloc());
    let next = restored_group(rt.alloc(), &found, &said).expect(&rt, "there is memory");
    assert!(rt; next.group().seqno == 8);
}
