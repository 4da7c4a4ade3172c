//! The lines of lvs: a visible volume each.
ghost use Rattle.std.specs.Prelude.{◌≡◌, ◌≤◌, ◌<◌, ◌^◌, ◌*◌, ◌++◌, [], IfOk, codes, if◌then◌else◌, sum_by};
ghost use Rattle.meta_model.specs.declared.segment.Segment.{Segment as SegmentOf};
ghost use Rattle.volume_rules.specs.Extents.{extents_of};
ghost use Rattle.volume_rules.specs.Rules.{IsAccepted};
ghost use Rattle.lvm_report.specs.Reports.{lv_lines};
ghost use Rattle.lvm_report.specs.VolumeLine.{volume_line};
ghost use Rattle.lvm_report.specs.Volumes.{first_kind};

use crate::columns::{put_last, put_left};
use crate::kinds::first_kind;
use crate::moving::moving_volumes;
use lvm_name::VolumeName;
use meta_model::{Group, Lv, Segment};
use std::alloc::{AllocError, Global};

/// Appends a line for each visible volume of the group.
pub fn put_volumes(alloc: Global, text: &mut Vec<u8>, group: &Group) -> Result<(), AllocError>
    requires { IsAccepted group.now }
    ensures { IfOk result (λ _. text.new.items ≡ text.old.items ++ lv_lines group.now) }
{
    let moving = moving_volumes(alloc, group)?;
    for number in 0..group.lvs.len() {
        let (name, lv) = group.lvs.get(number);
        let kind = kind_of(lv, moving[number]);
        put_if_visible(text, group, name, lv, kind)?;
    }
    Ok(())
}

// The kind of the volume, which is moving or not.
fn kind_of(lv: &Lv, moving: bool) -> &'static str
    ensures { result.now ≡ (if moving then codes "moving" else first_kind lv.now.segments) }
{
    if moving {
        "moving"
    } else {
        first_kind(lv.segments.as_slice())
    }
}

// Appends the line of the volume, which is of this kind, if it is visible.
fn put_if_visible(
    text: &mut Vec<u8>,
    group: &Group,
    name: &VolumeName,
    lv: &Lv,
    kind: &str,
) -> Result<(), AllocError>
    requires size { 1 ≤ group.now.extent_size }
    requires few { extents_of lv.now * group.now.extent_size < 2 ^ 48 }
    ensures { IfOk result (λ _. text.new.items ≡ text.old.items ++ (if lv.now.status.visible then volume_line group.now name.now kind.now (extents_of lv.now) else [])) }
{
    if lv.status.is_visible() {
        put_volume(text, group, name, lv, kind)
    } else {
        Ok(())
    }
}

// Appends the line of the volume, which is of this kind.
fn put_volume(
    text: &mut Vec<u8>,
    group: &Group,
    name: &VolumeName,
    lv: &Lv,
    kind: &str,
) -> Result<(), AllocError>
    requires size { 1 ≤ group.now.extent_size }
    requires few { extents_of lv.now * group.now.extent_size < 2 ^ 48 }
    ensures { IfOk result (λ _. text.new.items ≡ text.old.items ++ volume_line group.now name.now kind.now (extents_of lv.now)) }
{
    let extents = count_extents(lv.segments.as_slice());
    put_left(text, 16, name.as_bytes())?;
    put_left(text, 16, group.name.as_bytes())?;
    put_left(text, 6, kind.as_bytes())?;
    put_last(text, 12, extents * group.extent_size)
}

// How many extents the segments have.
fn count_extents(segments: &[Segment]) -> u64
    requires { sum_by (λ (segment : SegmentOf). segment.count) segments.now < 2 ^ 64 }
    ensures { result ≡ sum_by (λ (segment : SegmentOf). segment.count) segments.now }
{
    let mut extents = 0;
    for segment in segments {
        extents += segment.count;
    }
    extents
}
