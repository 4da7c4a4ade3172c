//! Areas that hold something else than the group in force.
ghost use Rattle.std.specs.Prelude.{◌≡◌, ◌≤◌, ◌<◌, ◌^◌, ◌++◌, Some, length, map, slice_get, IfOk};
ghost use Rattle.std.specs.List.{AllByRecursion};
ghost use Rattle.scan_rules.specs.Found.{HasFewAreas, stale_from, stale_of, stale_on};
ghost use Rattle.scan_rules.specs.Readings.{area_of, reading_of, readings_of};

use crate::listed::lists_id;
use crate::readings::{AreaRead, DiskRead, GroupCopy};
use crate::texts::gives_text;
use id_index::Members;
use std::alloc::{AllocError, Global};

// The areas of the listed disks that hold anything else than the copy, by disk and number.
pub(crate) fn stale_areas(
    alloc: Global,
    copies: &[GroupCopy],
    disks: &[DiskRead],
    members: &Members<'_>,
    own: usize,
    copy: &GroupCopy,
) -> Result<Vec<(u32, u32)>, AllocError>
    requires copy { slice_get copies.now own ≡ Some copy.now }
    requires disks { length disks.now ≤ 64 }
    requires areas { AllByRecursion HasFewAreas disks.now }
    ensures { IfOk result (λ stale.
        stale.items ≡ stale_on members.now copy.now.text 0 (readings_of copies.now disks.now)) }
{
    let mut stale = Vec::new(alloc);
    for (number, disk) in disks.iter().enumerate() {
        push_stale_of(&mut stale, copies, number as u32, disk, members, own, copy)?;
    }
    Ok(stale)
}

// Puts the stale areas of the disk behind the others, where the group lists it.
fn push_stale_of(
    stale: &mut Vec<(u32, u32)>,
    copies: &[GroupCopy],
    number: u32,
    disk: &DiskRead,
    members: &Members<'_>,
    own: usize,
    copy: &GroupCopy,
) -> Result<(), AllocError>
    requires copy { slice_get copies.now own ≡ Some copy.now }
    requires areas { HasFewAreas disk.now }
    ensures { IfOk result (λ _.
        stale.new.items ≡
        stale.old.items ++ stale_of members.now copy.now.text (number, reading_of copies.now disk.now)) }
{
    match &disk.pv {
        Some(pv) if lists_id(members, &pv.id) => {
            push_stale(stale, copies, number, pv.areas.as_slice(), own, copy)
        }
        _ => Ok(()),
    }
}

// Puts the stale ones of these areas of the disk behind the others.
fn push_stale(
    stale: &mut Vec<(u32, u32)>,
    copies: &[GroupCopy],
    disk: u32,
    areas: &[AreaRead],
    own: usize,
    copy: &GroupCopy,
) -> Result<(), AllocError>
    requires copy { slice_get copies.now own ≡ Some copy.now }
    requires areas { length areas.now < 2 ^ 32 }
    ensures { IfOk result (λ _.
        stale.new.items ≡
        stale.old.items ++ stale_from copy.now.text disk 0 (map (area_of copies.now) areas.now)) }
{
    for (number, area) in areas.iter().enumerate() {
        if let Some(gives) = &area.gives {
            if !gives_text(copies, gives, own, copy) {
                stale.push((disk, number as u32))?;
            }
        }
    }
    Ok(())
}
