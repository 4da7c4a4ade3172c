//! Whether the physical volumes of a group lie well on the disks.
ghost use Rattle.std.specs.Prelude.{◌≡◌, ◌+◌, ◌*◌, map};
ghost use Rattle.std.specs.List.{list_any};
ghost use Rattle.volume_rules.specs.Rules.{FitsDevice};
ghost use Rattle.scan_rules.specs.Decision.{is_misplaced, meets_area};
ghost use Rattle.scan_rules.specs.Found.{is_this_misplaced};
ghost use Rattle.vg_found.specs.Disks.{area_shape, disk_shape, pv_shape};
ghost use Rattle.group_plan.specs.Judging.{Judges};
ghost use Rattle.vg_plans.specs.Vgcfgrestore.{is_misshapen, shape_row};

use disk_contents::PvFound;
use group_plan::PlanRefusal;
use id_index::Members;
use line_answers::OpRefusal;
use meta_model::Pv;
use pv_header::{Extent, PvHeader};
use vg_found::Disk;

/// The extents of each physical volume of the group that is on one of the disks lie in it, and meet neither sectors 0 to 7 nor
/// a metadata area.
///
/// # Errors
///
/// Else `BadRule`, behind the rules of groups.
pub(crate) fn judge_shape(disks: &[Disk], members: &Members<'_>) -> Result<(), PlanRefusal>
    ensures { Judges result (shape_row members.now disks.now) }
{
    for disk in disks {
        if is_misshapen(members, disk) {
            return Err(PlanRefusal::Refused(OpRefusal::BadRule(15)));
        }
    }
    Ok(())
}

// Whether those of the physical volume on this disk don't.
fn is_misshapen(members: &Members<'_>, disk: &Disk) -> bool
    ensures { result ≡ is_misshapen members.now disk.now }
{
    match &disk.contents {
        Some(PvFound::Whole { header, .. }) => has_misplaced_volume(members, disk, header),
        _ => false,
    }
}

// Whether the one of the group that has the header's id doesn't lie well on its disk. At most one has it.
fn has_misplaced_volume(members: &Members<'_>, disk: &Disk, header: &PvHeader) -> bool
    ensures { result ≡ list_any (is_this_misplaced members.now.extent_size (disk_shape disk.now) (pv_shape header.now)) members.now.pvs }
{
    let group = members.group();
    match members.get(&header.id) {
        Some(pv) => leaves_place(group.extent_size, disk, header, pv),
        None => false,
    }
}

// Whether this one doesn't.
fn leaves_place(extent_size: u64, disk: &Disk, header: &PvHeader, pv: &Pv) -> bool
    requires { FitsDevice extent_size pv.now }
    ensures { result ≡ is_misplaced pv.now.pe_start (pv.now.pe_start + pv.now.pe_count * extent_size) (disk_shape disk.now) (pv_shape header.now) }
{
    is_misplaced(
        pv.pe_start,
        pv.pe_start + pv.pe_count * extent_size,
        disk,
        header,
    )
}

// Whether the sectors between these, where there are any, leave the disk, or meet sectors 0 to 7 or an area.
fn is_misplaced(start: u64, end: u64, disk: &Disk, header: &PvHeader) -> bool
    ensures { result ≡ is_misplaced start end (disk_shape disk.now) (pv_shape header.now) }
{
    start < end
        && (disk.sectors < end || (start < 8 || meets_any(start, end, header.areas.as_slice())))
}

// Whether they meet one of the areas.
fn meets_any(start: u64, end: u64, areas: &[Extent]) -> bool
    ensures { result ≡ list_any (meets_area start end) (map area_shape areas.now) }
{
    for area in areas {
        if meets_area(start, end, area) {
            return true;
        }
    }
    false
}

// Whether they meet this one.
fn meets_area(start: u64, end: u64, area: &Extent) -> bool
    ensures { result ≡ meets_area start end (area_shape area.now) }
{
    start < area.offset / 512 + area.size / 512 && area.offset / 512 < end
}
