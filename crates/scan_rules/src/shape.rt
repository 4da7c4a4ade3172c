//! Whether the physical volumes of the group lie well on their disks.
ghost use Rattle.std.specs.Prelude.{◌≡◌, ◌≤◌, ◌<◌, ◌+◌, ◌*◌, ◌^◌, [], length, map};
ghost use Rattle.std.specs.List.{list_any};
ghost use Rattle.scan_rules.specs.Found.{is_this_misplaced};
ghost use Rattle.scan_rules.specs.Decision.{first_misplaced, has_misplaced, is_misplaced, meets_area};
ghost use Rattle.scan_rules.specs.Readings.{area_of, found_of, reading_of, readings_of};

use crate::readings::{AreaRead, DiskRead, PvRead};
use id_index::Members;
use meta_model::Pv;

// The first disk on which a physical volume of the group doesn't lie well.
pub(crate) fn find_misplaced(members: &Members<'_>, disks: &[DiskRead]) -> Option<u32>
    requires { length disks.now ≤ 64 }
    ensures { result ≡ first_misplaced members.now (readings_of [] disks.now) }
{
    for (number, disk) in disks.iter().enumerate() {
        if is_misplaced_on(members, disk) {
            return Some(number as u32);
        }
    }
    None
}

// Whether one doesn't lie well on this disk.
fn is_misplaced_on(members: &Members<'_>, disk: &DiskRead) -> bool
    ensures { result ≡ has_misplaced members.now (reading_of [] disk.now) }
{
    match &disk.pv {
        Some(found) => has_misplaced_volume(members, disk, found),
        None => false,
    }
}

// Whether the group's physical volume that is this one of the disk doesn't lie well there. It has at most one that is.
fn has_misplaced_volume(members: &Members<'_>, disk: &DiskRead, found: &PvRead) -> bool
    ensures { result ≡
        list_any
        (is_this_misplaced members.now.extent_size (reading_of [] disk.now) (found_of [] found.now))
        members.now.pvs }
{
    let group = members.group();
    match members.get(&found.id) {
        Some(pv) => leaves_place(pv, group.extent_size, disk, found),
        None => false,
    }
}

// Whether the extents of the physical volume leave the disk, or meet sectors 0 to 7 or an area. The sums fit, since
// each factor has 64 bits.
fn leaves_place(pv: &Pv, extent_size: u64, disk: &DiskRead, found: &PvRead) -> bool
    ensures { result ≡
        is_misplaced pv.now.pe_start (pv.now.pe_start + pv.now.pe_count * extent_size)
        (reading_of [] disk.now) (found_of [] found.now) }
{
    let start = u128::from(pv.pe_start);
    let end = start + u128::from(pv.pe_count) * u128::from(extent_size);
    start < end
        && (u128::from(disk.sectors) < end
            || start < 8
            || meets_areas(start, end, found.areas.as_slice()))
}

// Whether these sectors meet an area.
fn meets_areas(start: u128, end: u128, areas: &[AreaRead]) -> bool
    ensures { result ≡ list_any (meets_area start end) (map (area_of []) areas.now) }
{
    for area in areas {
        if meets(start, end, area) {
            return true;
        }
    }
    false
}

// Whether these sectors meet the area.
fn meets(start: u128, end: u128, area: &AreaRead) -> bool
    ensures { result ≡ meets_area start end (area_of [] area.now) }
{
    let first = u128::from(area.start);
    start < first + u128::from(area.sectors) && first < end
}
