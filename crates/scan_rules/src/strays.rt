//! Disks that hold something of a group that doesn't list them.
ghost use Rattle.std.specs.Prelude.{◌≡◌, ◌≤◌, length};
ghost use Rattle.std.specs.FinSet as set;
ghost use Rattle.std.specs.List.{list_any};
ghost use Rattle.scan_rules.specs.Flat.{holds_something, is_stray, strays_on};

use crate::listed::lists_disk;
use crate::readings::{AreaGives, AreaRead, DiskRead};
use id_index::Members;
use sector_base::PvSet;

// The disks that hold a copy or a refused area, and aren't listed.
pub(crate) fn stray_disks(members: &Members<'_>, disks: &[DiskRead]) -> PvSet
    requires { length disks.now ≤ 64 }
    ensures { result ≡ set.from_list (strays_on members.now 0 disks.now) }
{
    let mut strays = PvSet::new();
    for number in (0..disks.len()).rev() {
        if is_stray_disk(members, &disks[number]) {
            strays.insert(number as u32);
        }
    }
    strays
}

// Whether the disk holds something and isn't listed.
fn is_stray_disk(members: &Members<'_>, disk: &DiskRead) -> bool
    ensures { result ≡ is_stray members.now disk.now }
{
    match &disk.pv {
        Some(pv) => !lists_disk(members, disk) && hold_something(pv.areas.as_slice()),
        None => false,
    }
}

// Whether one of the areas gives a copy or was refused.
fn hold_something(areas: &[AreaRead]) -> bool
    ensures { result ≡ list_any holds_something areas.now }
{
    for area in areas {
        if gives_something(area) {
            return true;
        }
    }
    false
}

// Whether the area gives a copy or was refused.
fn gives_something(area: &AreaRead) -> bool
    ensures { result ≡ holds_something area.now }
{
    match area.gives {
        Some(AreaGives::Copy(_) | AreaGives::Refused(_)) => true,
        None | Some(AreaGives::Nothing) => false,
    }
}
