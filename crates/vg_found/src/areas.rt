//! The metadata areas of all disks.
ghost use Rattle.std.specs.Prelude.{◌≡◌, ◌≤◌, ◌++◌, length, IfOk, filter_map};
ghost use Rattle.vg_found.specs.Disks.{held_area, held_areas};

use crate::Disk;
use disk_contents::{AreaFound, PvFound};
use mda_header::{HeaderEntry, Locn};
use mda_ring::{Area, Areas};
use std::alloc::{AllocError, Global};

/// The metadata areas of the disks that aren't ignored, in their order, each with the entry of its committed text.
///
/// # Errors
///
/// Where memory is wanting.
pub fn held_areas(alloc: Global, disks: &[Disk]) -> Result<Areas, AllocError>
    requires few { length disks.now ≤ 64 }
    ensures { IfOk result (λ areas. areas ≡ held_areas 0 disks.now) }
{
    let mut held = Vec::new(alloc);
    for (number, disk) in disks.iter().enumerate() {
        if let Some(PvFound::Whole { areas, .. }) = &disk.contents {
            push_held(&mut held, number as u32, areas.as_slice())?;
        }
    }
    Ok(Areas::from_vec(held))
}

// Puts the areas of the disk that aren't ignored behind the others.
fn push_held(
    held: &mut Vec<(Area, Option<Locn>)>,
    disk: u32,
    areas: &[AreaFound],
) -> Result<(), AllocError>
    ensures { IfOk result (λ _. held.new.items ≡ held.old.items ++ filter_map (held_area disk) areas.now) }
{
    for found in areas {
        if let Some(area) = held_area(disk, found) {
            held.push(area)?;
        }
    }
    Ok(())
}

/// The area on this disk with the entry of its committed text, where it isn't ignored.
pub fn held_area(disk: u32, found: &AreaFound) -> Option<(Area, Option<Locn>)>
    ensures { result ≡ held_area disk found.now }
{
    let area = Area {
        pv: disk,
        start: found.area.offset,
        size: found.area.size,
    };
    match found.entry {
        HeaderEntry::Ignored => None,
        HeaderEntry::Text(locn) => Some((area, Some(locn))),
        HeaderEntry::Nothing | HeaderEntry::Refused(_) => Some((area, None)),
    }
}
