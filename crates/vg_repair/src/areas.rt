//! The stale areas, and whether each has room for the text.
ghost use Rattle.std.specs.Prelude.{◌≡◌, ◌≤◌, ◌++◌, length, All, IfOk, MatchResult, None};
ghost use Rattle.std.specs.List.{enumerate_from, filter_map};
ghost use Rattle.mda_ring.specs.Areas.{CanTake};
ghost use Rattle.vg_repair.specs.Stale.{IsCause, stale_by, stale_in, too_large_among};

use crate::RepairFault;
use crate::stale_set::StaleSet;
use disk_contents::{AreaFound, PvFound};
use mda_header::Locn;
use mda_ring::{Area, Areas, RingRefusal, plan_next};
use sector_base::Text;
use std::alloc::{AllocError, Global};
use vg_found::{Disk, held_area};

// The stale areas of the disks, each with the entry of its committed text. Only memory can be wanting.
pub(crate) fn stale_areas(
    alloc: Global,
    disks: &[Disk],
    stale: &[(u32, u32)],
) -> Result<Areas, AllocError>
    requires few { length disks.now ≤ 64 }
    ensures { IfOk result (λ areas. areas ≡ stale_by stale.now disks.now) }
{
    let stale = StaleSet::of(alloc, stale)?;
    let mut list = Vec::new(alloc);
    for (number, disk) in disks.iter().enumerate() {
        if let Some(PvFound::Whole { areas, .. }) = &disk.contents {
            push_stale(number as u32, areas.as_slice(), &stale, &mut list)?;
        }
    }
    Ok(Areas::from_vec(list))
}

// Puts the stale ones of a disk's areas behind the others.
fn push_stale(
    pv: u32,
    areas: &[AreaFound],
    stale: &StaleSet<'_>,
    list: &mut Vec<(Area, Option<Locn>)>,
) -> Result<(), AllocError>
    ensures { IfOk result (λ _. list.new.items ≡ list.old.items ++ filter_map (stale_in stale.now pv) (enumerate_from 0 areas.now)) }
{
    for (number, found) in areas.iter().enumerate() {
        if let Some(area) = stale_area(pv, number, found, stale) {
            list.push(area)?;
        }
    }
    Ok(())
}

// The area on this disk and with this number there, where it is stale.
fn stale_area(
    pv: u32,
    number: usize,
    found: &AreaFound,
    stale: &StaleSet<'_>,
) -> Option<(Area, Option<Locn>)>
    ensures { result ≡ stale_in stale.now pv (number, found.now) }
{
    if stale.contains(pv, number) {
        held_area(pv, found)
    } else {
        None
    }
}

// Whether each of the areas has room for the text; the first that has none is answered.
pub(crate) fn have_room(areas: &[(Area, Option<Locn>)], text: &Text) -> Result<(), RepairFault>
    requires { All CanTake areas.now }
    ensures { MatchResult result (λ _. too_large_among text.now areas.now ≡ None) (IsCause text.now areas.now) }
{
    let size = text.as_bytes().len() as u64 + 1;
    for (area, committed) in areas {
        if let Err(RingRefusal::TooLarge { need, room }) = plan_next(area, *committed, size) {
            return Err(RepairFault::TooLarge {
                pv: area.pv,
                need,
                room,
            });
        }
    }
    Ok(())
}
