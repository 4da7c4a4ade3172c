//! The rows of refusals that commands share.
ghost use Rattle.std.specs.Prelude.{◌≡◌, ◌≤◌, ◌<◌, ◌^◌, All};
ghost use Rattle.mda_ring.specs.Areas.{CanTake};
ghost use Rattle.vg_found.specs.Disks.{has_header_id};
ghost use Rattle.group_plan.specs.Added.{IsAdded};
ghost use Rattle.group_plan.specs.Judging.{Judges, area_row, large_row, many_row, set_of, small_row, stands_on_disk, used_row};

use crate::copied::copied_text;
use crate::{AddedPv, PlanRefusal};
use disk_contents::PvFound;
use line_answers::OpRefusal;
use lvm_id::LvmId;
use mda_header::Locn;
use mda_ring::{Area, RingRefusal, plan_next};
use scan_rules::same_id;
use sector_base::PvSet;
use std::alloc::Global;
use vg_found::Disk;

/// The set of these numbers.
pub fn set_of(numbers: &[u32]) -> PvSet
    requires { All (λ number. number < 64) numbers.now }
    ensures { result ≡ set_of numbers.now }
{
    let mut all = PvSet::new();
    for number in numbers {
        all.insert(*number);
    }
    all
}

/// None of these is on one of the listed disks, or on one with an earlier one.
///
/// # Errors
///
/// The first that is, as `PvUsed`; `NoMemory` where memory is wanting.
#[tactic(auto, unfolding(crate::specs::Judging::used_row))]
pub fn judge_used(alloc: Global, listed: &[u32], all: &[AddedPv]) -> Result<(), PlanRefusal>
    requires listed { All (λ number. number < 64) listed.now }
    requires added { All IsAdded all.now }
    ensures { Judges result (used_row listed.now all.now) }
{
    let mut taken = set_of(listed);
    for added in all {
        if taken.contains(added.disk) {
            let name = copied_text(alloc, &added.name)?;
            return Err(PlanRefusal::Refused(OpRefusal::PvUsed(name)));
        }
        taken.insert(added.disk);
    }
    Ok(())
}

/// One of the areas lies on one of these disks.
///
/// # Errors
///
/// Else `NoArea`.
#[tactic(auto, unfolding(crate::specs::Judging::area_row))]
pub fn judge_areas(areas: &[(Area, Option<Locn>)], disks: &[u32]) -> Result<(), PlanRefusal>
    requires { All (λ number. number < 64) disks.now }
    ensures { Judges result (area_row areas.now disks.now) }
{
    let members = set_of(disks);
    for area in areas {
        if members.contains(area.0.pv) {
            return Ok(());
        }
    }
    Err(PlanRefusal::Refused(OpRefusal::NoArea))
}

/// In each of these an extent fits between its data's start and its data's end.
///
/// # Errors
///
/// The first in which none does, as `TooSmall`.
#[tactic(auto, unfolding(crate::specs::Judging::small_row))]
pub fn judge_sizes(extent_size: u64, all: &[AddedPv]) -> Result<(), PlanRefusal>
    requires size { extent_size ≤ 2 ^ 31 }
    requires added { All IsAdded all.now }
    ensures { Judges result (small_row extent_size all.now) }
{
    for added in all {
        if added.is_small(extent_size) {
            let need = added.need(extent_size);
            return Err(PlanRefusal::Refused(OpRefusal::TooSmall(added.sectors, need)));
        }
    }
    Ok(())
}

/// So many volumes are allowed, where any group may have at most so many, and this one no more than its own limit, where that
/// isn't 0.
///
/// # Errors
///
/// `TooMany` with the limit that they exceed, that of any group before the group's own.
#[tactic(auto, unfolding(crate::specs::Judging::many_row))]
pub fn judge_count(most: u64, limit: u64, count: u64) -> Result<(), PlanRefusal>
    ensures { Judges result (many_row most limit count) }
{
    if count > most {
        return Err(PlanRefusal::Refused(OpRefusal::TooMany(count, most)));
    }
    if limit != 0 && limit < count {
        return Err(PlanRefusal::Refused(OpRefusal::TooMany(count, limit)));
    }
    Ok(())
}

/// Whether the id stands in the header of a disk.
pub fn stands_on_disk(id: &LvmId, disks: &[Disk]) -> bool
    ensures { result ≡ stands_on_disk id.now disks.now }
{
    for disk in disks {
        if has_id(id, disk) {
            return true;
        }
    }
    false
}

// Whether the header on the disk has this id.
fn has_id(id: &LvmId, disk: &Disk) -> bool
    ensures { result ≡ has_header_id id.now disk.now }
{
    match &disk.contents {
        Some(PvFound::Whole { header, .. }) => same_id(&header.id, id),
        _ => false,
    }
}

/// Each area on these disks has room for a text of so many bytes, its final zero byte among them.
///
/// # Errors
///
/// The first that hasn't, as `TooLarge`.
#[tactic(auto, unfolding(crate::specs::Judging::large_row))]
pub(crate) fn judge_text(
    areas: &[(Area, Option<Locn>)],
    disks: &[u32],
    size: u64,
) -> Result<(), PlanRefusal>
    requires disks { All (λ number. number < 64) disks.now }
    requires areas { All CanTake areas.now }
    requires size { 1 ≤ size }
    ensures { Judges result (large_row areas.now disks.now size) }
{
    let members = set_of(disks);
    for (area, committed) in areas {
        if members.contains(area.pv) {
            if let Err(RingRefusal::TooLarge { need, room }) = plan_next(area, *committed, size) {
                return Err(PlanRefusal::Refused(OpRefusal::TooLarge(need, room)));
            }
        }
    }
    Ok(())
}
