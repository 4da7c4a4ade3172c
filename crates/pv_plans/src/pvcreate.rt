//! pvcreate(8): its refusals, in their order, and its change.
ghost use Rattle.std.specs.Prelude.{◌≡◌, ◌≤◌, ◌<◌, ◌^◌, ◌||◌, ◌∷◌, [], Some, IfOk, slice_get};
ghost use Rattle.group_plan.specs.Plans.{Plans};
ghost use Rattle.group_plan.specs.Judging.{Judges, first_refusal, stands_on_disk};
ghost use Rattle.group_plan.specs.State.{IsState};
ghost use Rattle.pv_plans.specs.Pvcreate.{disk_rows, fewest_sectors, group_has, is_listed, label_sector, new_areas, new_header, new_label, pvcreate_change, pvcreate_rows};

use disk_contents::PvFound;
use group_plan::{
    Change, GroupState, Labels, NewLabel, PlanRefusal, Spans, copied_disks, copied_text, has_id,
    set_of, stands_on_disk,
};
use line_answers::OpRefusal;
use lvm_id::LvmId;
use pv_header::{Extent, Extents, PvHeader};
use sector_base::{PvSet, Text};
use std::alloc::{AllocError, Global};
use vg_found::Disk;

/// Where the metadata area begins, in bytes.
const AREA_START: u64 = 4_096;

/// Where the data begin, in bytes: behind the metadata area.
const DATA_START: u64 = 1_048_576;

/// The size of a metadata area, in bytes.
const AREA_SIZE: u64 = DATA_START - AREA_START;

/// The change of a pvcreate with this id on the disk with this name, with so many copies of the metadata, 0 to 2.
///
/// # Errors
///
/// `UnknownPv` where no disk has the name, `PvUsed` where the group lists it, `TooSmall` below 2,056 sectors, with two copies
/// below 4,096, `IdTaken` where the id stands in the group or on a disk: the first of these. `NoMemory` where memory is wanting.
pub fn plan_pvcreate(
    alloc: Global,
    state: &GroupState,
    id: &LvmId,
    name: &Text,
    copies: u64,
) -> Result<Change, PlanRefusal>
    requires { IsState state.now }
    ensures { Plans (pvcreate_rows state.now id.now name.now copies) (pvcreate_change state.now id.now name.now copies) result }
{
    let Some(number) = state.names.number_of(name.as_bytes()) else {
        let name = copied_text(alloc, name)?;
        return Err(PlanRefusal::Refused(OpRefusal::UnknownPv(name)));
    };
    let disk = state.disks.get(number as usize);
    judge_disk(alloc, state, id, name, copies, number, disk)?;
    Ok(Change {
        group: None,
        zero: Spans::from_vec(Vec::new(alloc)),
        labels: new_labels(alloc, id, copies, number, disk)?,
        taken: PvSet::new(),
        cleared: PvSet::new(),
        disk_of: copied_disks(alloc, &state.disk_of)?,
    })
}

// The rows on this disk, and on the id.
fn judge_disk(
    alloc: Global,
    state: &GroupState,
    id: &LvmId,
    name: &Text,
    copies: u64,
    number: u32,
    disk: &Disk,
) -> Result<(), PlanRefusal>
    requires state { IsState state.now }
    requires disk { slice_get state.now.disks number ≡ Some disk.now }
    ensures { Judges result (first_refusal (disk_rows state.now id.now name.now copies number (Some disk.now))) }
{
    if is_listed(state, number) {
        let name = copied_text(alloc, name)?;
        return Err(PlanRefusal::Refused(OpRefusal::PvUsed(name)));
    }
    let fewest = fewest_sectors(copies);
    if disk.sectors < fewest {
        return Err(PlanRefusal::Refused(OpRefusal::TooSmall(disk.sectors, fewest)));
    }
    if is_taken(state, id) {
        return Err(PlanRefusal::Refused(OpRefusal::IdTaken(*id)));
    }
    Ok(())
}

// The fewest sectors of a disk for a physical volume with so many copies of the metadata.
fn fewest_sectors(copies: u64) -> u64
    ensures { result ≡ fewest_sectors copies }
{
    if copies == 2 { 4_096 } else { 2_056 }
}

// Whether the group lists the disk with this number.
fn is_listed(state: &GroupState, number: u32) -> bool
    requires { IsState state.now }
    ensures { result ≡ is_listed state.now number }
{
    match &state.group {
        Some(_) => set_of(state.disk_of.as_slice()).contains(number),
        None => false,
    }
}

// Whether the id stands in the group or on a disk.
fn is_taken(state: &GroupState, id: &LvmId) -> bool
    ensures { result ≡ (group_has id.now state.now.group || stands_on_disk id.now state.now.disks) }
{
    let in_group = match &state.group {
        Some(group) => has_id(group.group(), id),
        None => false,
    };
    in_group || stands_on_disk(id, state.disks.as_slice())
}

// The label on the disk.
fn new_labels(
    alloc: Global,
    id: &LvmId,
    copies: u64,
    number: u32,
    disk: &Disk,
) -> Result<Labels, AllocError>
    requires { disk.now.sectors ≤ 2 ^ 40 }
    ensures { IfOk result (λ labels. labels ≡ new_label id.now copies number disk.now ∷ []) }
{
    let label = NewLabel {
        disk: number,
        sector: label_sector(disk),
        header: new_header(alloc, id, disk.sectors, copies)?,
    };
    Ok(Labels::from_vec(vec![in alloc; label]?))
}

// The sector of the label on the disk, 1 where none was found.
fn label_sector(disk: &Disk) -> u32
    ensures { result ≡ label_sector disk.now }
{
    match &disk.contents {
        Some(PvFound::NoHeader { label, .. }) => *label,
        Some(PvFound::Whole { label, .. }) => *label,
        _ => 1,
    }
}

fn new_header(alloc: Global, id: &LvmId, sectors: u64, copies: u64) -> Result<PvHeader, AllocError>
    requires { sectors ≤ 2 ^ 40 }
    ensures { IfOk result (λ header. header ≡ new_header id.now sectors copies) }
{
    let mut data_areas = Vec::with_capacity(alloc, 1)?;
    data_areas.push(Extent {
        offset: DATA_START,
        size: 0,
    })?;
    Ok(PvHeader {
        id: *id,
        device_bytes: sectors * 512,
        data_areas: Extents::from_vec(data_areas),
        areas: new_areas(alloc, sectors, copies)?,
        version: 2,
        flags: 0,
    })
}

// The metadata areas on a disk of so many sectors: none, one in front of the data, or that one and one at the disk's end.
fn new_areas(alloc: Global, sectors: u64, copies: u64) -> Result<Extents, AllocError>
    requires { sectors ≤ 2 ^ 40 }
    ensures { IfOk result (λ list. list ≡ new_areas sectors copies) }
{
    let mut list = Vec::new(alloc);
    if copies != 0 {
        list.push(Extent {
            offset: AREA_START,
            size: AREA_SIZE,
        })?;
    }
    if copies == 2 {
        list.push(Extent {
            offset: (512 * sectors).saturating_sub(AREA_SIZE),
            size: AREA_SIZE,
        })?;
    }
    Ok(Extents::from_vec(list))
}
