//! vgcreate(8): its refusals, in their order, and its change.
ghost use Rattle.std.specs.Prelude.{◌≡◌, ◌≤◌, ◌<◌, ◌%◌, ◌^◌, None, All, IfOk};
ghost use Rattle.lvm_id.specs.LvmId.{IsId};
ghost use Rattle.lvm_name.specs.Names.{group_name_refusal};
ghost use Rattle.line_answers.specs.declared.op_refusal.OpRefusal.TheVariants.{IdTaken};
ghost use Rattle.group_plan.specs.Added.{IsAdded, disks_added};
ghost use Rattle.group_plan.specs.Judging.{Judges, first_refusal, refused_if, stands_on_disk};
ghost use Rattle.group_plan.specs.Plans.{Plans};
ghost use Rattle.group_plan.specs.State.{IsState};
ghost use Rattle.vg_plans.specs.Vgcreate.{IsEmptyGroup, create_rows, empty_group, new_rows, vgcreate_change, vgcreate_rows};

use bitflags::Flags;
use group_plan::{
    AddedPv, Change, GroupState, PlanRefusal, commit, copied_bytes, disks_with, find_all_added,
    group_name, judge_areas, judge_count, judge_sizes, judge_used, stands_on_disk,
};
use line_answers::OpRefusal;
use lvm_id::LvmId;
use meta_model::{Group, LvTable, PvTable, VgStatus, VgWords};
use sector_base::Text;
use std::alloc::{AllocError, Global};
use vg_check::MOST_PVS;

/// The change of a vgcreate of a group with this id, name and extent size of the physical volumes on the disks with these
/// names.
///
/// # Errors
///
/// `GroupStands` with the found group's name where one was found; `UnknownPv`, `PvUsed`, `NoArea`, `TooSmall`, `TooMany`,
/// `IdTaken` where the id stands on a disk, or `TooLarge`: the first of these. `NoMemory` where memory is wanting.
pub fn plan_vgcreate(
    alloc: Global,
    state: &GroupState,
    id: &LvmId,
    vg: &Text,
    extent_size: u64,
    names: &[Text],
    now: u64,
) -> Result<Change, PlanRefusal>
    requires state { IsState state.now }
    requires id { IsId id.now }
    requires name { group_name_refusal vg.now ≡ None }
    requires size { (8 ≤ extent_size) × (extent_size ≤ 2 ^ 31) × (extent_size % 8 ≡ 0) }
    ensures { Plans (vgcreate_rows state.now (empty_group id.now vg.now extent_size) names.now now)
        (vgcreate_change state.now (empty_group id.now vg.now extent_size) names.now) result }
{
    match &state.group {
        Some(group) => {
            let name = copied_bytes(alloc, group.group().name.as_bytes())?;
            Err(PlanRefusal::Refused(OpRefusal::GroupStands(name)))
        }
        None => {
            let base = empty_group(alloc, id, vg, extent_size)?;
            create(alloc, state, base, names, now)
        }
    }
}

// The change where no group was found, and this is the group without its physical volumes.
fn create(
    alloc: Global,
    state: &GroupState,
    base: Group,
    names: &[Text],
    now: u64,
) -> Result<Change, PlanRefusal>
    requires state { IsState state.now }
    requires new { IsEmptyGroup base }
    ensures { Plans (new_rows state.now base names.now now) (vgcreate_change state.now base names.now) result }
{
    let all = find_all_added(alloc, state, names)?;
    judge_added(alloc, state, &base, &all)?;
    commit(alloc, state, base, &[], all, now)
}

// The group of this name, id and extent size without volumes.
fn empty_group(alloc: Global, id: &LvmId, vg: &Text, extent_size: u64) -> Result<Group, AllocError>
    requires { group_name_refusal vg.now ≡ None }
    ensures { IfOk result (λ group. group ≡ empty_group id.now vg.now extent_size) }
{
    Ok(Group {
        name: group_name(alloc, vg)?,
        id: *id,
        seqno: 1,
        status: VgStatus::of(
            VgWords::RESIZEABLE
                .union(VgWords::READ)
                .union(VgWords::WRITE),
        ),
        extent_size,
        max_lv: 0,
        max_pv: 0,
        copies: 0,
        pvs: PvTable::new(alloc),
        lvs: LvTable::new(alloc),
    })
}

// The rows on the physical volumes of the group, whose own are none yet.
fn judge_added(
    alloc: Global,
    state: &GroupState,
    base: &Group,
    all: &[AddedPv],
) -> Result<(), PlanRefusal>
    requires added { All IsAdded all.now }
    requires disks { All (λ number. number < 64) (disks_added all.now) }
    requires size { base.now.extent_size ≤ 2 ^ 31 }
    ensures { Judges result (first_refusal (create_rows state.now base.now all.now)) }
{
    judge_used(alloc, &[], all)?;
    let disks = disks_with(alloc, &[], all)?;
    judge_areas(state.areas.as_slice(), disks.as_slice())?;
    judge_sizes(base.extent_size, all)?;
    judge_count(MOST_PVS, 0, all.len() as u64)?;
    judge_id(&base.id, state)
}

// No disk has the id.
fn judge_id(id: &LvmId, state: &GroupState) -> Result<(), PlanRefusal>
    ensures { Judges result (refused_if (stands_on_disk id.now state.now.disks) (IdTaken id.now)) }
{
    if stands_on_disk(id, state.disks.as_slice()) {
        return Err(PlanRefusal::Refused(OpRefusal::IdTaken(*id)));
    }
    Ok(())
}
