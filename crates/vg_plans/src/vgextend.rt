//! vgextend(8): its refusals, in their order, and its change.
ghost use Rattle.std.specs.Prelude.{◌≡◌, ◌≤◌, ◌<◌, ◌^◌, Some, All, length};
ghost use Rattle.id_index.specs.Ids.{lvs_by_id};
ghost use Rattle.group_plan.specs.Added.{IsAdded};
ghost use Rattle.group_plan.specs.Ids.{has_other_id};
ghost use Rattle.group_plan.specs.Judging.{Judges, first_refusal};
ghost use Rattle.group_plan.specs.Plans.{Plans};
ghost use Rattle.group_plan.specs.State.{IsState};
ghost use Rattle.vg_plans.specs.Vgextend.{extend_by, extend_rows, found_rows, group_rows, other_id_row, vgextend_change, vgextend_rows};

use group_edits::next_version;
use group_plan::{
    AddedPv, Change, GroupState, PlanRefusal, commit, disks_with, find_all_added, judge_areas,
    judge_count, judge_name, judge_resizeable, judge_seqno, judge_sizes, judge_used, judge_write,
    unknown_group,
};
use id_index::{IdMap, lvs_by_id};
use line_answers::OpRefusal;
use lvm_id::LvmId;
use meta_model::Group;
use scan_rules::same_id;
use sector_base::Text;
use std::alloc::Global;
use vg_check::{Checked, MOST_PVS};

/// The change of a vgextend of the group of this name by the physical volumes on the disks with these names.
///
/// # Errors
///
/// `UnknownGroup` where no group, or one of another name, was found; `ReadOnly`, `NotResizeable`, `UnknownPv`, `PvUsed`,
/// `NoArea`, `TooSmall`, `TooMany`, `SeqnoEnd`, `IdTaken` with the first id that is the group's or a logical volume's, or
/// `TooLarge`: the first of these. `NoMemory` where memory is wanting.
pub fn plan_vgextend(
    alloc: Global,
    state: &GroupState,
    vg: &Text,
    names: &[Text],
    now: u64,
) -> Result<Change, PlanRefusal>
    requires { IsState state.now }
    ensures { Plans (vgextend_rows state.now vg.now names.now now) (extend_by state.now state.now.group names.now) result }
{
    match &state.group {
        Some(group) => extend(alloc, state, group, vg, names, now),
        None => Err(unknown_group(alloc, vg)),
    }
}

// The change where this group was found.
fn extend(
    alloc: Global,
    state: &GroupState,
    group: &Checked,
    vg: &Text,
    names: &[Text],
    now: u64,
) -> Result<Change, PlanRefusal>
    requires state { IsState state.now }
    requires found { state.now.group ≡ Some group.now }
    ensures { Plans (found_rows state.now vg.now names.now now group.now) (vgextend_change state.now group.now names.now) result }
{
    let found = group.group();
    judge_group(alloc, found, vg)?;
    let all = find_all_added(alloc, state, names)?;
    judge_added(alloc, state, found, &all)?;
    let base = next_version(alloc, group)?;
    commit(alloc, state, base, state.disk_of.as_slice(), all, now)
}

/// The group has this name, may be changed, and takes and gives physical volumes.
///
/// # Errors
///
/// `UnknownGroup`, `ReadOnly` or `NotResizeable`: the first of these. `NoMemory` where memory is wanting.
pub(crate) fn judge_group(alloc: Global, group: &Group, vg: &Text) -> Result<(), PlanRefusal>
    ensures { Judges result (first_refusal (group_rows group.now vg.now)) }
{
    judge_name(alloc, group, vg)?;
    judge_write(group)?;
    judge_resizeable(group)
}

// The rows on the physical volumes that are added to the group.
fn judge_added(
    alloc: Global,
    state: &GroupState,
    group: &Group,
    all: &[AddedPv],
) -> Result<(), PlanRefusal>
    requires listed { All (λ number. number < 64) state.now.disk_of }
    requires added { All IsAdded all.now }
    requires size { group.now.extent_size ≤ 2 ^ 31 }
    requires few { length group.now.pvs ≤ 64 }
    requires volumes { length group.now.lvs ≤ 1024 }
    ensures { Judges result (first_refusal (extend_rows state.now group.now all.now)) }
{
    judge_used(alloc, state.disk_of.as_slice(), all)?;
    let disks = disks_with(alloc, state.disk_of.as_slice(), all)?;
    judge_areas(state.areas.as_slice(), disks.as_slice())?;
    judge_sizes(group.extent_size, all)?;
    let count = group.pvs.len() + all.len();
    judge_count(MOST_PVS, group.max_pv, count as u64)?;
    judge_seqno(group)?;
    judge_ids(alloc, group, all)
}

// None of these has an id of the group or of a logical volume.
#[tactic(auto, unfolding(crate::specs::Vgextend::other_id_row))]
fn judge_ids(alloc: Global, group: &Group, all: &[AddedPv]) -> Result<(), PlanRefusal>
    requires { length group.now.lvs ≤ 1024 }
    ensures { Judges result (other_id_row group.now all.now) }
{
    let lvs = lvs_by_id(alloc, &group.lvs)?;
    for added in all {
        if is_other_id(group, &lvs, &added.header.id) {
            return Err(PlanRefusal::Refused(OpRefusal::IdTaken(added.header.id)));
        }
    }
    Ok(())
}

// Whether the id is the group's, or one of these, which are those of its logical volumes.
fn is_other_id(group: &Group, lvs: &IdMap, id: &LvmId) -> bool
    requires { lvs.now ≡ lvs_by_id 0 group.now.lvs }
    ensures { result ≡ has_other_id group.now id.now }
{
    same_id(&group.id, id) || lvs.contains(id)
}
