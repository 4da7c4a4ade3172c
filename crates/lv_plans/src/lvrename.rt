//! lvrename(8): its refusals, in their order, and its change.
ghost use Rattle.std.specs.Prelude.{◌≡◌, ℕ, None, Some, option_map};
ghost use Rattle.lvm_name.specs.Names.{volume_name_refusal};
ghost use Rattle.meta_model.specs.declared.lv.Lv.{Lv};
ghost use Rattle.group_edits.specs.RenamedVolume.{renamed_volume};
ghost use Rattle.group_edits.specs.Visible.{visible_named};
ghost use Rattle.group_plan.specs.Committing.{version_change};
ghost use Rattle.group_plan.specs.Plans.{Plans};
ghost use Rattle.group_plan.specs.State.{IsState};
ghost use Rattle.lv_plans.specs.Lvrename.{lvrename_change, lvrename_rows, rename_in_rows, rename_lv_rows};

use crate::volumes::{judge_lock, judge_name};
use group_edits::{find_visible, renamed_volume};
use group_plan::{
    Change, GroupState, PlanRefusal, commit_version, copied_text, judge_areas, judge_named,
    judge_seqno, unknown_group, volume_name,
};
use line_answers::OpRefusal;
use sector_base::Text;
use std::alloc::Global;
use vg_check::Checked;

/// The change of an lvrename of the volume of the old name in the group of this name.
///
/// # Errors
///
/// `UnknownGroup` where no group, or one of another name, was found; `ReadOnly`, `UnknownVolume`, `NameTaken`, `Locked`,
/// `NoArea`, `SeqnoEnd` or `TooLarge`: the first of these. `NoMemory` where memory is wanting.
pub fn plan_lvrename(
    alloc: Global,
    state: &GroupState,
    vg: &Text,
    old: &Text,
    new: &Text,
    now: u64,
) -> Result<Change, PlanRefusal>
    requires state { IsState state.now }
    requires name { volume_name_refusal new.now ≡ None }
    ensures { Plans (lvrename_rows state.now vg.now old.now new.now now) (lvrename_change state.now old.now new.now) result }
{
    match &state.group {
        Some(group) => rename(alloc, state, group, vg, old, new, now),
        None => Err(unknown_group(alloc, vg)),
    }
}

// The change where this group was found.
fn rename(
    alloc: Global,
    state: &GroupState,
    group: &Checked,
    vg: &Text,
    old: &Text,
    new: &Text,
    now: u64,
) -> Result<Change, PlanRefusal>
    requires state { IsState state.now }
    requires found { state.now.group ≡ Some group.now }
    requires name { volume_name_refusal new.now ≡ None }
    ensures { Plans (rename_in_rows state.now vg.now old.now new.now now group.now) (version_change state.now (renamed_volume old.now new.now group.now)) result }
{
    judge_named(alloc, group.group(), vg)?;
    match find_visible(group.group(), old) {
        Some(number) => rename_visible(alloc, state, group, number, old, new, now),
        None => {
            let name = copied_text(alloc, old)?;
            Err(PlanRefusal::Refused(OpRefusal::UnknownVolume(name)))
        }
    }
}

// The change where this is the volume of the old name.
fn rename_visible(
    alloc: Global,
    state: &GroupState,
    group: &Checked,
    number: u32,
    old: &Text,
    new: &Text,
    now: u64,
) -> Result<Change, PlanRefusal>
    requires state { IsState state.now }
    requires found { state.now.group ≡ Some group.now }
    requires volume { Some number ≡ option_map (λ (volume : ℕ × Lv). volume.0) (visible_named group.now old.now) }
    requires name { volume_name_refusal new.now ≡ None }
    ensures { (lv : Lv) → Plans (rename_lv_rows state.now old.now new.now now group.now (number, lv)) (version_change state.now (renamed_volume old.now new.now group.now)) result }
{
    let found = group.group();
    let name = volume_name(alloc, new)?;
    judge_name(alloc, found, &name)?;
    judge_lock(alloc, found, old, number)?;
    judge_areas(state.areas.as_slice(), state.disk_of.as_slice())?;
    judge_seqno(found)?;
    let next = renamed_volume(alloc, group, old, &name)?;
    commit_version(alloc, state, next, now)
}
