//! lvremove(8): its refusals, in their order, and its change.
ghost use Rattle.std.specs.Prelude.{◌≡◌, ℕ, Some, option_map};
ghost use Rattle.meta_model.specs.declared.lv.Lv.{Lv};
ghost use Rattle.group_edits.specs.Removing.{without_volume};
ghost use Rattle.group_edits.specs.Visible.{IsVisible, visible_named};
ghost use Rattle.group_plan.specs.Committing.{version_change};
ghost use Rattle.group_plan.specs.Plans.{Plans};
ghost use Rattle.group_plan.specs.State.{IsState};
ghost use Rattle.lv_plans.specs.Lvremove.{lvremove_change, lvremove_rows, remove_change, remove_in_rows, remove_lv_rows};

use crate::volumes::judge_lock;
use command_table::Path;
use group_edits::{find_visible, without_volume};
use group_plan::{
    Change, GroupState, PlanRefusal, commit_version, copied_text, judge_areas, judge_named,
    judge_seqno, unknown_group,
};
use line_answers::OpRefusal;
use sector_base::Text;
use std::alloc::Global;
use vg_check::Checked;

/// The change of an lvremove of this volume. The hidden volumes that only its legs name go with it, downwards.
///
/// # Errors
///
/// `UnknownGroup` where no group, or one of another name, was found; `ReadOnly`, `UnknownVolume`, `Locked`, `NoArea`,
/// `SeqnoEnd` or `TooLarge`: the first of these. `NoMemory` where memory is wanting.
pub fn plan_lvremove(
    alloc: Global,
    state: &GroupState,
    path: &Path,
    now: u64,
) -> Result<Change, PlanRefusal>
    requires state { IsState state.now }
    ensures { Plans (lvremove_rows state.now path.now now) (lvremove_change state.now path.now.lv) result }
{
    match &state.group {
        Some(group) => remove(alloc, state, group, path, now),
        None => Err(unknown_group(alloc, &path.vg)),
    }
}

// The change where this group was found.
fn remove(
    alloc: Global,
    state: &GroupState,
    group: &Checked,
    path: &Path,
    now: u64,
) -> Result<Change, PlanRefusal>
    requires state { IsState state.now }
    requires found { state.now.group ≡ Some group.now }
    ensures { Plans (remove_in_rows state.now path.now now group.now) (remove_change state.now path.now.lv group.now) result }
{
    judge_named(alloc, group.group(), &path.vg)?;
    match find_visible(group.group(), &path.lv) {
        Some(number) => remove_visible(alloc, state, group, number, &path.lv, now),
        None => {
            let name = copied_text(alloc, &path.lv)?;
            Err(PlanRefusal::Refused(OpRefusal::UnknownVolume(name)))
        }
    }
}

// The change where this is the volume.
fn remove_visible(
    alloc: Global,
    state: &GroupState,
    group: &Checked,
    number: u32,
    name: &Text,
    now: u64,
) -> Result<Change, PlanRefusal>
    requires state { IsState state.now }
    requires found { state.now.group ≡ Some group.now }
    requires visible { IsVisible group.now number }
    ensures { (lv : Lv) → Plans (remove_lv_rows state.now name.now now group.now (number, lv)) (version_change state.now (without_volume group.now number)) result }
{
    let found = group.group();
    judge_lock(alloc, found, name, number)?;
    judge_areas(state.areas.as_slice(), state.disk_of.as_slice())?;
    judge_seqno(found)?;
    let rest = without_volume(alloc, group, number)?;
    commit_version(alloc, state, rest, now)
}
