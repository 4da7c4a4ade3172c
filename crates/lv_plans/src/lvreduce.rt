//! lvreduce(8): its refusals, in their order, and its change.
ghost use Rattle.std.specs.Prelude.{◌≡◌, ◌<◌, ◌^◌, Some};
ghost use Rattle.volume_rules.specs.Extents.{extents_of};
ghost use Rattle.group_edits.specs.Visible.{visible_named};
ghost use Rattle.group_plan.specs.Committing.{version_change};
ghost use Rattle.group_plan.specs.Judging.{Judges};
ghost use Rattle.group_plan.specs.Plans.{Plans};
ghost use Rattle.group_plan.specs.State.{IsState};
ghost use Rattle.lv_plans.specs.Lvreduce.{lvreduce_change, lvreduce_rows, reduce_change, reduce_in_rows, reduce_lv_rows, reduced_group, shorter_row};
ghost use Rattle.lv_plans.specs.Sizes.{IsAmount};

use crate::sizes::extents_for;
use crate::volumes::{judge_layers, judge_lock};
use command_table::{Amount, Path};
use group_edits::{extents, find_visible, kept_extents, shortened_volume};
use group_plan::{
    Change, GroupState, PlanRefusal, commit_version, copied_text, judge_areas, judge_named,
    judge_seqno, unknown_group,
};
use line_answers::OpRefusal;
use meta_model::Lv;
use sector_base::Text;
use std::alloc::Global;
use vg_check::Checked;

/// The change of an lvreduce of this volume to this amount, rounded up to whole stripes.
///
/// # Errors
///
/// `UnknownGroup` where no group, or one of another name, was found; `ReadOnly`, `UnknownVolume`, `Locked`, `Layered`,
/// `NoArea`, `NotShorter`, `SeqnoEnd` or `TooLarge`: the first of these. `NoMemory` where memory is wanting.
pub fn plan_lvreduce(
    alloc: Global,
    state: &GroupState,
    path: &Path,
    amount: Amount,
    now: u64,
) -> Result<Change, PlanRefusal>
    requires state { IsState state.now }
    requires amount { IsAmount amount }
    ensures { Plans (lvreduce_rows state.now path.now amount now) (lvreduce_change state.now path.now.lv amount) result }
{
    match &state.group {
        Some(group) => reduce(alloc, state, group, path, amount, now),
        None => Err(unknown_group(alloc, &path.vg)),
    }
}

// The change where this group was found.
fn reduce(
    alloc: Global,
    state: &GroupState,
    group: &Checked,
    path: &Path,
    amount: Amount,
    now: u64,
) -> Result<Change, PlanRefusal>
    requires state { IsState state.now }
    requires found { state.now.group ≡ Some group.now }
    requires amount { IsAmount amount }
    ensures { Plans (reduce_in_rows state.now path.now amount now group.now) (reduce_change state.now path.now.lv amount group.now) result }
{
    let found = group.group();
    judge_named(alloc, found, &path.vg)?;
    match find_visible(found, &path.lv) {
        Some(number) => {
            let (_, lv) = found.lvs.get(number as usize);
            reduce_visible(alloc, state, group, number, lv, &path.lv, amount, now)
        }
        None => {
            let name = copied_text(alloc, &path.lv)?;
            Err(PlanRefusal::Refused(OpRefusal::UnknownVolume(name)))
        }
    }
}

// The change where this is the volume.
fn reduce_visible(
    alloc: Global,
    state: &GroupState,
    group: &Checked,
    number: u32,
    lv: &Lv,
    name: &Text,
    amount: Amount,
    now: u64,
) -> Result<Change, PlanRefusal>
    requires state { IsState state.now }
    requires found { state.now.group ≡ Some group.now }
    requires volume { visible_named group.now name.now ≡ Some (number, lv.now) }
    requires amount { IsAmount amount }
    ensures { Plans (reduce_lv_rows state.now name.now amount now group.now (number, lv.now)) (version_change state.now (reduced_group name.now amount group.now lv.now)) result }
{
    let found = group.group();
    judge_lock(alloc, found, name, number)?;
    judge_layers(alloc, lv, name)?;
    judge_areas(state.areas.as_slice(), state.disk_of.as_slice())?;
    let kept = kept_extents(lv, extents_for(found.extent_size, amount));
    judge_shorter(kept, lv)?;
    judge_seqno(found)?;
    let next = shortened_volume(alloc, group, name, kept)?;
    commit_version(alloc, state, next, now)
}

// The volume has more extents than it would keep: else `NotShorter`.
fn judge_shorter(kept: u64, lv: &Lv) -> Result<(), PlanRefusal>
    requires { extents_of lv.now < 2 ^ 48 }
    ensures { Judges result (shorter_row kept (extents_of lv.now)) }
{
    let has = extents(lv);
    if has <= kept {
        return Err(PlanRefusal::Refused(OpRefusal::NotShorter(kept, has)));
    }
    Ok(())
}
