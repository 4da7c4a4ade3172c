//! vgrename(8): its refusals, in their order, and its change.
ghost use Rattle.std.specs.Prelude.{◌≡◌, ◌<◌, None, Some, All};
ghost use Rattle.std.specs.Str.{bytes_eq};
ghost use Rattle.lvm_name.specs.Names.{group_name_refusal};
ghost use Rattle.line_answers.specs.declared.op_refusal.OpRefusal.TheVariants.{NameTaken};
ghost use Rattle.group_edits.specs.RenamedGroup.{renamed_group};
ghost use Rattle.group_plan.specs.Committing.{version_change};
ghost use Rattle.group_plan.specs.Judging.{Judges, first_refusal, refused_if};
ghost use Rattle.group_plan.specs.Plans.{Plans};
ghost use Rattle.group_plan.specs.State.{IsState};
ghost use Rattle.vg_plans.specs.Vgrename.{rename_rows, rename_tests, vgrename_change, vgrename_rows};

use group_edits::renamed_group;
use group_plan::{
    Change, GroupState, PlanRefusal, commit_version, copied_text, group_name, is_named,
    judge_areas, judge_name, judge_seqno, judge_write, unknown_group,
};
use line_answers::OpRefusal;
use meta_model::Group;
use sector_base::Text;
use std::alloc::Global;
use vg_check::Checked;

/// The change of a vgrename of the group of this name to the new one.
///
/// # Errors
///
/// `UnknownGroup` where no group, or one of another name, was found; `ReadOnly`, `NameTaken` where it has the new name already,
/// `NoArea`, `SeqnoEnd` or `TooLarge`: the first of these. `NoMemory` where memory is wanting.
pub fn plan_vgrename(
    alloc: Global,
    state: &GroupState,
    vg: &Text,
    new: &Text,
    now: u64,
) -> Result<Change, PlanRefusal>
    requires state { IsState state.now }
    requires name { group_name_refusal new.now ≡ None }
    ensures { Plans (vgrename_rows state.now vg.now new.now now) (vgrename_change state.now new.now) result }
{
    match &state.group {
        Some(group) => rename(alloc, state, group, vg, new, now),
        None => Err(unknown_group(alloc, vg)),
    }
}

// The change where this group was found.
fn rename(
    alloc: Global,
    state: &GroupState,
    group: &Checked,
    vg: &Text,
    new: &Text,
    now: u64,
) -> Result<Change, PlanRefusal>
    requires state { IsState state.now }
    requires found { state.now.group ≡ Some group.now }
    requires name { group_name_refusal new.now ≡ None }
    ensures { Plans (rename_rows state.now vg.now new.now now group.now) (version_change state.now (renamed_group group.now new.now)) result }
{
    judge_rename(alloc, state, group.group(), vg, new)?;
    let name = group_name(alloc, new)?;
    let next = renamed_group(alloc, group, name)?;
    commit_version(alloc, state, next, now)
}

// The rows on the group.
fn judge_rename(
    alloc: Global,
    state: &GroupState,
    group: &Group,
    vg: &Text,
    new: &Text,
) -> Result<(), PlanRefusal>
    requires { All (λ number. number < 64) state.now.disk_of }
    ensures { Judges result (first_refusal (rename_tests state.now vg.now new.now group.now)) }
{
    judge_name(alloc, group, vg)?;
    judge_write(group)?;
    judge_new(alloc, group, new)?;
    judge_areas(state.areas.as_slice(), state.disk_of.as_slice())?;
    judge_seqno(group)
}

// The new name isn't the one that it has.
fn judge_new(alloc: Global, group: &Group, new: &Text) -> Result<(), PlanRefusal>
    ensures { Judges result (refused_if (bytes_eq group.now.name new.now) (NameTaken new.now)) }
{
    if is_named(group, new) {
        let name = copied_text(alloc, new)?;
        return Err(PlanRefusal::Refused(OpRefusal::NameTaken(name)));
    }
    Ok(())
}
