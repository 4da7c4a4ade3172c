//! vgreduce(8): its refusals, in their order, and its change.
ghost use Rattle.std.specs.Prelude.{◌≡◌, ◌≤◌, ◌<◌, ◌==◌, Some, All, IfOk, length};
ghost use Rattle.std.specs.List.{remove};
ghost use Rattle.line_answers.specs.declared.op_refusal.OpRefusal.TheVariants.{InUse, LastPv};
ghost use Rattle.group_edits.specs.ReducedGroup.{has_leg_on_pv};
ghost use Rattle.group_plan.specs.Judging.{Judges, first_refusal, refused_if};
ghost use Rattle.group_plan.specs.Plans.{Plans};
ghost use Rattle.group_plan.specs.State.{IsState};
ghost use Rattle.vg_plans.specs.Vgreduce.{leaving_change, leaving_rows, leaving_tests, reduce_change, reduce_rows, vgreduce_change, vgreduce_rows};

use crate::vgextend::judge_group;
use group_edits::{has_leg_on_pv, reduced_group};
use group_plan::{
    Change, GroupState, PlanRefusal, commit_version_on, copied_text, judge_areas, judge_one_known,
    judge_seqno, pv_named, unknown_group,
};
use line_answers::OpRefusal;
use meta_model::Group;
use sector_base::{PvDisks, Text};
use std::alloc::{AllocError, Global};
use vg_check::Checked;

/// The change of a vgreduce of the group of this name by the physical volume on the disk with this name.
///
/// # Errors
///
/// `UnknownGroup` where no group, or one of another name, was found; `ReadOnly`, `NotResizeable`, `UnknownPv`, `NotInGroup`,
/// `InUse`, `LastPv`, `NoArea`, `SeqnoEnd` or `TooLarge`: the first of these. `NoMemory` where memory is wanting.
pub fn plan_vgreduce(
    alloc: Global,
    state: &GroupState,
    vg: &Text,
    name: &Text,
    now: u64,
) -> Result<Change, PlanRefusal>
    requires { IsState state.now }
    ensures { Plans (vgreduce_rows state.now vg.now name.now now) (vgreduce_change state.now name.now) result }
{
    match &state.group {
        Some(group) => reduce(alloc, state, group, vg, name, now),
        None => Err(unknown_group(alloc, vg)),
    }
}

// The change where this group was found.
fn reduce(
    alloc: Global,
    state: &GroupState,
    group: &Checked,
    vg: &Text,
    name: &Text,
    now: u64,
) -> Result<Change, PlanRefusal>
    requires state { IsState state.now }
    requires found { state.now.group ≡ Some group.now }
    ensures { Plans (reduce_rows state.now vg.now name.now now group.now) (reduce_change state.now name.now group.now) result }
{
    judge_group(alloc, group.group(), vg)?;
    judge_one_known(alloc, state, name)?;
    match pv_named(state, name) {
        Some(number) => leave(alloc, state, group, name, number, now),
        None => {
            let name = copied_text(alloc, name)?;
            Err(PlanRefusal::Refused(OpRefusal::NotInGroup(name)))
        }
    }
}

// The change where the physical volume has this number in the group.
fn leave(
    alloc: Global,
    state: &GroupState,
    group: &Checked,
    name: &Text,
    number: u32,
    now: u64,
) -> Result<Change, PlanRefusal>
    requires state { IsState state.now }
    requires found { state.now.group ≡ Some group.now }
    requires listed { number < length state.now.disk_of }
    ensures { Plans (leaving_rows state.now group.now name.now now number) (leaving_change state.now group.now number) result }
{
    let rest = disks_without(alloc, state.disk_of.as_slice(), number as usize)?;
    judge_leaving(alloc, state, group.group(), name, number, &rest)?;
    let next = reduced_group(alloc, group, number)?;
    let mut change = commit_version_on(alloc, state, rest, next, now)?;
    let disk = state.disk_of.as_slice()[number as usize];
    change.cleared.insert(disk);
    Ok(change)
}

// The disks but the one at this place.
fn disks_without(alloc: Global, disks: &[u32], number: usize) -> Result<PvDisks, AllocError>
    requires { number < length disks.now }
    ensures { IfOk result (λ rest. rest ≡ remove disks.now number) }
{
    let mut rest = Vec::from_slice(alloc, disks)?;
    rest.remove(number);
    Ok(PvDisks::from_vec(rest))
}

// The rows on the physical volume with this number and name, where these are the disks of the others.
fn judge_leaving(
    alloc: Global,
    state: &GroupState,
    group: &Group,
    name: &Text,
    number: u32,
    rest: &PvDisks,
) -> Result<(), PlanRefusal>
    requires disks { All (λ number. number < 64) rest.now }
    requires rest { rest.now ≡ remove state.now.disk_of number }
    ensures { Judges result (first_refusal (leaving_tests state.now group.now name.now number)) }
{
    judge_legs(alloc, group, name, number)?;
    judge_last(alloc, group, name)?;
    judge_areas(state.areas.as_slice(), rest.as_slice())?;
    judge_seqno(group)
}

// No leg lies on the physical volume with this number and name.
fn judge_legs(alloc: Global, group: &Group, name: &Text, number: u32) -> Result<(), PlanRefusal>
    ensures { Judges result (refused_if (has_leg_on_pv group.now number) (InUse name.now)) }
{
    if has_leg_on_pv(group, number) {
        let name = copied_text(alloc, name)?;
        return Err(PlanRefusal::Refused(OpRefusal::InUse(name)));
    }
    Ok(())
}

// The physical volume of this name isn't the only one.
fn judge_last(alloc: Global, group: &Group, name: &Text) -> Result<(), PlanRefusal>
    ensures { Judges result (refused_if (length group.now.pvs == 1) (LastPv name.now)) }
{
    if group.pvs.len() == 1 {
        let name = copied_text(alloc, name)?;
        return Err(PlanRefusal::Refused(OpRefusal::LastPv(name)));
    }
    Ok(())
}
