//! vgremove(8): its refusals, in their order, and its change.
ghost use Rattle.std.specs.Prelude.{◌≡◌, ◌<◌, Some, All};
ghost use Rattle.group_plan.specs.Judging.{Judges, first_refusal};
ghost use Rattle.group_plan.specs.Plans.{Plans};
ghost use Rattle.group_plan.specs.State.{IsState};
ghost use Rattle.vg_plans.specs.Vgremove.{remove_rows, vgremove_change, vgremove_rows, volume_row};

use group_plan::{
    Change, GroupState, Labels, PlanRefusal, Spans, copied_bytes, judge_name, judge_write, set_of,
    unknown_group,
};
use line_answers::OpRefusal;
use meta_model::Group;
use sector_base::{PvDisks, PvSet, Text};
use std::alloc::Global;

/// The change of a vgremove of the group of this name.
///
/// # Errors
///
/// `UnknownGroup` where no group, or one of another name, was found; `ReadOnly`; `InUse` with the first logical volume where
/// there is one: the first of these. `NoMemory` where memory is wanting.
pub fn plan_vgremove(alloc: Global, state: &GroupState, vg: &Text) -> Result<Change, PlanRefusal>
    requires { IsState state.now }
    ensures { Plans (vgremove_rows state.now vg.now) (vgremove_change state.now) result }
{
    match &state.group {
        Some(group) => remove(alloc, state, group.group(), vg),
        None => Err(unknown_group(alloc, vg)),
    }
}

// The change where this group was found.
fn remove(
    alloc: Global,
    state: &GroupState,
    group: &Group,
    vg: &Text,
) -> Result<Change, PlanRefusal>
    requires { All (λ number. number < 64) state.now.disk_of }
    ensures { Plans (remove_rows vg.now group.now) (vgremove_change state.now) result }
{
    judge_remove(alloc, group, vg)?;
    Ok(Change {
        group: None,
        zero: Spans::from_vec(Vec::new(alloc)),
        labels: Labels::from_vec(Vec::new(alloc)),
        taken: PvSet::new(),
        cleared: set_of(state.disk_of.as_slice()),
        disk_of: PvDisks::from_vec(Vec::new(alloc)),
    })
}

// The rows on the group.
fn judge_remove(alloc: Global, group: &Group, vg: &Text) -> Result<(), PlanRefusal>
    ensures { Judges result (first_refusal (remove_rows vg.now group.now)) }
{
    judge_name(alloc, group, vg)?;
    judge_write(group)?;
    judge_volumes(alloc, group)
}

// The group has no logical volume.
fn judge_volumes(alloc: Global, group: &Group) -> Result<(), PlanRefusal>
    ensures { Judges result (volume_row group.now) }
{
    if group.lvs.len() == 0 {
        return Ok(());
    }
    let (name, _) = group.lvs.get(0);
    let name = copied_bytes(alloc, name.as_bytes())?;
    Err(PlanRefusal::Refused(OpRefusal::InUse(name)))
}
