//! The rows on a volume that is changed.
ghost use Rattle.volume_rules.specs.Rules.{IsAccepted};
ghost use Rattle.group_plan.specs.Judging.{Judges};
ghost use Rattle.lv_plans.specs.Volumes.{layered_row, locked_row, taken_row};

use group_edits::is_layered;
use group_plan::{PlanRefusal, copied_bytes, copied_text};
use line_answers::OpRefusal;
use lvm_name::VolumeName;
use meta_model::{Group, Lv};
use sector_base::Text;
use seg_place::is_moving;
use std::alloc::Global;

/// No logical volume has the name.
///
/// # Errors
///
/// Else `NameTaken`; `NoMemory` where memory is wanting.
#[tactic(auto, unfolding(crate::specs::Volumes::taken_row))]
pub(crate) fn judge_name(alloc: Global, group: &Group, name: &VolumeName) -> Result<(), PlanRefusal>
    ensures { Judges result (taken_row group.now name.now) }
{
    if group.lvs.contains(name) {
        let name = copied_bytes(alloc, name.as_bytes())?;
        return Err(PlanRefusal::Refused(OpRefusal::NameTaken(name)));
    }
    Ok(())
}

/// The volume with this name and number isn't moving.
///
/// # Errors
///
/// Else `Locked`; `NoMemory` where memory is wanting.
#[tactic(auto, unfolding(crate::specs::Volumes::locked_row))]
pub(crate) fn judge_lock(
    alloc: Global,
    group: &Group,
    name: &Text,
    number: u32,
) -> Result<(), PlanRefusal>
    requires { IsAccepted group.now }
    ensures { Judges result (locked_row group.now name.now number) }
{
    if is_moving(group, number) {
        let name = copied_text(alloc, name)?;
        return Err(PlanRefusal::Refused(OpRefusal::Locked(name)));
    }
    Ok(())
}

/// No leg of the volume with this name lies on another logical volume.
///
/// # Errors
///
/// Else `Layered`; `NoMemory` where memory is wanting.
#[tactic(auto, unfolding(crate::specs::Volumes::layered_row))]
pub(crate) fn judge_layers(alloc: Global, lv: &Lv, name: &Text) -> Result<(), PlanRefusal>
    ensures { Judges result (layered_row name.now lv.now) }
{
    if is_layered(lv) {
        let name = copied_text(alloc, name)?;
        return Err(PlanRefusal::Refused(OpRefusal::Layered(name)));
    }
    Ok(())
}
