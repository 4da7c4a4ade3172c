//! The physical volumes of the group that the words of a line name.
ghost use Rattle.std.specs.Prelude.{◌≡◌, ◌≤◌, ◌<◌, IfSome, length};
ghost use Rattle.group_plan.specs.Judging.{Judges};
ghost use Rattle.group_plan.specs.Members as specs;
ghost use Rattle.group_plan.specs.State.{IsState};

use crate::copied::copied_text;
use crate::{GroupState, PlanRefusal};
use line_answers::OpRefusal;
use sector_base::{PvSet, Text};
use std::alloc::Global;

/// The group lists a physical volume on the disk with each of these names.
///
/// # Errors
///
/// Else `NotInGroup` for the first name where it lists none; `NoMemory` where memory is wanting.
#[tactic(auto, unfolding(crate::specs::Members::outside_row))]
pub fn judge_members(alloc: Global, state: &GroupState, names: &[Text]) -> Result<(), PlanRefusal>
    requires state { IsState state.now }
    requires few { length state.now.disk_of ≤ 64 }
    ensures { Judges result (specs.outside_row state.now names.now) }
{
    for name in names {
        if pv_named(state, name).is_none() {
            let name = copied_text(alloc, name)?;
            return Err(PlanRefusal::Refused(OpRefusal::NotInGroup(name)));
        }
    }
    Ok(())
}

/// The numbers in the text of the group of its physical volumes on the disks with these names.
#[tactic(auto, unfolding(crate::specs::Members::pvs_named))]
pub fn pvs_named(state: &GroupState, names: &[Text]) -> PvSet
    requires state { IsState state.now }
    requires few { length state.now.disk_of ≤ 64 }
    ensures { result ≡ specs.pvs_named state.now names.now }
{
    let mut all = PvSet::new();
    for name in names {
        if let Some(pv) = pv_named(state, name) {
            all.insert(pv);
        }
    }
    all
}

/// The number of the one on the disk with this name, where the group lists one there.
#[tactic(auto, unfolding(crate::specs::Members::pv_named))]
pub fn pv_named(state: &GroupState, name: &Text) -> Option<u32>
    requires state { IsState state.now }
    requires few { length state.now.disk_of ≤ 64 }
    ensures number { result ≡ specs.pv_named state.now name.now }
    ensures within { IfSome result (λ number. number < length state.now.disk_of) }
{
    match state.names.number_of(name.as_bytes()) {
        Some(disk) => number_on(state.disk_of.as_slice(), disk),
        None => None,
    }
}

// The number of the one on this disk, where one of the listed disks is this one.
fn number_on(disk_of: &[u32], disk: u32) -> Option<u32>
    requires { length disk_of.now ≤ 64 }
    ensures number { result ≡ specs.number_on disk_of.now disk }
    ensures within { IfSome result (λ number. number < length disk_of.now) }
{
    let number = place_of(disk_of, disk)?;
    Some(number as u32)
}

// Its place among them.
fn place_of(disk_of: &[u32], disk: u32) -> Option<usize>
    ensures place { result ≡ specs.number_on disk_of.now disk }
    ensures within { IfSome result (λ place. place < length disk_of.now) }
{
    disk_of.iter().position(|listed| *listed == disk)
}
