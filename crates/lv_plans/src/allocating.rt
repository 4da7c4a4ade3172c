//! The extents that a line takes of the physical volumes of its group.
ghost use Rattle.std.specs.Prelude.{◌≡◌, ◌≤◌, ◌<◌, ◌+◌, ◌^◌, None, MatchResult, slice_index};
ghost use Rattle.extent_alloc.specs.Few.{AreFew};
ghost use Rattle.extent_alloc.specs.Giving.{IsGiven, IsRequest};
ghost use Rattle.group_edits.specs.GivenSegments.{segments_in};
ghost use Rattle.group_plan.specs.Judging.{IsRefusedBy, Judges};
ghost use Rattle.lv_plans.specs.Allocating.{segments_row, shown_refusal, space_row};

use extent_alloc::{AllocRefusal, Given, Request, alloc as give};
use group_plan::{GroupState, PlanRefusal};
use line_answers::OpRefusal;
use meta_model::Group;
use std::alloc::Global;
use vg_check::{Checked, MOST_SEGMENTS};

/// Free extents of the group for the request.
///
/// # Errors
///
/// `NotAllocatable`, `NoSpace`, `NoRun` or `TooFewPvs`: the first reason for which the allocator refuses the request, with the
/// number of the disk in place of that of the physical volume. `NoMemory` where memory is wanting.
#[tactic(auto, unfolding(crate::specs::Allocating::space_row))]
pub(crate) fn take_extents(
    alloc: Global,
    state: &GroupState,
    group: &Checked,
    want: &Request,
) -> Result<Given, PlanRefusal>
    requires { IsRequest want.now }
    ensures { MatchResult result
        (λ given. IsGiven group.now want.now given × AreFew group.now want.now given × (space_row state.now group.now want.now ≡ None))
        (IsRefusedBy (space_row state.now group.now want.now)) }
{
    match give(alloc, group, want) {
        Ok(given) => Ok(given),
        Err(refusal) => Err(shown(state.disk_of.as_slice(), refusal)),
    }
}

// The allocator's refusal as the line's, where the physical volumes are on these disks.
fn shown(disk_of: &[u32], refusal: AllocRefusal) -> PlanRefusal
    ensures { IsRefusedBy (shown_refusal disk_of.now refusal) result }
{
    match refusal {
        AllocRefusal::NoMemory => PlanRefusal::NoMemory,
        AllocRefusal::NotAllocatable(pv) => {
            PlanRefusal::Refused(OpRefusal::NotAllocatable(disk_at(disk_of, pv)))
        }
        AllocRefusal::NoSpace { need, free } => {
            PlanRefusal::Refused(OpRefusal::NoSpace(need, free))
        }
        AllocRefusal::NoRun { need, longest } => {
            PlanRefusal::Refused(OpRefusal::NoRun(need, longest))
        }
        AllocRefusal::TooFewPvs { need, fit } => {
            PlanRefusal::Refused(OpRefusal::TooFewPvs(need as u64, fit as u64))
        }
    }
}

/// The disk of the physical volume with this number.
pub(crate) fn disk_at(disk_of: &[u32], pv: u32) -> u32
    ensures { result ≡ slice_index disk_of.now pv }
{
    match disk_of.get(pv as usize) {
        Some(disk) => *disk,
        None => 0,
    }
}

/// With so many segments more the group has no more than it may have.
///
/// # Errors
///
/// Else `TooMany`.
#[tactic(auto, unfolding(crate::specs::Allocating::segments_row))]
pub(crate) fn judge_segments(group: &Group, more: u64) -> Result<(), PlanRefusal>
    requires few { segments_in group.now ≤ 16384 }
    requires more { more < 2 ^ 48 }
    ensures { Judges result (segments_row group.now more) }
{
    let count = segments(group) + more;
    if count > MOST_SEGMENTS {
        return Err(PlanRefusal::Refused(OpRefusal::TooMany(count, MOST_SEGMENTS)));
    }
    Ok(())
}

// How many segments the group has.
fn segments(group: &Group) -> u64
    requires { segments_in group.now ≤ 16384 }
    ensures { result ≡ segments_in group.now }
{
    let mut count = 0;
    for number in 0..group.lvs.len() {
        let (_, lv) = group.lvs.get(number);
        count += lv.segments.len() as u64;
    }
    count
}
