//! lvextend(8): its refusals, in their order, and its change.
ghost use Rattle.std.specs.Prelude.{◌≡◌, ◌≢◌, ◌≤◌, ◌<◌, ◌^◌, ◌+◌, ◌++◌, ℕ, List, [], Some, All, IsSomeAnd, length};
ghost use Rattle.meta_model.specs.declared.lv.Lv.{Lv as Volume};
ghost use Rattle.meta_model.specs.declared.segment.Segment.{Segment as Row};
ghost use Rattle.volume_rules.specs.Extents.{extents_of};
ghost use Rattle.volume_rules.specs.Rules.{IsAccepted};
ghost use Rattle.extent_alloc.specs.declared.part.Part.{Part};
ghost use Rattle.group_edits.specs.GivenSegments.{segments_in};
ghost use Rattle.group_edits.specs.LongerVolume.{MayGrow, last_kind, longer_volume as longer};
ghost use Rattle.group_edits.specs.ShortenedVolume.{HasFewLegs};
ghost use Rattle.group_edits.specs.Visible.{visible_named};
ghost use Rattle.group_plan.specs.Committing.{version_change};
ghost use Rattle.group_plan.specs.Judging.{Judges, first_refusal};
ghost use Rattle.group_plan.specs.Plans.{Plans};
ghost use Rattle.group_plan.specs.State.{IsState};
ghost use Rattle.lv_plans.specs.Lvextend as specs;
ghost use Rattle.lv_plans.specs.Allocating.{PlansWith};
ghost use Rattle.lv_plans.specs.Sizes.{IsGrowth, growth_for};

use crate::allocating::{judge_segments, take_extents};
use crate::sizes::{extents_for, growth_for};
use crate::volumes::{judge_layers, judge_lock};
use command_table::{Growth, Path};
use extent_alloc::{Given, Request};
use group_edits::{extents, find_visible, kept_extents, longer_volume};
use group_plan::{
    Change, GroupState, PlanRefusal, commit_version, copied_text, judge_areas, judge_known,
    judge_members, judge_named, judge_seqno, pvs_named, unknown_group,
};
use line_answers::OpRefusal;
use meta_model::{Group, Lv, SegKind};
use sector_base::{PvSet, Text};
use std::alloc::Global;
use vg_check::Checked;

/// The change of an lvextend of this volume by this growth, with extents of the physical volumes on the disks with these names,
/// or of any where there are none.
///
/// # Errors
///
/// `UnknownGroup` where no group, or one of another name, was found; `ReadOnly`, `UnknownVolume`, `UnknownPv`, `NotInGroup`,
/// `Locked`, `Layered`, `NoArea`, `NotLonger`, `SeqnoEnd`, `NotAllocatable`, `NoSpace`, `TooFewPvs`, `TooMany` with the
/// segments that the group would have, or `TooLarge`: the first of these. `NoMemory` where memory is wanting.
pub fn plan_lvextend(
    alloc: Global,
    state: &GroupState,
    path: &Path,
    growth: Growth,
    pvs: &[Text],
    now: u64,
) -> Result<Change, PlanRefusal>
    requires state { IsState state.now }
    requires growth { IsGrowth growth }
    ensures { PlansWith (specs.lvextend_asks state.now path.now growth pvs.now) (specs.lvextend_rows state.now path.now growth pvs.now now)
        (specs.lvextend_change state.now path.now.lv) result }
{
    match &state.group {
        Some(group) => extend(alloc, state, group, path, growth, pvs, now),
        None => Err(unknown_group(alloc, &path.vg)),
    }
}

// The change where this group was found.
fn extend(
    alloc: Global,
    state: &GroupState,
    group: &Checked,
    path: &Path,
    growth: Growth,
    pvs: &[Text],
    now: u64,
) -> Result<Change, PlanRefusal>
    requires state { IsState state.now }
    requires found { state.now.group ≡ Some group.now }
    requires growth { IsGrowth growth }
    ensures { PlansWith (specs.extend_asks state.now path.now growth pvs.now group.now) (specs.extend_in_rows state.now path.now growth pvs.now now group.now)
        (λ (given : List Part). version_change state.now (longer path.now.lv given group.now)) result }
{
    let found = group.group();
    judge_named(alloc, found, &path.vg)?;
    match find_visible(found, &path.lv) {
        Some(number) => {
            let (_, lv) = found.lvs.get(number as usize);
            extend_visible(alloc, state, group, number, lv, &path.lv, growth, pvs, now)
        }
        None => {
            let name = copied_text(alloc, &path.lv)?;
            Err(PlanRefusal::Refused(OpRefusal::UnknownVolume(name)))
        }
    }
}

// The change where this is the volume.
fn extend_visible(
    alloc: Global,
    state: &GroupState,
    group: &Checked,
    number: u32,
    lv: &Lv,
    name: &Text,
    growth: Growth,
    pvs: &[Text],
    now: u64,
) -> Result<Change, PlanRefusal>
    requires state { IsState state.now }
    requires found { state.now.group ≡ Some group.now }
    requires volume { visible_named group.now name.now ≡ Some (number, lv.now) }
    requires growth { IsGrowth growth }
    ensures { PlansWith (Some (specs.volume_asks [] state.now name.now growth pvs.now group.now (number, lv.now)))
        (λ (given : List Part). specs.extend_lv_rows state.now name.now growth pvs.now group.now (number, lv.now) ++ specs.lengthen_rows state.now name.now now group.now given)
        (λ (given : List Part). version_change state.now (longer name.now given group.now)) result }
{
    let found = group.group();
    judge_growth(alloc, state, found, number, lv, name, growth, pvs)?;
    let on = pvs_named(state, pvs);
    let want = more_for(found, lv, growth, on);
    let given = take_extents(alloc, state, group, &want)?;
    lengthen(alloc, state, group, name, &given, now)
}

// The rows on the volume with this number, before the allocator's.
fn judge_growth(
    alloc: Global,
    state: &GroupState,
    group: &Group,
    number: u32,
    lv: &Lv,
    name: &Text,
    growth: Growth,
    pvs: &[Text],
) -> Result<(), PlanRefusal>
    requires state { IsState state.now }
    requires few { length state.now.disk_of ≤ 64 }
    requires disks { All (λ number. number < 64) state.now.disk_of }
    requires accepted { IsAccepted group.now }
    requires size { 1 ≤ group.now.extent_size }
    requires volume { extents_of lv.now < 2 ^ 48 }
    requires legs { All (λ (segment : Row). HasFewLegs segment.kind) lv.now.segments }
    ensures { Judges result (first_refusal (specs.growth_rows state.now name.now growth pvs.now group.now (number, lv.now))) }
{
    judge_known(alloc, state, pvs)?;
    judge_members(alloc, state, pvs)?;
    judge_lock(alloc, group, name, number)?;
    judge_layers(alloc, lv, name)?;
    judge_areas(state.areas.as_slice(), state.disk_of.as_slice())?;
    judge_longer(group.extent_size, lv, growth)?;
    judge_seqno(group)
}

// The volume has fewer extents than it is to have: else `NotLonger`.
fn judge_longer(extent_size: u64, lv: &Lv, growth: Growth) -> Result<(), PlanRefusal>
    requires size { 1 ≤ extent_size }
    requires volume { extents_of lv.now < 2 ^ 48 }
    requires legs { All (λ (segment : Row). HasFewLegs segment.kind) lv.now.segments }
    ensures { Judges result (specs.longer_row extent_size lv.now growth) }
{
    if let Growth::To(amount) = growth {
        let kept = kept_extents(lv, extents_for(extent_size, amount));
        let has = extents(lv);
        if kept <= has {
            return Err(PlanRefusal::Refused(OpRefusal::NotLonger(kept, has)));
        }
    }
    Ok(())
}

// What is asked of the allocator, where these physical volumes are named.
fn more_for(group: &Group, lv: &Lv, growth: Growth, on: PvSet) -> Request
    requires size { 1 ≤ group.now.extent_size }
    requires volume { extents_of lv.now < 2 ^ 48 }
    requires some { 1 ≤ length lv.now.segments }
    requires legs { HasFewLegs (last_kind lv.now.segments) }
    ensures { result ≡ specs.more_on on (growth_for group.now.extent_size (extents_of lv.now) growth) (last_kind lv.now.segments) }
{
    let count = growth_for(group.extent_size, extents(lv), growth);
    match lv.segments.as_slice().last() {
        Some(last) => more_on(on, count, &last.kind),
        None => unreachable!(),
    }
}

// So many extents in all, on as many legs as a segment of this kind has.
fn more_on(on: PvSet, count: u64, kind: &SegKind) -> Request
    requires { HasFewLegs kind.now }
    ensures { result ≡ specs.more_on on count kind.now }
{
    Request {
        extents: share_of(count, kind),
        legs: kind.legs().len() as u32,
        contiguous: false,
        on,
        avoid: PvSet::new(),
    }
}

// How many extents each leg of a segment of this kind has, so that all stripes together have at least so many.
fn share_of(count: u64, kind: &SegKind) -> u64
    requires { HasFewLegs kind.now }
    ensures { result ≡ specs.share_of count kind.now }
{
    match kind {
        SegKind::Striped { legs, .. } => count.div_ceil(legs.len() as u64),
        SegKind::Mirror { .. } => count,
    }
}

// The rows behind the allocator's, and the change, where the volume of this name gets these parts.
fn lengthen(
    alloc: Global,
    state: &GroupState,
    group: &Checked,
    name: &Text,
    given: &Given,
    now: u64,
) -> Result<Change, PlanRefusal>
    requires state { IsState state.now }
    requires found { state.now.group ≡ Some group.now }
    requires grows { IsSomeAnd (visible_named group.now name.now)
        (λ (volume : ℕ × Volume). segments_in group.now + length given.now ≤ 16384 → MayGrow group.now volume.1 given.now) }
    requires few { length given.now < 2 ^ 48 }
    requires seqno { group.now.seqno ≢ 4294967295 }
    ensures { Plans (specs.lengthen_rows state.now name.now now group.now given.now) (version_change state.now (longer name.now given.now group.now)) result }
{
    let found = group.group();
    judge_segments(found, given.len() as u64)?;
    let next = longer_volume(alloc, group, name, given)?;
    commit_version(alloc, state, next, now)
}
