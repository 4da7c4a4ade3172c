//! lvcreate(8): its refusals, in their order, and its change.
ghost use Rattle.std.specs.Prelude.{◌≡◌, ◌≢◌, ◌≤◌, ◌<◌, ◌^◌, ◌+◌, ◌∷◌, [], None, Some, false, All, IfOk, IfSome, length};
ghost use Rattle.lvm_id.specs.LvmId.{IsId};
ghost use Rattle.lvm_name.specs.Names.{is_among, volume_name_refusal};
ghost use Rattle.meta_model.specs.Tables.{names_of};
ghost use Rattle.group_edits.specs.GivenSegments.{segments_in};
ghost use Rattle.group_edits.specs.NewVolume.{MayHave};
ghost use Rattle.group_plan.specs.Judging.{Judges, first_refusal};
ghost use Rattle.group_plan.specs.Plans.{Plans};
ghost use Rattle.group_plan.specs.State.{IsState};
ghost use Rattle.group_plan.specs.Zeroing.{AreWithin};
ghost use Rattle.lv_plans.specs.Lvcreate as specs;
ghost use Rattle.lv_plans.specs.Allocating.{PlansWith};

use crate::allocating::{disk_at, judge_segments, take_extents};
use crate::sizes::extents_for;
use crate::volumes::judge_name;
use command_table::NewVolume;
use extent_alloc::{Given, Part, PartRun, Request};
use group_edits::with_volume;
use group_plan::{
    Change, GroupState, PlanRefusal, Spans, commit_zeroed, has_id, judge_areas, judge_count,
    judge_known, judge_members, judge_named, judge_seqno, judge_stripe, pvs_named, stands_on_disk,
    unknown_group, volume_name,
};
use line_answers::OpRefusal;
use lvm_id::LvmId;
use meta_model::{Group, Legs, SegKind};
use sector_base::{PvSet, Span};
use std::alloc::{AllocError, Global};
use vg_check::{Checked, MOST_LVS};

// The sectors of a mirror's regions.
const REGION_SIZE: u64 = 1_024;

/// The change of an lvcreate of this volume with this id.
///
/// # Errors
///
/// `UnknownGroup` where no group, or one of another name, was found; `ReadOnly`, `NameTaken`, `UnknownPv`, `NotInGroup`,
/// `NoArea`, `BadStripe`, `TooMany` with the volumes that the group would have, `SeqnoEnd`, `IdTaken` where the id stands in the
/// group or on a disk, `NotAllocatable`, `NoSpace`, `NoRun`, `TooFewPvs`, `TooMany` with its segments, or `TooLarge`: the first
/// of these. `NoMemory` where memory is wanting.
pub fn plan_lvcreate(
    alloc: Global,
    state: &GroupState,
    id: &LvmId,
    new: &NewVolume,
    now: u64,
) -> Result<Change, PlanRefusal>
    requires state { IsState state.now }
    requires id { IsId id.now }
    requires new { specs.IsNewVolume new.now }
    requires time { now < 2 ^ 48 }
    ensures plans { PlansWith (specs.lvcreate_asks state.now id.now new.now) (specs.lvcreate_rows state.now id.now new.now now)
        (specs.lvcreate_change state.now id.now new.now now) result }
    ensures zeros { IfOk result (λ change. AreWithin state.now.disks change.zero) }
{
    match &state.group {
        Some(group) => create(alloc, state, group, id, new, now),
        None => Err(unknown_group(alloc, &new.vg)),
    }
}

// The change where this group was found.
fn create(
    alloc: Global,
    state: &GroupState,
    group: &Checked,
    id: &LvmId,
    new: &NewVolume,
    now: u64,
) -> Result<Change, PlanRefusal>
    requires state { IsState state.now }
    requires found { state.now.group ≡ Some group.now }
    requires id { IsId id.now }
    requires new { specs.IsNewVolume new.now }
    requires time { now < 2 ^ 48 }
    ensures plans { PlansWith (Some (specs.create_asks state.now id.now new.now group.now)) (specs.create_in_rows state.now id.now new.now now group.now)
        (specs.create_change state.now id.now new.now now group.now) result }
    ensures zeros { IfOk result (λ change. AreWithin state.now.disks change.zero) }
{
    let found = group.group();
    judge_names(alloc, state, found, new)?;
    judge_limits(state, found, id, new)?;
    let on = pvs_named(state, new.pvs.as_slice());
    let want = want_on(on, found.extent_size, new);
    let given = take_extents(alloc, state, group, &want)?;
    add(alloc, state, group, id, new, &given, now)
}

// The rows on the names in the line.
fn judge_names(
    alloc: Global,
    state: &GroupState,
    group: &Group,
    new: &NewVolume,
) -> Result<(), PlanRefusal>
    requires state { IsState state.now }
    requires few { length state.now.disk_of ≤ 64 }
    requires name { volume_name_refusal new.now.lv ≡ None }
    ensures { Judges result (first_refusal (specs.name_rows state.now new.now group.now)) }
{
    judge_named(alloc, group, &new.vg)?;
    let name = volume_name(alloc, &new.lv)?;
    judge_name(alloc, group, &name)?;
    judge_known(alloc, state, new.pvs.as_slice())?;
    judge_members(alloc, state, new.pvs.as_slice())
}

// The rows on what the group takes, before the allocator's.
fn judge_limits(
    state: &GroupState,
    group: &Group,
    id: &LvmId,
    new: &NewVolume,
) -> Result<(), PlanRefusal>
    requires disks { All (λ number. number < 64) state.now.disk_of }
    requires few { length group.now.lvs ≤ 1024 }
    ensures { Judges result (first_refusal (specs.limit_rows state.now id.now new.now group.now)) }
{
    judge_areas(state.areas.as_slice(), state.disk_of.as_slice())?;
    judge_stripe(group.extent_size, new.stripes, new.stripe_size)?;
    judge_count(MOST_LVS, group.max_lv, group.lvs.len() as u64 + 1)?;
    judge_seqno(group)?;
    judge_id(state, group, id)
}

// The id stands neither in the group nor on a disk: else `IdTaken`.
fn judge_id(state: &GroupState, group: &Group, id: &LvmId) -> Result<(), PlanRefusal>
    ensures { Judges result (specs.id_row state.now group.now id.now) }
{
    if has_id(group, id) || stands_on_disk(id, state.disks.as_slice()) {
        return Err(PlanRefusal::Refused(OpRefusal::IdTaken(*id)));
    }
    Ok(())
}

// What is asked of these physical volumes, with extents of so many sectors.
fn want_on(on: PvSet, extent_size: u64, new: &NewVolume) -> Request
    requires size { 1 ≤ extent_size }
    requires new { specs.IsNewVolume new.now }
    ensures { result ≡ specs.want_on on extent_size new.now }
{
    Request {
        extents: share_for(extent_size, new),
        legs: legs_for(new),
        contiguous: new.contiguous,
        on,
        avoid: PvSet::new(),
    }
}

// How many extents each leg has: all of them in a mirror, else so many that all stripes together have at least as many.
fn share_for(extent_size: u64, new: &NewVolume) -> u64
    requires size { 1 ≤ extent_size }
    requires stripes { 1 ≤ new.now.stripes }
    ensures { result ≡ specs.share_for extent_size new.now }
{
    let count = extents_for(extent_size, new.amount);
    if new.mirrors > 0 {
        count
    } else {
        count.div_ceil(new.stripes)
    }
}

// How many legs it has: one and its mirrors, or its stripes.
fn legs_for(new: &NewVolume) -> u32
    requires stripes { new.now.stripes ≤ 8 }
    requires mirrors { new.now.mirrors ≤ 7 }
    ensures { result ≡ specs.legs_for new.now }
{
    if new.mirrors > 0 {
        new.mirrors as u32 + 1
    } else {
        new.stripes as u32
    }
}

// The kind of its segments, without legs.
fn kind_for(alloc: Global, new: &NewVolume) -> SegKind
    ensures { result ≡ specs.kind_for new.now }
{
    let legs = Legs::from_vec(Vec::new(alloc));
    if new.mirrors > 0 {
        SegKind::Mirror {
            region: REGION_SIZE,
            moved: None,
            legs,
        }
    } else {
        SegKind::Striped {
            stripe: if new.stripes > 1 { new.stripe_size } else { 0 },
            legs,
        }
    }
}

// The rows behind the allocator's, and the change, where the volume gets these parts.
fn add(
    alloc: Global,
    state: &GroupState,
    group: &Checked,
    id: &LvmId,
    new: &NewVolume,
    given: &Given,
    now: u64,
) -> Result<Change, PlanRefusal>
    requires state { IsState state.now }
    requires found { state.now.group ≡ Some group.now }
    requires id { IsId id.now }
    requires name { volume_name_refusal new.now.lv ≡ None }
    requires free { is_among (names_of group.now.lvs) new.now.lv ≡ false }
    requires volume { segments_in group.now + length given.now ≤ 16384 → MayHave group.now id.now (specs.kind_for new.now) given.now now }
    requires few { length given.now < 2 ^ 48 }
    requires seqno { group.now.seqno ≢ 4294967295 }
    ensures plans { Plans (specs.add_rows state.now id.now new.now now group.now given.now) (specs.create_change state.now id.now new.now now group.now given.now) result }
    ensures zeros { IfOk result (λ change. AreWithin state.now.disks change.zero) }
{
    let found = group.group();
    judge_segments(found, given.len() as u64)?;
    let name = volume_name(alloc, &new.lv)?;
    let kind = kind_for(alloc, new);
    let zero = first_sectors(alloc, state.disk_of.as_slice(), found, given.as_slice())?;
    let next = with_volume(alloc, group, &name, *id, &kind, given, now)?;
    commit_zeroed(alloc, state, next, zero, now)
}

// The first eight sectors of a volume of these parts, at its first leg.
fn first_sectors(
    alloc: Global,
    disk_of: &[u32],
    group: &Group,
    given: &[Part],
) -> Result<Spans, AllocError>
    requires { IfSome (specs.first_run given.now) (λ run. specs.Begins group.now run) }
    ensures { IfOk result (λ zero. zero ≡ specs.zeroed_at disk_of.now group.now given.now) }
{
    let mut zero = Vec::new(alloc);
    if let Some(run) = first_run(given) {
        zero.push(eight_from(disk_of, group, run))?;
    }
    Ok(Spans::from_vec(zero))
}

// Where the first leg of the first of these parts begins.
fn first_run(given: &[Part]) -> Option<PartRun>
    ensures { result ≡ specs.first_run given.now }
{
    match given.first() {
        Some(part) => part.runs.as_slice().first().copied(),
        None => None,
    }
}

// Eight sectors from where the leg begins, on its disk.
fn eight_from(disk_of: &[u32], group: &Group, run: PartRun) -> Span
    requires { specs.Begins group.now run }
    ensures { specs.leg_zeroed disk_of.now group.now run ≡ result ∷ [] }
{
    let (_, pv) = group.pvs.get(run.pv as usize);
    Span {
        pv: disk_at(disk_of, run.pv),
        first: pv.pe_start + run.first * group.extent_size,
        count: 8,
    }
}
