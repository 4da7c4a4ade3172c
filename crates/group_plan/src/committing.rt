//! The next version of the group that was found: the rows that commands which make one share, and its change.
ghost use Rattle.std.specs.Prelude.{◌≡◌, ◌<◌, [], ◌∷◌, Some, not, All};
ghost use Rattle.std.specs.Str.{bytes_eq};
ghost use Rattle.line_answers.specs.declared.op_refusal.OpRefusal.TheVariants.{NotResizeable, ReadOnly, UnknownGroup};
ghost use Rattle.mda_ring.specs.Areas.{CanTake};
ghost use Rattle.group_plan.specs.Judging.{IsRefusedBy, Judges, first_refusal, refused_if};
ghost use Rattle.group_plan.specs.Committing.{length_row, length_row_on, named_rows, seqno_row, version_change, version_change_on, zeroing_change};
ghost use Rattle.group_plan.specs.Plans.{Plans};

use crate::copied::{copied_disks, copied_text};
use crate::joined_group::text_size;
use crate::judging::judge_text;
use crate::{Change, GroupState, Labels, PlanRefusal, Spans};
use line_answers::OpRefusal;
use meta_model::Group;
use sector_base::{PvDisks, PvSet, Text};
use std::alloc::Global;
use vg_check::Checked;

/// The last number of a version.
pub const LAST_SEQNO: u64 = 4_294_967_295;

/// No group was found that has this name: `UnknownGroup`, or `NoMemory`.
pub fn unknown_group(alloc: Global, vg: &Text) -> PlanRefusal
    ensures { IsRefusedBy (Some (UnknownGroup vg.now)) result }
{
    match copied_text(alloc, vg) {
        Ok(name) => PlanRefusal::Refused(OpRefusal::UnknownGroup(name)),
        Err(_) => PlanRefusal::NoMemory,
    }
}

/// Whether the group has the name.
pub fn is_named(group: &Group, vg: &Text) -> bool
    ensures { result ≡ bytes_eq group.now.name vg.now }
{
    group.name.as_bytes() == vg.as_bytes()
}

/// The group has this name.
///
/// # Errors
///
/// Else `UnknownGroup`; `NoMemory` where memory is wanting.
pub fn judge_name(alloc: Global, group: &Group, vg: &Text) -> Result<(), PlanRefusal>
    ensures { Judges result (refused_if (not (bytes_eq group.now.name vg.now)) (UnknownGroup vg.now)) }
{
    if is_named(group, vg) {
        return Ok(());
    }
    let name = copied_text(alloc, vg)?;
    Err(PlanRefusal::Refused(OpRefusal::UnknownGroup(name)))
}

/// The group may be changed.
///
/// # Errors
///
/// Else `ReadOnly`.
pub fn judge_write(group: &Group) -> Result<(), PlanRefusal>
    ensures { Judges result (refused_if (not group.now.status.write) ReadOnly) }
{
    if group.status.is_writable() {
        return Ok(());
    }
    Err(PlanRefusal::Refused(OpRefusal::ReadOnly))
}

/// The group has this name, and may be changed.
///
/// # Errors
///
/// `UnknownGroup` or `ReadOnly`: the first of these. `NoMemory` where memory is wanting.
pub fn judge_named(alloc: Global, group: &Group, vg: &Text) -> Result<(), PlanRefusal>
    ensures { Judges result (first_refusal (named_rows group.now vg.now)) }
{
    judge_name(alloc, group, vg)?;
    judge_write(group)
}

/// Physical volumes may be added to the group and taken out.
///
/// # Errors
///
/// Else `NotResizeable`.
pub fn judge_resizeable(group: &Group) -> Result<(), PlanRefusal>
    ensures { Judges result (refused_if (not group.now.status.resizeable) NotResizeable) }
{
    if group.status.is_resizeable() {
        return Ok(());
    }
    Err(PlanRefusal::Refused(OpRefusal::NotResizeable))
}

/// There is a number for a further version.
///
/// # Errors
///
/// Else `SeqnoEnd`.
pub fn judge_seqno(group: &Group) -> Result<(), PlanRefusal>
    ensures { Judges result (seqno_row group.now) }
{
    if group.seqno == LAST_SEQNO {
        return Err(PlanRefusal::Refused(OpRefusal::SeqnoEnd));
    }
    Ok(())
}

/// The change that commits this version of the group at this time, to the disks of the one in force.
///
/// # Errors
///
/// `TooLarge` for the first area on them that can't take its text; `NoMemory` where memory is wanting.
pub fn commit_version(
    alloc: Global,
    state: &GroupState,
    next: Checked,
    now: u64,
) -> Result<Change, PlanRefusal>
    requires disks { All (λ number. number < 64) state.now.disk_of }
    requires areas { All CanTake state.now.areas }
    ensures { Plans (length_row state.now next now ∷ []) (version_change state.now next) result }
{
    let disk_of = copied_disks(alloc, &state.disk_of)?;
    commit_version_on(alloc, state, disk_of, next, now)
}

/// The same where these sectors are to hold zeros before.
///
/// # Errors
///
/// As those of `commit_version`.
pub fn commit_zeroed(
    alloc: Global,
    state: &GroupState,
    next: Checked,
    zero: Spans,
    now: u64,
) -> Result<Change, PlanRefusal>
    requires disks { All (λ number. number < 64) state.now.disk_of }
    requires areas { All CanTake state.now.areas }
    ensures { Plans (length_row state.now next now ∷ []) (zeroing_change state.now zero next) result }
{
    let mut change = commit_version(alloc, state, next, now)?;
    change.zero = zero;
    Ok(change)
}

/// The change that commits this version of the group at this time, to these disks.
///
/// # Errors
///
/// `TooLarge` for the first area on them that can't take its text.
pub fn commit_version_on(
    alloc: Global,
    state: &GroupState,
    disk_of: PvDisks,
    next: Checked,
    now: u64,
) -> Result<Change, PlanRefusal>
    requires disks { All (λ number. number < 64) disk_of }
    requires areas { All CanTake state.now.areas }
    ensures { Plans (length_row_on state.now disk_of next now ∷ []) (version_change_on disk_of next) result }
{
    let size = text_size(&next, now);
    judge_text(state.areas.as_slice(), disk_of.as_slice(), size)?;
    Ok(Change {
        group: Some(next),
        zero: Spans::from_vec(Vec::new(alloc)),
        labels: Labels::from_vec(Vec::new(alloc)),
        taken: PvSet::new(),
        cleared: PvSet::new(),
        disk_of,
    })
}
