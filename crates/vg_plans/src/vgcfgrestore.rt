//! vgcfgrestore(8): its refusals, in their order, and its change, by what the text gives.
ghost use Rattle.std.specs.Prelude.{◌≡◌, ◌≤◌, ◌||◌, ◌==◌, Some, IfOk, IsTrue, is_some, length};
ghost use Rattle.line_answers.specs.declared.op_refusal.OpRefusal.TheVariants.{MoveStands, SeqnoEnd};
ghost use Rattle.volume_rules.specs.Moving.{has_move};
ghost use Rattle.vg_found.specs.Disks.{disks_of};
ghost use Rattle.group_edits.specs.RestoredGroup.{restored_group};
ghost use Rattle.group_plan.specs.Committing.{change_where_found, rows_where_found, version_change_on};
ghost use Rattle.group_plan.specs.Judging.{IsRefusedBy, Judges, first_refusal, refused_if};
ghost use Rattle.group_plan.specs.Plans.{Plans};
ghost use Rattle.group_plan.specs.State.{IsState};
ghost use Rattle.vg_plans.specs.Vgcfgrestore.{backup_change, backup_rows, both_rows, broken_rows, disks_held, restore_rows, sound_rows, sound_tests, unread_rows, vgcfgrestore_change, vgcfgrestore_rows};

use crate::limits::judge_limits;
use crate::same_group::judge_other;
use crate::shape::judge_shape;
use group_edits::restored_group;
use group_plan::{
    Backup, Change, GroupState, LAST_SEQNO, PlanRefusal, commit_version_on, copied_text,
    judge_areas, judge_named, judge_stripes, unknown_group,
};
use id_index::Members;
use line_answers::OpRefusal;
use meta_model::Group;
use sector_base::{PvDisks, Text};
use seg_place::has_move;
use std::alloc::{AllocError, Global};
use vg_check::Checked;
use vg_found::{Disk, disks_of};
use volume_rules::Rule;

/// The change of a vgcfgrestore of the group of this name, from what the text of the line gives.
///
/// # Errors
///
/// `UnknownGroup` where no group, or one of another name, was found; `ReadOnly`; `MoveStands` where a move stands in that group
/// or in the text's; `NoArea`; `BadStripe` where the pieces of stripes of the text's don't divide an extent; `TooMany`; `SeqnoEnd` where either has the last number of a version; `BadText`, `BadRule`, `OtherGroup` or
/// `TooLarge`: the first of these. `NoMemory` where memory is wanting.
pub fn plan_vgcfgrestore(
    alloc: Global,
    state: &GroupState,
    vg: &Text,
    now: u64,
) -> Result<Change, PlanRefusal>
    requires state { IsState state.now }
    requires backup { IsTrue (is_some state.now.backup) }
    ensures { Plans (vgcfgrestore_rows state.now vg.now now) (vgcfgrestore_change state.now) result }
{
    match &state.backup {
        Some(backup) => restore_by(alloc, state, vg, backup, now),
        None => unreachable!(),
    }
}

// The change where the text gives this.
fn restore_by(
    alloc: Global,
    state: &GroupState,
    vg: &Text,
    backup: &Backup,
    now: u64,
) -> Result<Change, PlanRefusal>
    requires { IsState state.now }
    ensures { Plans (rows_where_found state.now.group vg.now (restore_rows state.now vg.now backup.now now)) (change_where_found state.now (backup_change state.now backup.now)) result }
{
    match &state.group {
        Some(found) => restore(alloc, state, found, vg, backup, now),
        None => Err(unknown_group(alloc, vg)),
    }
}

// The change where this group was found.
fn restore(
    alloc: Global,
    state: &GroupState,
    found: &Checked,
    vg: &Text,
    backup: &Backup,
    now: u64,
) -> Result<Change, PlanRefusal>
    requires state { IsState state.now }
    requires found { state.now.group ≡ Some found.now }
    ensures { Plans (restore_rows state.now vg.now backup.now now found.now) (backup_change state.now backup.now found.now) result }
{
    judge_named(alloc, found.group(), vg)?;
    restore_from(alloc, state, found, backup, now)
}

// The change where the group may be changed.
fn restore_from(
    alloc: Global,
    state: &GroupState,
    found: &Checked,
    backup: &Backup,
    now: u64,
) -> Result<Change, PlanRefusal>
    requires state { IsState state.now }
    requires found { state.now.group ≡ Some found.now }
    ensures { Plans (backup_rows state.now found.now backup.now now) (backup_change state.now backup.now found.now) result }
{
    match backup {
        Backup::Unread(kind) => Err(refuse_unread(alloc, found.group(), kind)),
        Backup::Broken(said, rule) => Err(refuse_broken(alloc, state, found.group(), said, *rule)),
        Backup::Sound(said) => restore_group(alloc, state, found, said, now),
    }
}

// The change where the text gives this group, which keeps all rules.
fn restore_group(
    alloc: Global,
    state: &GroupState,
    found: &Checked,
    said: &Checked,
    now: u64,
) -> Result<Change, PlanRefusal>
    requires state { IsState state.now }
    requires found { state.now.group ≡ Some found.now }
    ensures { Plans (sound_rows state.now found.now said.now now) (version_change_on (disks_of said.now state.now.disks) (restored_group found.now said.now)) result }
{
    judge_sound(alloc, state, found, said)?;
    let next = restored_group(alloc, found, said)?;
    let disk_of = disks_of(alloc, said.group(), state.disks.as_slice())?;
    commit_version_on(alloc, state, disk_of, next, now)
}

// The rows on such a group.
fn judge_sound(
    alloc: Global,
    state: &GroupState,
    found: &Checked,
    said: &Checked,
) -> Result<(), PlanRefusal>
    requires { IsState state.now }
    ensures { Judges result (first_refusal (sound_tests state.now found.now said.now)) }
{
    judge_both(alloc, state, found.group(), said.group())?;
    let said = Members::of(alloc, said)?;
    let found = Members::of(alloc, found)?;
    judge_shape(state.disks.as_slice(), &said)?;
    judge_other(alloc, &said, &found)
}

// Why a text that gives no group, by this kind, isn't restored.
fn refuse_unread(alloc: Global, found: &Group, kind: &Text) -> PlanRefusal
    ensures { IsRefusedBy (first_refusal (unread_rows found.now kind.now)) result }
{
    if has_move(found) {
        return PlanRefusal::Refused(OpRefusal::MoveStands);
    }
    if found.seqno == LAST_SEQNO {
        return PlanRefusal::Refused(OpRefusal::SeqnoEnd);
    }
    match copied_text(alloc, kind) {
        Ok(kind) => PlanRefusal::Refused(OpRefusal::BadText(kind)),
        Err(_) => PlanRefusal::NoMemory,
    }
}

// Why a group that breaks this rule first isn't restored.
fn refuse_broken(
    alloc: Global,
    state: &GroupState,
    found: &Group,
    said: &Group,
    rule: Rule,
) -> PlanRefusal
    requires { IsState state.now }
    ensures { IsRefusedBy (first_refusal (broken_rows state.now found.now said.now rule)) result }
{
    match judge_both(alloc, state, found, said) {
        Err(refusal) => refusal,
        Ok(()) => PlanRefusal::Refused(OpRefusal::BadRule(u64::from(rule.number()))),
    }
}

// The rows on the group that was found and that of the text: a move, an area for its text, the pieces of stripes, how many volumes
// and segments, and the number of the version.
fn judge_both(
    alloc: Global,
    state: &GroupState,
    found: &Group,
    said: &Group,
) -> Result<(), PlanRefusal>
    requires { IsState state.now }
    ensures { Judges result (first_refusal (both_rows state.now found.now said.now)) }
{
    judge_moves(found, said)?;
    let held = disks_held(alloc, said, state.disks.as_slice())?;
    judge_areas(state.areas.as_slice(), held.as_slice())?;
    judge_stripes(said)?;
    judge_limits(said)?;
    judge_last(found, said)
}

// The disks of those of its physical volumes that one of these disks holds.
fn disks_held(alloc: Global, said: &Group, disks: &[Disk]) -> Result<PvDisks, AllocError>
    requires { length disks.now ≤ 64 }
    ensures { IfOk result (λ held. held ≡ disks_held said.now disks.now) }
{
    let all = disks_of(alloc, said, disks)?;
    let mut held = Vec::new(alloc);
    for disk in all.as_slice() {
        if (*disk as usize) < disks.len() {
            held.push(*disk)?;
        }
    }
    Ok(PvDisks::from_vec(held))
}

// No move stands in either.
fn judge_moves(found: &Group, said: &Group) -> Result<(), PlanRefusal>
    ensures { Judges result (refused_if (has_move found.now || has_move said.now) MoveStands) }
{
    if has_move(found) || has_move(said) {
        return Err(PlanRefusal::Refused(OpRefusal::MoveStands));
    }
    Ok(())
}

// Neither has the last number of a version.
fn judge_last(found: &Group, said: &Group) -> Result<(), PlanRefusal>
    ensures { Judges result (refused_if (found.now.seqno == 4294967295 || said.now.seqno == 4294967295) SeqnoEnd) }
{
    if found.seqno == LAST_SEQNO || said.seqno == LAST_SEQNO {
        return Err(PlanRefusal::Refused(OpRefusal::SeqnoEnd));
    }
    Ok(())
}
