//! A group with further physical volumes, and the change that commits it.
ghost use Rattle.std.specs.Prelude.{◌≡◌, ◌≤◌, ◌<◌, ◌+◌, ◌^◌, ◌++◌, [], ◌∷◌, ℕ, length, map, All, IfOk, MatchResult};
ghost use Rattle.mda_ring.specs.Areas.{CanTake};
ghost use Rattle.meta_model.specs.Standing.{HasTree};
ghost use Rattle.volume_rules.specs.Rules.{IsAccepted};
ghost use Rattle.group_plan.specs.Added.{disks_added, label_of, pv_of};
ghost use Rattle.group_plan.specs.Judging.{stored_size};
ghost use Rattle.group_plan.specs.NewGroup.{change_with, extended, text_row};
ghost use Rattle.group_plan.specs.Plans.{Plans};

use crate::judging::{judge_text, set_of};
use crate::marks::marked;
use crate::{AddedPv, Change, GroupState, Labels, NewLabel, PlanRefusal, Spans};
use group_edits::joined_group;
use meta_model::{Group, Pv};
use meta_print::printed_len;
use sector_base::{ItemList, PvDisks, PvSet};
use std::alloc::{AllocError, Global};
use vg_check::Checked;

/// The change that commits this group with these physical volumes too, where their disks follow those that were listed.
///
/// # Errors
///
/// `TooLarge` for the first area of its physical volumes that can't take its text; `NoMemory` where memory is wanting.
pub fn commit(
    alloc: Global,
    state: &GroupState,
    base: Group,
    listed: &[u32],
    all: Vec<AddedPv>,
    now: u64,
) -> Result<Change, PlanRefusal>
    requires few { length base.pvs + length base.lvs + length all.items < 2 ^ 32 }
    requires size { 1 ≤ base.extent_size }
    requires accepted { IsAccepted (extended base all.items) }
    requires tree { HasTree (extended base all.items) }
    requires disks { All (λ number. number < 64) (listed.now ++ disks_added all.items) }
    requires added { All (λ number. number < 64) (disks_added all.items) }
    requires areas { All CanTake state.now.areas }
    ensures { Plans (text_row state.now base listed.now all.items now ∷ []) (change_with base listed.now all.items) result }
{
    let group = with_volumes(alloc, base, &all)?;
    let disk_of = disks_with(alloc, listed, &all)?;
    let size = text_size(&group, now);
    judge_text(state.areas.as_slice(), disk_of.as_slice(), size)?;
    let taken = disks_with(alloc, &[], &all)?;
    Ok(Change {
        group: Some(group),
        zero: Spans::from_vec(Vec::new(alloc)),
        labels: labels_of(alloc, all)?,
        taken: set_of(taken.as_slice()),
        cleared: PvSet::new(),
        disk_of,
    })
}

/// The stored size of the group's text at this time.
#[tactic(auto, unfolding(crate::specs::Judging::stored_size))]
pub(crate) fn text_size(group: &Checked, now: u64) -> u64
    ensures size { result ≡ stored_size group.now now }
    ensures some { 1 ≤ result }
{
    printed_len(group.group(), now) + 1
}

// The group with these physical volumes too, which keeps all rules.
#[tactic(auto, unfolding(crate::specs::NewGroup::extended))]
fn with_volumes(alloc: Global, base: Group, all: &[AddedPv]) -> Result<Checked, AllocError>
    requires few { length base.pvs + length base.lvs + length all.now < 2 ^ 32 }
    requires size { 1 ≤ base.extent_size }
    requires accepted { IsAccepted (extended base all.now) }
    requires tree { HasTree (extended base all.now) }
    ensures { IfOk result (λ group. group ≡ extended base all.now) }
{
    let pvs = pvs_of(alloc, base.extent_size, all)?;
    joined_group(alloc, base, &pvs)
}

// What they are in a group with extents of so many sectors.
fn pvs_of(alloc: Global, extent_size: u64, all: &[AddedPv]) -> Result<Vec<Pv>, AllocError>
    requires { 1 ≤ extent_size }
    ensures { IfOk result (λ pvs. pvs.items ≡ map (pv_of extent_size) all.now) }
{
    let mut pvs = Vec::new(alloc);
    for added in all {
        let pv = added.pv(alloc, extent_size)?;
        pvs.push(pv)?;
    }
    Ok(pvs)
}

/// The disks that were listed, and then those of these physical volumes.
pub fn disks_with(alloc: Global, listed: &[u32], all: &[AddedPv]) -> Result<PvDisks, AllocError>
    ensures { IfOk result (λ disks. disks ≡ listed.now ++ disks_added all.now) }
{
    let mut disks = Vec::from_slice(alloc, listed)?;
    for added in all {
        disks.push(added.disk)?;
    }
    Ok(PvDisks::from_vec(disks))
}

// The labels of these physical volumes, which say that they are used.
fn labels_of(alloc: Global, all: Vec<AddedPv>) -> Result<Labels, AllocError>
    ensures { IfOk result (λ labels. labels ≡ map label_of all.items) }
{
    let mut labels = Vec::new(alloc);
    for added in all {
        labels.push(label_of(added))?;
    }
    Ok(ItemList::from_vec(labels))
}

fn label_of(added: AddedPv) -> NewLabel
    ensures { result ≡ label_of added }
{
    let AddedPv {
        disk,
        label,
        header,
        ..
    } = added;
    NewLabel {
        disk,
        sector: label,
        header: marked(header, true),
    }
}
