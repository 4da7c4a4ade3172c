//! The answer of a scan.
ghost use Rattle.std.specs.Prelude.{◌≡◌, ◌≤◌, ◌<◌, [], MatchResult, Some, length, slice_get};
ghost use Rattle.scan_rules.specs.Answers.{IsDecided, IsRefusedBy, Denies, answer_for, answer_without, denial};
ghost use Rattle.scan_rules.specs.Decision.{decide_scan, ids_from};
ghost use Rattle.scan_rules.specs.Found.{disks_by_id};
ghost use Rattle.scan_rules.specs.Readings.{AllAreOf, readings_of};

use crate::best::{best_copy, find_two_groups};
use crate::duplicates::{found_ids, index_ids};
use crate::held::{HeldCopy, held_copies};
use crate::missing::missing_ids;
use crate::readings::{DiskRead, GroupCopy};
use crate::refusals::{all_refusals, find_unsupported};
use crate::shape::find_misplaced;
use crate::stale::stale_areas;
use crate::strays::stray_disks;
use crate::texts::{find_conflict, is_held_by_listed};
use crate::{Decided, Readings, ScanRefusal};
use id_index::{IdMap, Members};
use lvm_id::LvmId;
use sector_base::{ItemList, PvSet};
use std::alloc::Global;

// What is found with a copy: stale areas, strays, and physical volumes that are missing.
#[derive(Drop)]
struct Lists {
    stale: ItemList<(u32, u32)>,
    strays: PvSet,
    missing: ItemList<LvmId>,
}

/// What the disks hold: the group in force, with what is stale, stray and missing, or that there is none.
///
/// # Errors
///
/// The first of these that holds: a physical volume was found twice; no copy was found, and an area was refused; a copy
/// was found, and a refused text agrees with its checksum; copies of two groups were found; two copies with the
/// greatest sequence number have different texts; a physical volume of the group doesn't lie well on its disk, or no
/// disk that the group lists holds the copy. `NoMemory` where memory is wanting.
pub fn decide(alloc: Global, readings: Readings) -> Result<Decided, ScanRefusal>
    ensures { MatchResult result (IsDecided (decide_scan readings.disks)) (IsRefusedBy (decide_scan readings.disks)) }
{
    let (copies, disks) = readings.into_parts();
    decide_read(alloc, copies, disks)
}

// The same, of the copies and the disks.
fn decide_read(
    alloc: Global,
    copies: Vec<GroupCopy>,
    disks: Vec<DiskRead>,
) -> Result<Decided, ScanRefusal>
    requires { AllAreOf copies.items disks.items }
    ensures { MatchResult result
        (IsDecided (decide_scan (readings_of copies.items disks.items)))
        (IsRefusedBy (decide_scan (readings_of copies.items disks.items))) }
{
    let ids = found_ids(alloc, &disks)?;
    let (found, repeated) = index_ids(alloc, &ids)?;
    if let Some((first, second)) = repeated {
        return Err(ScanRefusal::DuplicatePv(first, second));
    }
    let held = held_copies(alloc, &disks)?;
    match best_copy(&copies, &held) {
        Some(best) => decide_copy(alloc, copies, disks, &found, &held, best),
        None => decide_none(alloc, disks),
    }
}

// The answer where there is no copy.
fn decide_none(alloc: Global, disks: Vec<DiskRead>) -> Result<Decided, ScanRefusal>
    requires { length disks.items ≤ 64 }
    ensures { MatchResult result (IsDecided (answer_without disks.items)) (IsRefusedBy (answer_without disks.items)) }
{
    let refused = all_refusals(alloc, disks)?;
    if !refused.is_empty() {
        return Err(ScanRefusal::NoCopy(ItemList::from_vec(refused)));
    }
    Ok(Decided {
        copy: None,
        stale: ItemList::from_vec(Vec::new(alloc)),
        strays: PvSet::new(),
        missing: ItemList::from_vec(Vec::new(alloc)),
    })
}

// The answer where this copy is the first of the greatest.
fn decide_copy(
    alloc: Global,
    copies: Vec<GroupCopy>,
    disks: Vec<DiskRead>,
    found: &IdMap,
    held: &[HeldCopy],
    best: HeldCopy,
) -> Result<Decided, ScanRefusal>
    requires read { AllAreOf copies.items disks.items }
    requires found { found.now ≡ disks_by_id (ids_from 0 (readings_of [] disks.items)) }
    requires copy { best.number < length copies.items }
    ensures { MatchResult result
        (IsDecided (answer_for copies.items disks.items held.now best))
        (IsRefusedBy (answer_for copies.items disks.items held.now best)) }
{
    let copy = &copies[best.number];
    let Lists {
        stale,
        strays,
        missing,
    } = lists_with(alloc, &copies, &disks, found, held, best, copy)?;
    Ok(Decided {
        copy: Some(taken(copies, best.number)),
        stale,
        strays,
        missing,
    })
}

// What is found with this copy, or why it isn't taken.
fn lists_with(
    alloc: Global,
    copies: &[GroupCopy],
    disks: &[DiskRead],
    found: &IdMap,
    held: &[HeldCopy],
    best: HeldCopy,
    copy: &GroupCopy,
) -> Result<Lists, ScanRefusal>
    requires read { AllAreOf copies.now disks.now }
    requires found { found.now ≡ disks_by_id (ids_from 0 (readings_of [] disks.now)) }
    requires copy { slice_get copies.now best.number ≡ Some copy.now }
    ensures { MatchResult result
        (λ lists. IsDecided (answer_for copies.now disks.now held.now best)
        (record { copy = Some copy.now; stale = lists.stale; strays = lists.strays; missing = lists.missing }))
        (IsRefusedBy (answer_for copies.now disks.now held.now best)) }
{
    let members = Members::of(alloc, &copy.group)?;
    if let Some(refusal) = deny(copies, disks, &members, held, best, copy) {
        return Err(refusal);
    }
    let stale = stale_areas(alloc, copies, disks, &members, best.number, copy)?;
    let strays = stray_disks(&members, disks);
    let missing = missing_ids(alloc, members.group(), found)?;
    Ok(Lists {
        stale: ItemList::from_vec(stale),
        strays,
        missing: ItemList::from_vec(missing),
    })
}

// The copy with this number.
fn taken(copies: Vec<GroupCopy>, number: usize) -> GroupCopy
    requires { number < length copies.items }
    ensures { slice_get copies.items number ≡ Some result }
{
    let mut copies = copies;
    copies.swap_remove(number)
}

// Why the copy isn't taken: an unsupported text, two groups, a conflict, or volumes that don't lie well.
fn deny(
    copies: &[GroupCopy],
    disks: &[DiskRead],
    members: &Members<'_>,
    held: &[HeldCopy],
    best: HeldCopy,
    copy: &GroupCopy,
) -> Option<ScanRefusal>
    requires read { length disks.now ≤ 64 }
    requires members { members.now ≡ copy.now.group }
    requires copy { slice_get copies.now best.number ≡ Some copy.now }
    ensures { Denies (denial copies.now disks.now held.now best.disk copy.now) result }
{
    if let Some(disk) = find_unsupported(disks) {
        return Some(ScanRefusal::Unsupported(disk));
    }
    if let Some((first, second)) = find_two_groups(copies, held) {
        return Some(ScanRefusal::TwoGroups(first, second));
    }
    if let Some(disk) = find_conflict(copies, held, best.number, copy) {
        return Some(ScanRefusal::Conflict(best.disk, disk, members.group().seqno));
    }
    if let Some(disk) = find_misplaced(members, disks) {
        return Some(ScanRefusal::PvShape(disk));
    }
    if !is_held_by_listed(copies, disks, members, best.number, copy) {
        return Some(ScanRefusal::PvShape(best.disk));
    }
    None
}
