//! Whether a group is found of the disks whose labels say that one uses them.
ghost use Rattle.std.specs.Prelude.{◌≡◌, ◌≢◌, ◌≤◌, ◌<◌, ◌↔◌, ℕ, ◌^◌, [], length, slice_index_or};
ghost use Rattle.std.specs.Prelude.{All, Contains, IfOk, IfSome, IsTrue, MatchOption, MatchResult, Some};
ghost use Rattle.std.specs.FinSet as set;
ghost use Rattle.disk_model.specs.Faults.{HasSameFaults};
ghost use Rattle.scan_rules.specs.declared.decision.ScanRefusal.TheVariants.{NoMemory};
ghost use Rattle.vg_scan.specs.Scans.{HoldsNow};
ghost use Rattle.disk_use.specs.Faults.{IsUnreadFault, IsUseFault, wanting};
ghost use Rattle.disk_use.specs.LookedAt.{LooksOnly};
ghost use Rattle.disk_use.specs.Uses.{IsAmong, IsOfGroup, IsOfNone};

use crate::UseRefusal;
use disk_model::Shelf;
use scan_rules::ScanRefusal;
use sector_base::PvSet;
use std::alloc::Global;
use vg_found::Found;
use vg_scan::{ScanStopped, scan};

// The first of the marked disks of which no group is found. Where there are some, all disks are scanned. A refused scan
// shows nothing of them.
pub(crate) fn first_left<S: Shelf>(
    alloc: Global,
    shelf: &mut S,
    marked: &[u32],
) -> Result<Option<u32>, UseRefusal>
    requires some { 1 ≤ length (S.state shelf.old).sizes }
    requires few { length (S.state shelf.old).sizes ≤ 64 }
    requires least { (pv : ℕ) → pv < length (S.state shelf.old).sizes → 8 ≤ slice_index_or (S.state shelf.old).sizes pv 0 }
    requires most { (pv : ℕ) → pv < length (S.state shelf.old).sizes → slice_index_or (S.state shelf.old).sizes pv 0 ≤ 2 ^ 40 }
    requires idle { (S.state shelf.old).in_flight ≡ [] }
    ensures cause { MatchResult result
        (λ left. HasSameFaults (S.state shelf.old) (S.state shelf.new)
        × HoldsNow (S.state shelf.old).told (λ image. MatchOption left
        (All (IsOfGroup image (S.state shelf.old).sizes) marked.now)
        (λ pv. Contains marked.now pv × IsOfNone image (S.state shelf.old).sizes pv)))
        (IsUseFault (S.state shelf.old) (S.state shelf.new)) }
    // Whatever the shelf tells.
    ensures of { IfOk result (λ left. IfSome left (Contains marked.now)) }
    ensures looks { LooksOnly (S.state shelf.old) (S.state shelf.new) }
{
    let Some(first) = marked.first() else {
        return Ok(None);
    };
    match scan(alloc, shelf) {
        Ok(found) => left_of(&found, marked),
        Err(stopped) => left_of_refused(&stopped, *first),
    }
}

// The first of the marked disks that isn't of the group which was found, where no disk is unread.
fn left_of(found: &Found, marked: &[u32]) -> Result<Option<u32>, UseRefusal>
    ensures { MatchResult result
        (λ left. (found.now.unread ≡ set.empty)
        × MatchOption left (All (IsAmong found.now) marked.now) (λ pv. Contains marked.now pv × ¬ IsAmong found.now pv))
        (IsUnreadFault found.now.unread) }
{
    check_read(&found.unread)?;
    Ok(first_apart(found, marked))
}

// The first of the marked disks, where the scan was refused and no disk is unread.
fn left_of_refused(stopped: &ScanStopped, first: u32) -> Result<Option<u32>, UseRefusal>
    ensures { MatchResult result
        (λ left. (stopped.now.unread ≡ set.empty) × (stopped.now.why ≢ NoMemory) × (left ≡ Some first))
        (λ refusal. (stopped.now.why ≡ NoMemory → refusal ≡ wanting) × IsUnreadFault stopped.now.unread refusal) }
{
    check_refused(stopped)?;
    Ok(Some(first))
}

// Refuses where the scan was refused for want of memory, or disks are unread.
fn check_refused(stopped: &ScanStopped) -> Result<(), UseRefusal>
    ensures { MatchResult result
        (λ _. (stopped.now.unread ≡ set.empty) × (stopped.now.why ≢ NoMemory))
        (λ refusal. (stopped.now.why ≡ NoMemory → refusal ≡ wanting) × IsUnreadFault stopped.now.unread refusal) }
{
    if is_memory(&stopped.why) {
        return Err(UseRefusal::NoMemory);
    }
    check_read(&stopped.unread)
}

// Whether memory was wanting.
fn is_memory(why: &ScanRefusal) -> bool
    ensures { IsTrue result ↔ (why.now ≡ NoMemory) }
{
    matches!(why, ScanRefusal::NoMemory)
}

// Refuses where disks are unread, by the first of them. A set that isn't empty has one below 64.
fn check_read(unread: &PvSet) -> Result<(), UseRefusal>
    ensures { MatchResult result (λ _. unread.now ≡ set.empty) (IsUnreadFault unread.now) }
{
    if unread.is_empty() {
        return Ok(());
    }
    for disk in 0..64 {
        if unread.contains(disk) {
            return Err(UseRefusal::ReadFailed(disk));
        }
    }
    Err(UseRefusal::NoMemory)
}

// The first of the marked disks that the group doesn't list and that isn't its stray.
fn first_apart(found: &Found, marked: &[u32]) -> Option<u32>
    ensures { MatchOption result (All (IsAmong found.now) marked.now) (λ disk. Contains marked.now disk × ¬ IsAmong found.now disk) }
{
    for disk in marked {
        if !is_among(found, *disk) {
            return Some(*disk);
        }
    }
    None
}

// Whether a group was found that lists the disk or whose stray it is.
pub(crate) fn is_among(found: &Found, disk: u32) -> bool
    ensures { IsTrue result ↔ IsAmong found.now disk }
{
    found.group.is_some()
        && (found.strays.contains(disk) || found.disk_of.as_slice().contains(&disk))
}
