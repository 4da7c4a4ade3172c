//! The first of the disks that a request takes that is in use.
ghost use Rattle.std.specs.Prelude.{◌≡◌, ◌≤◌, ◌<◌, ℕ, ◌^◌, [], length, slice_index_or};
ghost use Rattle.std.specs.Prelude.{All, Contains, IfOk, IfSome, MatchOption, MatchResult, option_map};
ghost use Rattle.disk_model.specs.Faults.{HasSameFaults};
ghost use Rattle.disk_model.specs.Idle.{IsIdleAgain};
ghost use Rattle.disk_model.specs.Since.{BetweenRecords};
ghost use Rattle.vg_scan.specs.Scans.{HoldsNow};
ghost use Rattle.disk_use.specs.declared.in_use.Use.TheVariants.{Group};
ghost use Rattle.disk_use.specs.Faults.{IsUseFault};
ghost use Rattle.disk_use.specs.LookedAt.{AreFreeBut, IsFirstUse, LooksOnly, ReadsSome};
ghost use Rattle.disk_use.specs.Taken.{is_new, taken_by};
ghost use Rattle.disk_use.specs.Uses.{IsFree, IsUsedBy};

use crate::UseRefusal;
use crate::in_use::{InUse, Shown, Use};
use crate::look::look;
use crate::marked::first_left;
use crate::taken::{disks_taken, is_new};
use command_table::Request;
use disk_model::Shelf;
use line_answers::DiskNames;
use std::alloc::Global;

/// The first disk in use of those that pvcreate, vgcreate or vgextend takes; of anything else none, and nothing is read then.
///
/// Each of them is looked at, in the order of the words. Where labels say that a group uses their disks (PV_EXT_USED of
/// lvm2's on-disk format), all disks of the run are scanned once: such a disk is in use unless a group is found that lists
/// it or whose stray it is. A refused scan shows nothing of it. To pvcreate one whose label has no header that can be read
/// is in use too, and one without a label by the first signature that stands there; vgcreate and vgextend refuse such
/// disks themselves.
///
/// # Errors
///
/// `ReadFailed` with a disk where a read of it failed, and `NoMemory` where memory is wanting.
pub fn find_use<S: Shelf>(
    alloc: Global,
    shelf: &mut S,
    names: &DiskNames,
    request: &Request,
) -> Result<Option<InUse>, UseRefusal>
    requires some { 1 ≤ length (S.state shelf.old).sizes }
    requires few { length (S.state shelf.old).sizes ≤ 64 }
    requires least { (pv : ℕ) → pv < length (S.state shelf.old).sizes → 8 ≤ slice_index_or (S.state shelf.old).sizes pv 0 }
    requires most { (pv : ℕ) → pv < length (S.state shelf.old).sizes → slice_index_or (S.state shelf.old).sizes pv 0 ≤ 2 ^ 40 }
    requires idle { (S.state shelf.old).in_flight ≡ [] }
    requires named { length names.now ≡ length (S.state shelf.old).sizes }
    ensures cause { MatchResult result
        (λ found. HasSameFaults (S.state shelf.old) (S.state shelf.new)
        × HoldsNow (S.state shelf.old).told (λ image. MatchOption found
        (All (IsFree (is_new request.now) image (S.state shelf.old).sizes) (taken_by names.now request.now))
        (λ found. Contains (taken_by names.now request.now) found.pv
        × IsUsedBy (is_new request.now) image (S.state shelf.old).sizes found.pv found.by)))
        (IsUseFault (S.state shelf.old) (S.state shelf.new)) }
    ensures taken { IfOk result (λ found. IfSome found (λ found. Contains (taken_by names.now request.now) found.pv)) }
    ensures within { IfOk result (λ found. IfSome found (λ found. found.pv < length names.now)) }
    // Nothing is read of a request that takes no disk.
    ensures untouched { taken_by names.now request.now ≡ [] → S.state shelf.new ≡ S.state shelf.old }
    ensures again { IsIdleAgain (S.state shelf.old) (S.state shelf.new) }
    ensures told { BetweenRecords ReadsSome (S.state shelf.old).told (S.state shelf.new).told }
{
    let taken = disks_taken(alloc, names, request)?;
    if taken.is_empty() {
        return Ok(None);
    }
    find_among(alloc, shelf, &taken, is_new(request))
}

// The first of these disks that is in use.
fn find_among<S: Shelf>(
    alloc: Global,
    shelf: &mut S,
    taken: &[u32],
    new: bool,
) -> Result<Option<InUse>, UseRefusal>
    requires some { 1 ≤ length (S.state shelf.old).sizes }
    requires few { length (S.state shelf.old).sizes ≤ 64 }
    requires least { (disk : ℕ) → disk < length (S.state shelf.old).sizes → 8 ≤ slice_index_or (S.state shelf.old).sizes disk 0 }
    requires most { (disk : ℕ) → disk < length (S.state shelf.old).sizes → slice_index_or (S.state shelf.old).sizes disk 0 ≤ 2 ^ 40 }
    requires idle { (S.state shelf.old).in_flight ≡ [] }
    requires within { All (λ disk. disk < length (S.state shelf.old).sizes) taken.now }
    ensures cause { MatchResult result
        (λ found. HasSameFaults (S.state shelf.old) (S.state shelf.new)
        × HoldsNow (S.state shelf.old).told (λ image. MatchOption found
        (All (IsFree new image (S.state shelf.old).sizes) taken.now)
        (IsFirstUse new image (S.state shelf.old).sizes taken.now)))
        (IsUseFault (S.state shelf.old) (S.state shelf.new)) }
    // Whatever the shelf tells.
    ensures of { IfOk result (λ found. IfSome found (λ found. Contains taken.now found.pv)) }
    ensures looks { LooksOnly (S.state shelf.old) (S.state shelf.new) }
{
    let mut marked = Vec::new(alloc);
    for disk in taken {
        match look(alloc, shelf, *disk, new)? {
            Shown::Free => {}
            Shown::Marked => marked.push(*disk)?,
            Shown::Used(by) => return Ok(Some(InUse { pv: *disk, by })),
        }
    }
    let left = first_left(alloc, shelf, &marked)?;
    Ok(in_use(left))
}

// The disk of which no group is found.
fn in_use(left: Option<u32>) -> Option<InUse>
    ensures { result ≡ option_map (λ pv. record { pv = pv; by = Group }) left }
{
    Some(InUse {
        pv: left?,
        by: Use::Group,
    })
}
