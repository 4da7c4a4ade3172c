//! What a disk itself shows of its use.
ghost use Rattle.std.specs.Prelude.{◌≡◌, ◌≤◌, ◌<◌, ◌^◌, [], length, slice_index_or, true, MatchResult};
ghost use Rattle.disk_model.specs.Faults.{HasSameFaults};
ghost use Rattle.disk_model.specs.Since.{HoldsOfDisk};
ghost use Rattle.disk_contents.specs.Contents.{IsFound};
ghost use Rattle.disk_signature.specs.Signatures.{first_kind};
ghost use Rattle.vg_scan.specs.Scans.{HoldsNow};
ghost use Rattle.disk_use.specs.Faults.{IsUseFault};
ghost use Rattle.disk_use.specs.LookedAt.{IsShown, IsShownWith, LooksOnly, is_wanted, shown_by, shown_of};
ghost use Rattle.disk_use.specs.Uses.{is_marked};

use crate::UseRefusal;
use crate::in_use::{Shown, Use};
use disk_contents::{PvFound, find_pv};
use disk_model::Shelf;
use disk_signature::{Kind, find_signature};
use pv_header::PvHeader;
use std::alloc::Global;

// Looks at the disk.
pub(crate) fn look<S: Shelf>(
    alloc: Global,
    shelf: &mut S,
    disk: u32,
    new: bool,
) -> Result<Shown, UseRefusal>
    requires idle { (S.state shelf.old).in_flight ≡ [] }
    requires disk { disk < length (S.state shelf.old).sizes }
    requires least { 8 ≤ slice_index_or (S.state shelf.old).sizes disk 0 }
    requires most { slice_index_or (S.state shelf.old).sizes disk 0 ≤ 2 ^ 40 }
    ensures cause { MatchResult result
        (λ shown. HasSameFaults (S.state shelf.old) (S.state shelf.new)
        × HoldsNow (S.state shelf.old).told (λ image. IsShown new image (S.state shelf.old).sizes disk shown))
        (IsUseFault (S.state shelf.old) (S.state shelf.new)) }
    ensures looks { LooksOnly (S.state shelf.old) (S.state shelf.new) }
{
    let contents = contents_of(alloc, shelf, disk)?;
    look_behind(alloc, shelf, disk, new, &contents)
}

// What a disk with these contents shows. Its first signature is looked for where it has no label and a physical volume is
// to be made of it.
fn look_behind<S: Shelf>(
    alloc: Global,
    shelf: &mut S,
    disk: u32,
    new: bool,
    contents: &PvFound,
) -> Result<Shown, UseRefusal>
    requires idle { (S.state shelf.old).in_flight ≡ [] }
    requires disk { disk < length (S.state shelf.old).sizes }
    requires most { slice_index_or (S.state shelf.old).sizes disk 0 ≤ 2 ^ 40 }
    ensures cause { MatchResult result
        (λ shown. HasSameFaults (S.state shelf.old) (S.state shelf.new)
        × HoldsNow (S.state shelf.old).told (λ image. IsShownWith new image (S.state shelf.old).sizes disk contents.now shown))
        (IsUseFault (S.state shelf.old) (S.state shelf.new)) }
    ensures looks { LooksOnly (S.state shelf.old) (S.state shelf.new) }
{
    let kind = kind_of(alloc, shelf, disk, is_wanted(new, contents))?;
    Ok(shown_of(new, contents, kind))
}

// What stands in lvm2's sectors of the disk.
fn contents_of<S: Shelf>(alloc: Global, shelf: &mut S, disk: u32) -> Result<PvFound, UseRefusal>
    requires idle { (S.state shelf.old).in_flight ≡ [] }
    requires disk { disk < length (S.state shelf.old).sizes }
    requires least { 8 ≤ slice_index_or (S.state shelf.old).sizes disk 0 }
    requires most { slice_index_or (S.state shelf.old).sizes disk 0 ≤ 2 ^ 40 }
    ensures cause { MatchResult result
        (λ contents. HasSameFaults (S.state shelf.old) (S.state shelf.new)
        × HoldsOfDisk (S.state shelf.old).told disk
        (λ sector_at. IsFound sector_at (slice_index_or (S.state shelf.old).sizes disk 0) contents))
        (IsUseFault (S.state shelf.old) (S.state shelf.new)) }
    ensures looks { LooksOnly (S.state shelf.old) (S.state shelf.new) }
{
    Ok(find_pv(alloc, shelf, disk)?)
}

// The first signature of the disk, where it is wanted.
fn kind_of<S: Shelf>(
    alloc: Global,
    shelf: &mut S,
    disk: u32,
    wanted: bool,
) -> Result<Option<Kind>, UseRefusal>
    requires idle { (S.state shelf.old).in_flight ≡ [] }
    requires disk { disk < length (S.state shelf.old).sizes }
    requires most { slice_index_or (S.state shelf.old).sizes disk 0 ≤ 2 ^ 40 }
    ensures cause { MatchResult result
        (λ kind. HasSameFaults (S.state shelf.old) (S.state shelf.new)
        × (wanted ≡ true → HoldsOfDisk (S.state shelf.old).told disk
        (λ sector_at. kind ≡ first_kind sector_at (slice_index_or (S.state shelf.old).sizes disk 0))))
        (IsUseFault (S.state shelf.old) (S.state shelf.new)) }
    ensures looks { LooksOnly (S.state shelf.old) (S.state shelf.new) }
{
    if !wanted {
        return Ok(None);
    }
    Ok(find_signature(alloc, shelf, disk)?)
}

// Whether its first signature is looked for.
fn is_wanted(new: bool, contents: &PvFound) -> bool
    ensures { result ≡ is_wanted new contents.now }
{
    new && matches!(contents, PvFound::NoLabel(_))
}

// What the disk itself shows, by what stands there, and its first signature where it has no label.
fn shown_of(new: bool, contents: &PvFound, kind: Option<Kind>) -> Shown
    ensures { result ≡ shown_of new contents.now kind }
{
    match contents {
        PvFound::NoLabel(_) if new => shown_by(kind),
        PvFound::NoHeader { .. } if new => Shown::Used(Use::Header),
        PvFound::Whole { header, .. } if is_marked(header) => Shown::Marked,
        _ => Shown::Free,
    }
}

// What the first signature shows.
fn shown_by(kind: Option<Kind>) -> Shown
    ensures { result ≡ shown_by kind }
{
    match kind {
        Some(kind) => Shown::Used(Use::Signature(kind)),
        None => Shown::Free,
    }
}

// Whether the label says that a group uses the disk.
pub(crate) fn is_marked(header: &PvHeader) -> bool
    ensures { result ≡ is_marked header.now }
{
    header.flags % 2 == 1
}
