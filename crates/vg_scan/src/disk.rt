//! What one disk holds.
ghost use Rattle.std.specs.Prelude.{◌≡◌, ◌≤◌, ◌<◌, ◌^◌, [], length, slice_index_or, Some, IfOk, MatchResult};
ghost use Rattle.disk_model.specs.Faults.{HasSameFaults};
ghost use Rattle.disk_model.specs.Idle.{IsIdleAgain};
ghost use Rattle.disk_model.specs.Since.{BetweenRecords, HoldsOfDisk};
ghost use Rattle.disk_contents.specs.Causes.{IsReadCause};
ghost use Rattle.disk_contents.specs.Standing.{CanStand, areas_in};
ghost use Rattle.disk_contents.specs.Parts.{ReadsUntil, ReadsWell};
ghost use Rattle.scan_rules.specs.Readings.{AreasAreOf};
ghost use Rattle.vg_scan.specs.Collected.{Continues};
ghost use Rattle.vg_scan.specs.Disks.{HasItsShape, IsDiskRead, ReadsDisk, pv_read};
ghost use Rattle.vg_scan.specs.Readings.{IsPvReading};
ghost use Rattle.vg_scan.specs.TextReads.{text_spans_in};

use crate::area::read_areas;
use crate::collected::Collected;
use disk_contents::{PvFound, ReadRefusal, find_pv};
use disk_model::Shelf;
use scan_rules::PvRead;
use sector_base::ItemList;
use std::alloc::Global;

// Reads what the disk holds: lvm2's sectors of it, and the committed text of each area that isn't ignored. New copies
// are taken in.
pub(crate) fn read_disk<S: Shelf>(
    alloc: Global,
    shelf: &mut S,
    number: u32,
    collected: &mut Collected,
) -> Result<(PvFound, Option<PvRead>), ReadRefusal>
    requires idle { (S.state shelf.old).in_flight ≡ [] }
    requires disk { number < length (S.state shelf.old).sizes }
    requires least { 8 ≤ slice_index_or (S.state shelf.old).sizes number 0 }
    requires most { slice_index_or (S.state shelf.old).sizes number 0 ≤ 2 ^ 40 }
    ensures read { IfOk result (λ disk. HoldsOfDisk (S.state shelf.old).told number
        (λ sector_at. IsDiskRead number sector_at (slice_index_or (S.state shelf.old).sizes number 0) disk.0
        (pv_read collected.new.copies disk.1))) }
    // Whatever the shelf tells.
    ensures stands { IfOk result (λ disk. CanStand number (slice_index_or (S.state shelf.old).sizes number 0) disk.0) }
    ensures shape { IfOk result (λ disk. HasItsShape disk.0 (pv_read collected.new.copies disk.1)) }
    ensures numbers { IfOk result (λ disk. AreasAreOf (length collected.new.copies) disk.1) }
    ensures continues { Continues collected.old.copies collected.new.copies }
    ensures disks { collected.new.disks ≡ collected.old.disks }
    // What it does to the disks.
    ensures reads { BetweenRecords (ReadsDisk number (slice_index_or (S.state shelf.old).sizes number 0))
        (S.state shelf.old).told (S.state shelf.new).told }
    ensures again { IsIdleAgain (S.state shelf.old) (S.state shelf.new) }
    ensures cause { MatchResult result
        (λ _. HasSameFaults (S.state shelf.old) (S.state shelf.new))
        (IsReadCause number (S.state shelf.old) (S.state shelf.new)) }
{
    let contents = find_pv(alloc, shelf, number)?;
    let read = read_found(alloc, shelf, number, &contents, collected)?;
    Ok((contents, read))
}

// The physical volume that was found on the disk, with what its areas give.
fn read_found<S: Shelf>(
    alloc: Global,
    shelf: &mut S,
    disk: u32,
    contents: &PvFound,
    collected: &mut Collected,
) -> Result<Option<PvRead>, ReadRefusal>
    requires idle { (S.state shelf.old).in_flight ≡ [] }
    requires disk { disk < length (S.state shelf.old).sizes }
    requires stands { CanStand disk (slice_index_or (S.state shelf.old).sizes disk 0) contents.now }
    ensures reads { MatchResult result
        (λ _. ReadsWell (S.state shelf.old) (text_spans_in disk (areas_in contents.now)) (S.state shelf.new))
        (ReadsUntil disk (S.state shelf.old) (text_spans_in disk (areas_in contents.now)) (S.state shelf.new)) }
    ensures read { IfOk result (λ read. HoldsOfDisk (S.state shelf.old).told disk
        (λ sector_at. IsPvReading disk sector_at (Some contents.now) (pv_read collected.new.copies read))) }
    ensures shape { IfOk result (λ read. HasItsShape contents.now (pv_read collected.new.copies read)) }
    ensures numbers { IfOk result (AreasAreOf (length collected.new.copies)) }
    ensures continues { Continues collected.old.copies collected.new.copies }
    ensures disks { collected.new.disks ≡ collected.old.disks }
{
    match contents {
        PvFound::NoLabel(_) | PvFound::NoHeader { .. } => Ok(None),
        PvFound::Whole { header, areas, .. } => {
            let areas = read_areas(alloc, shelf, disk, areas.as_slice(), collected)?;
            Ok(Some(PvRead {
                id: header.id,
                areas: ItemList::from_vec(areas),
            }))
        }
    }
}
