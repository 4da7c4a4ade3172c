//! What a metadata area gives.
ghost use Rattle.std.specs.Prelude.{◌≡◌, ◌≤◌, ◌<◌, ◌+◌, ◌*◌, ◌/◌, [], length, slice_index_or, map, option_map};
ghost use Rattle.std.specs.Prelude.{All, IfOk, MatchResult};
ghost use Rattle.disk_model.specs.Since.{HoldsOfDisk};
ghost use Rattle.disk_contents.specs.declared.read_refusal.ReadRefusal.TheVariants.{NoMemory};
ghost use Rattle.disk_contents.specs.Parts.{ReadsUntil, ReadsWell};
ghost use Rattle.disk_contents.specs.Standing.{IsUsable, LiesInside};
ghost use Rattle.mda_header.specs.Header.{IsInside};
ghost use Rattle.mda_ring.specs.Areas.{IsArea};
ghost use Rattle.mda_ring.specs.Ring.{touched_count};
ghost use Rattle.mda_ring.specs.Texts.{taken_bytes};
ghost use Rattle.scan_rules.specs.Readings.{GivesAtMost, GivesOneOf, area_of, gives_of};
ghost use Rattle.vg_scan.specs.Collected.{Continues};
ghost use Rattle.vg_scan.specs.Readings.{AreAreaReadings, IsAreaReading, IsGiven};
ghost use Rattle.vg_scan.specs.Shapes.{AreasGiveAtMost, HasPlace, HavePlaces};
ghost use Rattle.vg_scan.specs.TextReads.{entry_spans, spans_in, text_spans_in};
ghost use Rattle.vg_scan.specs.Texts.{IsStored, stored_bytes, text_spans};

use crate::collected::Collected;
use crate::judge::judge;
use crate::text_sectors::read_text_sectors;
use disk_contents::{AreaFound, ReadRefusal};
use disk_model::Shelf;
use mda_header::{HeaderEntry, Locn};
use mda_ring::{Area, gather_bytes};
use scan_rules::{AreaGives, AreaRead, CopyRefusal};
use sector_base::Sectors;
use std::alloc::Global;

// What each of these areas gives, in their order. The committed text of each that isn't ignored is read, and new copies
// are taken in.
pub(crate) fn read_areas<S: Shelf>(
    alloc: Global,
    shelf: &mut S,
    disk: u32,
    areas: &[AreaFound],
    collected: &mut Collected,
) -> Result<Vec<AreaRead>, ReadRefusal>
    requires idle { (S.state shelf.old).in_flight ≡ [] }
    requires disk { disk < length (S.state shelf.old).sizes }
    requires usable { All (IsUsable disk (slice_index_or (S.state shelf.old).sizes disk 0)) areas.now }
    ensures reads { MatchResult result
        (λ _. ReadsWell (S.state shelf.old) (text_spans_in disk areas.now) (S.state shelf.new))
        (ReadsUntil disk (S.state shelf.old) (text_spans_in disk areas.now) (S.state shelf.new)) }
    ensures given { IfOk result (λ all. HoldsOfDisk (S.state shelf.old).told disk
        (λ sector_at. AreAreaReadings disk sector_at areas.now (map (area_of collected.new.copies) all.items))) }
    ensures places { IfOk result (λ all. HavePlaces areas.now (map (area_of collected.new.copies) all.items)) }
    ensures numbers { IfOk result (λ all. AreasGiveAtMost (length collected.new.copies) all.items) }
    ensures continues { Continues collected.old.copies collected.new.copies }
    ensures disks { collected.new.disks ≡ collected.old.disks }
{
    let mut all = Vec::new(alloc);
    for found in areas {
        let area = read_area(alloc, shelf, disk, found, collected)?;
        all.push(area)?;
    }
    Ok(all)
}

// What the area gives.
fn read_area<S: Shelf>(
    alloc: Global,
    shelf: &mut S,
    disk: u32,
    found: &AreaFound,
    collected: &mut Collected,
) -> Result<AreaRead, ReadRefusal>
    requires idle { (S.state shelf.old).in_flight ≡ [] }
    requires disk { disk < length (S.state shelf.old).sizes }
    requires usable { IsUsable disk (slice_index_or (S.state shelf.old).sizes disk 0) found.now }
    ensures reads { MatchResult result
        (λ _. ReadsWell (S.state shelf.old) (spans_in disk found.now) (S.state shelf.new))
        (ReadsUntil disk (S.state shelf.old) (spans_in disk found.now) (S.state shelf.new)) }
    ensures given { IfOk result (λ area. HoldsOfDisk (S.state shelf.old).told disk
        (λ sector_at. IsAreaReading disk sector_at found.now (area_of collected.new.copies area))) }
    ensures place { IfOk result (λ area. HasPlace found.now (area_of collected.new.copies area)) }
    ensures numbers { IfOk result (λ area. GivesAtMost (length collected.new.copies) area.gives) }
    ensures continues { Continues collected.old.copies collected.new.copies }
    ensures disks { collected.new.disks ≡ collected.old.disks }
{
    let area = Area {
        pv: disk,
        start: found.area.offset,
        size: found.area.size,
    };
    let gives = read_entry(alloc, shelf, &area, found.entry, collected)?;
    Ok(AreaRead {
        start: found.area.offset / 512,
        sectors: found.area.size / 512,
        gives,
    })
}

// What the area gives, by what its header sector says of the committed text.
fn read_entry<S: Shelf>(
    alloc: Global,
    shelf: &mut S,
    area: &Area,
    entry: HeaderEntry,
    collected: &mut Collected,
) -> Result<Option<AreaGives>, ReadRefusal>
    requires idle { (S.state shelf.old).in_flight ≡ [] }
    requires disk { area.now.pv < length (S.state shelf.old).sizes }
    requires area { IsArea area.now }
    requires within { area.now.start + area.now.size ≤ slice_index_or (S.state shelf.old).sizes area.now.pv 0 * 512 }
    requires inside { LiesInside area.now.size entry }
    ensures reads { MatchResult result
        (λ _. ReadsWell (S.state shelf.old) (entry_spans area.now entry) (S.state shelf.new))
        (ReadsUntil area.now.pv (S.state shelf.old) (entry_spans area.now entry) (S.state shelf.new)) }
    ensures given { IfOk result (λ gives. HoldsOfDisk (S.state shelf.old).told area.now.pv
        (λ sector_at. IsGiven sector_at area.now entry (option_map (gives_of collected.new.copies) gives))) }
    ensures numbers { IfOk result (GivesAtMost (length collected.new.copies)) }
    ensures continues { Continues collected.old.copies collected.new.copies }
    ensures disks { collected.new.disks ≡ collected.old.disks }
{
    match entry {
        HeaderEntry::Ignored => Ok(None),
        HeaderEntry::Nothing => Ok(Some(AreaGives::Nothing)),
        HeaderEntry::Text(locn) => Ok(Some(read_text(alloc, shelf, area, locn, collected)?)),
        HeaderEntry::Refused(refusal) => Ok(Some(AreaGives::Refused(CopyRefusal::HeaderRefused(
            refusal,
        )))),
    }
}

// What the committed text of the area gives.
fn read_text<S: Shelf>(
    alloc: Global,
    shelf: &mut S,
    area: &Area,
    locn: Locn,
    collected: &mut Collected,
) -> Result<AreaGives, ReadRefusal>
    requires idle { (S.state shelf.old).in_flight ≡ [] }
    requires disk { area.now.pv < length (S.state shelf.old).sizes }
    requires area { IsArea area.now }
    requires within { area.now.start + area.now.size ≤ slice_index_or (S.state shelf.old).sizes area.now.pv 0 * 512 }
    requires entry { IsInside area.now.size locn }
    ensures reads { MatchResult result
        (λ _. ReadsWell (S.state shelf.old) (text_spans area.now locn) (S.state shelf.new))
        (ReadsUntil area.now.pv (S.state shelf.old) (text_spans area.now locn) (S.state shelf.new)) }
    ensures given { IfOk result (λ gives. HoldsOfDisk (S.state shelf.old).told area.now.pv
        (λ sector_at. IsStored locn (stored_bytes sector_at area.now locn) (gives_of collected.new.copies gives))) }
    ensures numbers { IfOk result (GivesOneOf (length collected.new.copies)) }
    ensures continues { Continues collected.old.copies collected.new.copies }
    ensures disks { collected.new.disks ≡ collected.old.disks }
{
    let buffer = collected.take_buffer(alloc);
    let sectors = read_text_sectors(alloc, shelf, area, locn, buffer)?;
    let gives = take_text(alloc, area, locn, &sectors, collected);
    collected.keep_buffer(sectors);
    gives
}

// What these sectors of the entry's spans give. A text that they are known to store is neither gathered, summed nor parsed again.
fn take_text(
    alloc: Global,
    area: &Area,
    locn: Locn,
    sectors: &Sectors,
    collected: &mut Collected,
) -> Result<AreaGives, ReadRefusal>
    requires area { IsArea area.now }
    requires entry { IsInside area.now.size locn }
    requires sectors { length sectors.now ≡ touched_count area.now.size locn.offset locn.size }
    ensures given { MatchResult result
        (λ gives. IsStored locn (taken_bytes locn sectors.now) (gives_of collected.new.copies gives))
        (λ refusal. refusal ≡ NoMemory) }
    ensures numbers { IfOk result (GivesOneOf (length collected.new.copies)) }
    ensures continues { Continues collected.old.copies collected.new.copies }
    ensures disks { collected.new.disks ≡ collected.old.disks }
{
    if let Some(number) = collected.find(area, locn, sectors) {
        return Ok(AreaGives::Copy(number));
    }
    let bytes = gather_bytes(alloc, area, locn, sectors)?;
    match judge(alloc, locn, bytes)? {
        Ok(copy) => Ok(AreaGives::Copy(collected.push_copy(locn, copy)?)),
        Err(refusal) => Ok(AreaGives::Refused(refusal)),
    }
}
