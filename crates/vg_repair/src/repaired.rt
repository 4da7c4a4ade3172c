//! What is found once a repair is done.
ghost use Rattle.std.specs.Prelude.{◌≡◌, ◌≤◌, ℕ, ◌+◌, [], length, slice_get, unwrap_or, All, IfOk, None, Some};
ghost use Rattle.sector_base.specs.Checksum.{checksum, lvm_crc_start};
ghost use Rattle.mda_ring.specs.Areas.{CanTake, IsArea};
ghost use Rattle.mda_ring.specs.Ring.{need, room};
ghost use Rattle.disk_contents.specs.Standing.{CanStand, HasTextInside, IsUsable, area_on, areas_in};
ghost use Rattle.vg_found.specs.Disks.{areas_on};
ghost use Rattle.vg_found.specs.declared.disk.Disk.{Disk as DiskOf};
ghost use Rattle.vg_found.specs.Shape.{ContentsCanStand, HasShape, IsDisk};
ghost use Rattle.vg_found.specs.Whole.{IsWhole};
ghost use Rattle.vg_commit.specs.Written.{new_entry, stored};
ghost use Rattle.change_batches.specs.Sound.{FitsFields};
ghost use Rattle.vg_repair.specs.Batches.{new_labels};
ghost use Rattle.vg_repair.specs.Putting.{AreaHasRoom, HasRoom, IsSummed, text_put};
ghost use Rattle.vg_repair.specs.Repaired.{repaired_area, repaired_areas, repaired_contents, repaired_disk, repaired_disks, repaired_header, repaired_of, with_entry};
ghost use Rattle.vg_repair.specs.Stale.{too_large};

use crate::stale_set::StaleSet;
use disk_contents::{AreaFound, AreasFound, PvFound};
use group_plan::marked;
use mda_header::{HeaderEntry, Locn, MdaHeader};
use mda_ring::{Area, plan_next};
use pv_header::PvHeader;
use sector_base::{ItemList, LVM_CRC_START, PvSet, Text, crc};
use std::alloc::{AllocError, Global};
use vg_found::{Disk, DiskTable, Found, Whole, held_area, held_areas};

// What is put right: the stale areas, which get the text that was found, the strays, and the old disks. The checksum is that
// of the text as it is stored.
#[derive(Debug, Drop)]
pub(crate) struct Repair<'a> {
    pub(crate) stale: StaleSet<'a>,
    pub(crate) strays: PvSet,
    pub(crate) old: PvSet,
    pub(crate) text: Option<Text>,
    pub(crate) sum: u32,
}

// What is found once all is repaired. Only memory can be wanting.
pub(crate) fn repaired(alloc: Global, found: Found) -> Result<Whole, AllocError>
    requires shape { HasShape found }
    requires whole { IsWhole found }
    requires room { too_large found ≡ None }
    requires fields { All FitsFields (new_labels found) }
    ensures { IfOk result (λ whole. whole ≡ repaired_of found) }
{
    let Found {
        group,
        text,
        unknown,
        disks,
        areas: _,
        stale,
        strays,
        old,
        missing,
        disk_of,
        unread,
    } = found;
    let sum = stored_sum(alloc, bytes_of(&text))?;
    let stale_set = StaleSet::of(alloc, stale.as_slice())?;
    let repair = Repair {
        stale: stale_set,
        strays,
        old,
        text,
        sum,
    };
    let disks = repaired_disks(alloc, disks.into_vec(), &repair)?;
    let areas = held_areas(alloc, &disks)?;
    let Repair { text, .. } = repair;
    let repaired = Found {
        group,
        text,
        unknown,
        disks: DiskTable::from_vec(disks),
        areas,
        stale: ItemList::from_vec(Vec::new(alloc)),
        strays: PvSet::new(),
        old: PvSet::new(),
        missing,
        disk_of,
        unread,
    };
    match repaired.whole() {
        Ok(whole) => Ok(whole),
        Err(_) => unreachable!(),
    }
}

// The bytes of the text; none where there is no text.
fn bytes_of(text: &Option<Text>) -> &[u8]
    ensures { result.now ≡ unwrap_or text.now [] }
{
    match text {
        Some(text) => text.as_bytes(),
        None => &[],
    }
}

// The checksum of a text of these bytes, as it is stored.
fn stored_sum(alloc: Global, bytes: &[u8]) -> Result<u32, AllocError>
    ensures { IfOk result (λ sum. sum ≡ checksum lvm_crc_start (stored bytes.now)) }
{
    let mut all = Vec::with_capacity(alloc, bytes.len() + 1)?;
    all.extend_from_slice(bytes)?;
    all.push(0)?;
    Ok(crc(LVM_CRC_START, &all))
}

// The disks, each as it is found then. They are taken off from the last one on.
fn repaired_disks(
    alloc: Global,
    disks: Vec<Disk>,
    repair: &Repair<'_>,
) -> Result<Vec<Disk>, AllocError>
    requires few { length disks.items ≤ 64 }
    requires each { (pv : ℕ) (disk : DiskOf) → slice_get disks.items pv ≡ Some disk → IsDisk pv disk × HasRoom repair.now pv (areas_on disk.contents) }
    requires sum { IsSummed repair.now }
    ensures { IfOk result (λ all. all.items ≡ repaired_disks repair.now.stale repair.now.strays repair.now.old (text_put repair.now) disks.items) }
{
    let mut rest = disks;
    let mut done = Vec::with_capacity(alloc, rest.len())?;
    while let Some(disk) = rest.pop() {
        done.push(repaired_disk(alloc, rest.len() as u32, disk, repair)?)?;
    }
    done.reverse();
    Ok(done)
}

// One of them.
fn repaired_disk(
    alloc: Global,
    pv: u32,
    disk: Disk,
    repair: &Repair<'_>,
) -> Result<Disk, AllocError>
    requires stands { ContentsCanStand pv disk.sectors disk.contents }
    requires room { HasRoom repair.now pv (areas_on disk.contents) }
    requires sum { IsSummed repair.now }
    ensures { IfOk result (λ new. new ≡ repaired_disk repair.now.stale repair.now.strays repair.now.old (text_put repair.now) (pv, disk)) }
{
    let Disk { sectors, contents } = disk;
    match contents {
        Some(found) => Ok(Disk {
            sectors,
            contents: Some(repaired_contents(alloc, pv, sectors, found, repair)?),
        }),
        None => Ok(Disk {
            sectors,
            contents: None,
        }),
    }
}

// What stands on it.
fn repaired_contents(
    alloc: Global,
    pv: u32,
    sectors: u64,
    found: PvFound,
    repair: &Repair<'_>,
) -> Result<PvFound, AllocError>
    requires stands { CanStand pv sectors found }
    requires room { HasRoom repair.now pv (areas_in found) }
    requires sum { IsSummed repair.now }
    ensures { IfOk result (λ new. new ≡ repaired_contents repair.now.stale repair.now.strays repair.now.old (text_put repair.now) pv found) }
{
    match found {
        PvFound::Whole {
            label,
            header,
            areas,
        } => {
            let areas = repaired_areas(alloc, pv, sectors, areas.as_slice(), repair)?;
            Ok(PvFound::Whole {
                label,
                header: repaired_header(pv, header, repair),
                areas: AreasFound::from_vec(areas),
            })
        }
        PvFound::NoLabel(refusal) => Ok(PvFound::NoLabel(refusal)),
        PvFound::NoHeader { label, refusal } => Ok(PvFound::NoHeader { label, refusal }),
    }
}

// Its header.
fn repaired_header(pv: u32, header: PvHeader, repair: &Repair<'_>) -> PvHeader
    ensures { result ≡ repaired_header repair.now.strays repair.now.old pv header }
{
    if repair.strays.contains(pv) {
        marked(header, false)
    } else if repair.old.contains(pv) {
        marked(header, true)
    } else {
        header
    }
}

// Its metadata areas.
fn repaired_areas(
    alloc: Global,
    pv: u32,
    sectors: u64,
    areas: &[AreaFound],
    repair: &Repair<'_>,
) -> Result<Vec<AreaFound>, AllocError>
    requires usable { All (IsUsable pv sectors) areas.now }
    requires room { HasRoom repair.now pv areas.now }
    requires sum { IsSummed repair.now }
    ensures { IfOk result (λ all. all.items ≡ repaired_areas repair.now.stale repair.now.strays (text_put repair.now) pv areas.now) }
{
    let mut list = Vec::with_capacity(alloc, areas.len())?;
    for (number, found) in areas.iter().enumerate() {
        list.push(repaired_area(pv, number, found, repair))?;
    }
    Ok(list)
}

// One of them.
fn repaired_area(pv: u32, number: usize, found: &AreaFound, repair: &Repair<'_>) -> AreaFound
    requires area { IsArea (area_on pv found.now.area) }
    requires text { HasTextInside found.now }
    requires room { AreaHasRoom repair.now pv (number, found.now) }
    requires sum { IsSummed repair.now }
    ensures { result ≡ repaired_area repair.now.stale repair.now.strays (text_put repair.now) pv (number, found.now) }
{
    let Some((area, committed)) = held_area(pv, found) else {
        return *found;
    };
    if repair.strays.contains(pv) {
        return with_entry(found, None);
    }
    if repair.stale.contains(pv, number) {
        return with_entry(found, Some(new_entry(&area, committed, repair)));
    }
    *found
}

// The entry of the text in this area, which has room for it.
fn new_entry(area: &Area, committed: Option<Locn>, repair: &Repair<'_>) -> Locn
    requires take { CanTake (area.now, committed) }
    requires room { need (length (text_put repair.now) + 1) ≤ room area.now.size committed }
    requires sum { IsSummed repair.now }
    ensures { result ≡ new_entry (text_put repair.now) (area.now, committed) }
{
    let size = bytes_of(&repair.text).len() as u64 + 1;
    match plan_next(area, committed, size) {
        Ok(place) => Locn {
            offset: place.offset,
            size,
            sum: repair.sum,
        },
        Err(_) => unreachable!(),
    }
}

// The area with a header in which this is committed.
fn with_entry(found: &AreaFound, committed: Option<Locn>) -> AreaFound
    ensures { result ≡ with_entry found.now committed }
{
    AreaFound {
        area: found.area,
        header: Ok(MdaHeader {
            start: found.area.offset,
            size: found.area.size,
            committed,
            precommitted: None,
            ignored: false,
        }),
        entry: match committed {
            Some(locn) => HeaderEntry::Text(locn),
            None => HeaderEntry::Nothing,
        },
    }
}
