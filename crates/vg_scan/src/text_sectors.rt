//! The sectors of a text, read from its area.
ghost use Rattle.std.specs.Prelude.{◌≡◌, ◌≤◌, ◌<◌, ◌+◌, ◌*◌, ◌/◌, ◌++◌, [], length, slice_index_or, IfOk, MatchResult};
ghost use Rattle.disk_model.specs.Since.{HoldsOfDisk};
ghost use Rattle.mda_header.specs.Header.{IsInside};
ghost use Rattle.mda_ring.specs.Areas.{IsArea};
ghost use Rattle.mda_ring.specs.Ring.{touched_count};
ghost use Rattle.disk_contents.specs.Parts.{ReadsUntil, ReadsWell};
ghost use Rattle.vg_scan.specs.Texts.{AreTextSectors, text_spans};

use disk_contents::{ReadRefusal, read_into, read_sectors};
use disk_model::Shelf;
use mda_header::Locn;
use mda_ring::{Area, spans};
use sector_base::Sectors;
use std::alloc::{AllocError, Global};

// The most bytes of a text that is read.
const MOST_BYTES: u64 = 1_099_511_627_776;

// Reads the sectors that the entry's text touches, its spans in their order, into this buffer where that is large enough. A text
// of more than 2^40 bytes is want of memory.
pub(crate) fn read_text_sectors<S: Shelf>(
    alloc: Global,
    shelf: &mut S,
    area: &Area,
    locn: Locn,
    buffer: Sectors,
) -> Result<Sectors, ReadRefusal>
    requires idle { (S.state shelf.old).in_flight ≡ [] }
    requires disk { area.now.pv < length (S.state shelf.old).sizes }
    requires area { IsArea area.now }
    requires within { area.now.start + area.now.size ≤ slice_index_or (S.state shelf.old).sizes area.now.pv 0 * 512 }
    requires entry { IsInside area.now.size locn }
    ensures read { MatchResult result
        (λ sectors. ReadsWell (S.state shelf.old) (text_spans area.now locn) (S.state shelf.new)
        × HoldsOfDisk (S.state shelf.old).told area.now.pv
        (λ sector_at. AreTextSectors sector_at area.now locn sectors))
        (ReadsUntil area.now.pv (S.state shelf.old) (text_spans area.now locn) (S.state shelf.new)) }
    ensures count { IfOk result (λ sectors. length sectors ≡ touched_count area.now.size locn.offset locn.size) }
{
    if locn.size > MOST_BYTES {
        return Err(ReadRefusal::NoMemory);
    }
    read_ring(alloc, shelf, area, locn, buffer)
}

// Reads the sectors that the text of an entry touches that isn't huge.
fn read_ring<S: Shelf>(
    alloc: Global,
    shelf: &mut S,
    area: &Area,
    locn: Locn,
    buffer: Sectors,
) -> Result<Sectors, ReadRefusal>
    requires idle { (S.state shelf.old).in_flight ≡ [] }
    requires disk { area.now.pv < length (S.state shelf.old).sizes }
    requires area { IsArea area.now }
    requires within { area.now.start + area.now.size ≤ slice_index_or (S.state shelf.old).sizes area.now.pv 0 * 512 }
    requires entry { IsInside area.now.size locn }
    requires not_huge { locn.size ≤ MOST_BYTES }
    ensures read { MatchResult result
        (λ sectors. ReadsWell (S.state shelf.old) (text_spans area.now locn) (S.state shelf.new)
        × HoldsOfDisk (S.state shelf.old).told area.now.pv
        (λ sector_at. AreTextSectors sector_at area.now locn sectors))
        (ReadsUntil area.now.pv (S.state shelf.old) (text_spans area.now locn) (S.state shelf.new)) }
    ensures count { IfOk result (λ sectors. length sectors ≡ touched_count area.now.size locn.offset locn.size) }
{
    let (first, rest) = spans(area, locn.offset, locn.size);
    let buffer = sized(alloc, buffer, first.count)?;
    let sectors = read_into(shelf, first, buffer)?;
    match rest {
        None => Ok(sectors),
        Some(rest) => {
            let more = read_sectors(alloc, shelf, rest)?;
            Ok(joined(sectors, more)?)
        }
    }
}

// So many sectors: the first of the buffer, where it has as many.
fn sized(alloc: Global, buffer: Sectors, count: u32) -> Result<Sectors, AllocError>
    ensures { IfOk result (λ sized. length sized ≡ count) }
{
    let mut list = buffer.into_vec();
    if list.len() < count as usize {
        drop(list);
        return Sectors::zeroed(alloc, count);
    }
    list.truncate(count as usize);
    Ok(Sectors::from_vec(list))
}

// The sectors of both.
fn joined(first: Sectors, more: Sectors) -> Result<Sectors, AllocError>
    ensures { IfOk result (λ all. all ≡ first ++ more) }
{
    let mut all = first.into_vec();
    let mut rest = more.into_vec();
    all.append(&mut rest)?;
    Ok(Sectors::from_vec(all))
}
