//! What stands in the header sectors of the metadata areas.
ghost use Rattle.std.specs.Prelude.{◌≡◌, ◌<◌, ◌/◌, [], ◌∷◌, length, slice_index_or, map, All, IfOk, MatchResult};
ghost use Rattle.disk_contents.specs.Contents.{AreAreasFound, IsAreaFound, IsMdaFound};
ghost use Rattle.disk_contents.specs.Standing.{HasTextInside, LiesInside};
ghost use Rattle.mda_header.specs.Header.{IsEntry};
ghost use Rattle.disk_model.specs.Puts.{one_sector};
ghost use Rattle.disk_model.specs.Since.{HoldsOfDisk};
ghost use Rattle.disk_contents.specs.Parts.{ReadsUntil, ReadsWell};
ghost use Rattle.disk_contents.specs.Reads.{area_spans};

use crate::ReadRefusal;
use crate::contents::{AreaFound, AreasFound};
use crate::reading::read_sector;
use disk_model::Shelf;
use mda_header::{read_entry, read_mda};
use pv_header::Extent;
use sector_base::Bytes512;
use std::alloc::Global;

/// Looks at the header sector of each of these metadata areas. What is refused in one doesn't end the look.
pub fn read_areas<S: Shelf>(
    alloc: Global,
    shelf: &mut S,
    disk: u32,
    areas: &[Extent],
) -> Result<AreasFound, ReadRefusal>
    requires idle { (S.state shelf.old).in_flight ≡ [] }
    requires disk { disk < length (S.state shelf.old).sizes }
    requires within { All (λ area. area.offset / 512 < slice_index_or (S.state shelf.old).sizes disk 0) areas.now }
    ensures found { MatchResult result
        (λ all. ReadsWell (S.state shelf.old) (area_spans disk areas.now) (S.state shelf.new) × HoldsOfDisk (S.state shelf.old).told disk (λ sector_at. AreAreasFound sector_at areas.now all))
        (ReadsUntil disk (S.state shelf.old) (area_spans disk areas.now) (S.state shelf.new)) }
    ensures areas { IfOk result (λ all. map (λ found. found.area) all ≡ areas.now) }
    ensures inside { IfOk result (All HasTextInside) }
{
    let mut list = Vec::new(alloc);
    for area in areas {
        let found = read_area(alloc, shelf, disk, *area)?;
        list.push(found)?;
    }
    Ok(AreasFound::from_vec(list))
}

// Looks at the header sector of a metadata area.
fn read_area<S: Shelf>(
    alloc: Global,
    shelf: &mut S,
    disk: u32,
    area: Extent,
) -> Result<AreaFound, ReadRefusal>
    requires idle { (S.state shelf.old).in_flight ≡ [] }
    requires disk { disk < length (S.state shelf.old).sizes }
    requires within { area.offset / 512 < slice_index_or (S.state shelf.old).sizes disk 0 }
    ensures found { MatchResult result
        (λ found. ReadsWell (S.state shelf.old) (one_sector disk (area.offset / 512) ∷ []) (S.state shelf.new) × (found.area ≡ area) × HoldsOfDisk (S.state shelf.old).told disk (λ sector_at. IsAreaFound sector_at found))
        (ReadsUntil disk (S.state shelf.old) (one_sector disk (area.offset / 512) ∷ []) (S.state shelf.new)) }
    ensures inside { IfOk result HasTextInside }
{
    let sector = read_sector(alloc, shelf, disk, area.offset / 512)?;
    Ok(look(&sector, area))
}

// What stands in the header sector of a metadata area, by its contents.
fn look(sector: &Bytes512, area: Extent) -> AreaFound
    ensures area { result.area ≡ area }
    ensures header { IsMdaFound sector.now area result.header }
    ensures entry { IsEntry sector.now area.offset area.size result.entry }
    ensures inside { LiesInside area.size result.entry }
{
    AreaFound {
        area,
        header: read_mda(sector, area.offset, area.size),
        entry: read_entry(sector, area.offset, area.size),
    }
}
