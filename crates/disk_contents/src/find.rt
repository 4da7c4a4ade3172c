//! What stands on a disk.
ghost use Rattle.pv_label.specs.LabelSectors.{first_four, label_span};
ghost use Rattle.std.specs.Prelude.{◌≡◌, ◌≤◌, ◌<◌, ◌*◌, ◌^◌, ℕ, List, [], ◌∷◌, length, slice_index_or, All, IfOk, MatchResult};
ghost use Rattle.pv_header.specs.Areas.{CanLie};
ghost use Rattle.pv_header.specs.PvRefusal.{Reads};
ghost use Rattle.pv_label.specs.Label.{IsFirstLabel};
ghost use Rattle.disk_contents.specs.Contents.{IsFound};
ghost use Rattle.disk_contents.specs.Standing.{CanStand};
ghost use Rattle.disk_model.specs.Since.{HoldsOfDisk};
ghost use Rattle.disk_contents.specs.Parts.{ReadsAreasUntil, ReadsWell};
ghost use Rattle.disk_contents.specs.Reads.{area_spans, areas_found};

use crate::ReadRefusal;
use crate::area_headers::read_areas;
use crate::contents::PvFound;
use crate::reading::read_first;
use disk_model::Shelf;
use pv_header::{PvHeader, PvRefusal, read_pv};
use pv_label::read_label;
use sector_base::Bytes512;
use std::alloc::Global;

/// Finds what stands in lvm2's sectors of the disk.
pub fn find_pv<S: Shelf>(alloc: Global, shelf: &mut S, disk: u32) -> Result<PvFound, ReadRefusal>
    requires idle { (S.state shelf.old).in_flight ≡ [] }
    requires disk { disk < length (S.state shelf.old).sizes }
    requires least { 8 ≤ slice_index_or (S.state shelf.old).sizes disk 0 }
    requires most { slice_index_or (S.state shelf.old).sizes disk 0 ≤ 2 ^ 40 }
    ensures found { MatchResult result
        (λ found. ReadsWell (S.state shelf.old) (label_span disk ∷ area_spans disk (areas_found found)) (S.state shelf.new)
        × HoldsOfDisk (S.state shelf.old).told disk (λ sector_at. IsFound sector_at (slice_index_or (S.state shelf.old).sizes disk 0) found))
        (ReadsAreasUntil disk (slice_index_or (S.state shelf.old).sizes disk 0) (S.state shelf.old) (λ areas. label_span disk ∷ area_spans disk areas) (S.state shelf.new)) }
    // What is found can stand there, whatever the shelf tells.
    ensures stands { IfOk result (CanStand disk (slice_index_or (S.state shelf.old).sizes disk 0)) }
{
    let first = read_first(alloc, shelf, disk)?;
    match read_label(&first) {
        Ok(found) => {
            let sector = label_sector(&first, found.sector);
            find_header(alloc, shelf, disk, found.sector, &sector)
        }
        Err(refusal) => Ok(PvFound::NoLabel(refusal)),
    }
}

// The sector of this number among the first four.
fn label_sector(first: &[Bytes512; 4], number: u32) -> Bytes512
    requires { number < 4 }
    ensures { result ≡ slice_index_or first.now number [] }
{
    first[number as usize]
}

// Finds what stands on the disk whose label is in the sector of this number, with these contents.
fn find_header<S: Shelf>(
    alloc: Global,
    shelf: &mut S,
    number: u32,
    label: u32,
    sector: &Bytes512,
) -> Result<PvFound, ReadRefusal>
    requires idle { (S.state shelf.old).in_flight ≡ [] }
    requires disk { number < length (S.state shelf.old).sizes }
    requires most { slice_index_or (S.state shelf.old).sizes number 0 ≤ 2 ^ 40 }
    requires among { label < 4 }
    requires label { HoldsOfDisk (S.state shelf.old).told number (λ sector_at. IsFirstLabel (first_four sector_at) label) }
    requires sector { HoldsOfDisk (S.state shelf.old).told number (λ sector_at. sector.now ≡ sector_at label) }
    ensures found { MatchResult result
        (λ found. ReadsWell (S.state shelf.old) (area_spans number (areas_found found)) (S.state shelf.new)
        × HoldsOfDisk (S.state shelf.old).told number (λ sector_at. IsFound sector_at (slice_index_or (S.state shelf.old).sizes number 0) found))
        (ReadsAreasUntil number (slice_index_or (S.state shelf.old).sizes number 0) (S.state shelf.old) (area_spans number) (S.state shelf.new)) }
    ensures stands { IfOk result (CanStand number (slice_index_or (S.state shelf.old).sizes number 0)) }
{
    let disk = shelf.sectors(number);
    match read_pv(alloc, sector, disk) {
        Ok(header) => find_areas(alloc, shelf, number, label, header),
        Err(PvRefusal::NoMemory) => Err(ReadRefusal::NoMemory),
        Err(refusal) => Ok(PvFound::NoHeader { label, refusal }),
    }
}

// Finds what stands on the disk with this header in the sector of its label.
fn find_areas<S: Shelf>(
    alloc: Global,
    shelf: &mut S,
    disk: u32,
    label: u32,
    header: PvHeader,
) -> Result<PvFound, ReadRefusal>
    requires idle { (S.state shelf.old).in_flight ≡ [] }
    requires disk { disk < length (S.state shelf.old).sizes }
    requires most { slice_index_or (S.state shelf.old).sizes disk 0 ≤ 2 ^ 40 }
    requires among { label < 4 }
    requires read { (sector : List ℕ) × Reads sector (slice_index_or (S.state shelf.old).sizes disk 0 * 512) header }
    requires lie { CanLie header.data_areas header.areas (slice_index_or (S.state shelf.old).sizes disk 0 * 512) }
    requires label { HoldsOfDisk (S.state shelf.old).told disk (λ sector_at. IsFirstLabel (first_four sector_at) label) }
    requires header { HoldsOfDisk (S.state shelf.old).told disk (λ sector_at. Reads (sector_at label) (slice_index_or (S.state shelf.old).sizes disk 0 * 512) header) }
    ensures found { MatchResult result
        (λ found. ReadsWell (S.state shelf.old) (area_spans disk (areas_found found)) (S.state shelf.new)
        × HoldsOfDisk (S.state shelf.old).told disk (λ sector_at. IsFound sector_at (slice_index_or (S.state shelf.old).sizes disk 0) found))
        (ReadsAreasUntil disk (slice_index_or (S.state shelf.old).sizes disk 0) (S.state shelf.old) (area_spans disk) (S.state shelf.new)) }
    ensures stands { IfOk result (CanStand disk (slice_index_or (S.state shelf.old).sizes disk 0)) }
{
    let areas = read_areas(alloc, shelf, disk, header.areas.as_slice())?;
    Ok(PvFound::Whole {
        label,
        header,
        areas,
    })
}
