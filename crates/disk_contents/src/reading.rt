//! Reads of one disk, where nothing else is in flight.
ghost use Rattle.pv_label.specs.LabelSectors.{first_four, label_span};
ghost use Rattle.std.specs.Prelude.{◌≡◌, ◌≤◌, ◌<◌, ◌+◌, ℕ, [], ◌∷◌, length, slice_index_or, MatchResult};
ghost use Rattle.disk_model.specs.Puts.{one_sector};
ghost use Rattle.disk_model.specs.Since.{HoldsOfDisk};
ghost use Rattle.disk_contents.specs.Parts.{ReadsUntil, ReadsWell};

use crate::ReadRefusal;
use disk_model::{Shelf, read_span};
use pv_label::LABEL_SECTORS;
use sector_base::{Bytes512, Sectors, Span};
use std::alloc::Global;

/// Reads the first four sectors of the disk.
pub fn read_first<S: Shelf>(
    alloc: Global,
    shelf: &mut S,
    disk: u32,
) -> Result<[Bytes512; 4], ReadRefusal>
    requires idle { (S.state shelf.old).in_flight ≡ [] }
    requires disk { disk < length (S.state shelf.old).sizes }
    requires least { 4 ≤ slice_index_or (S.state shelf.old).sizes disk 0 }
    ensures { MatchResult result
        (λ four. ReadsWell (S.state shelf.old) (label_span disk ∷ []) (S.state shelf.new) × HoldsOfDisk (S.state shelf.old).told disk (λ sector_at. four ≡ first_four sector_at))
        (ReadsUntil disk (S.state shelf.old) (label_span disk ∷ []) (S.state shelf.new)) }
{
    let span = Span {
        pv: disk,
        first: 0,
        count: LABEL_SECTORS,
    };
    let sectors = read_sectors(alloc, shelf, span)?;
    Ok([
        sectors.get(0),
        sectors.get(1),
        sectors.get(2),
        sectors.get(3),
    ])
}

/// Reads one sector of the disk.
pub fn read_sector<S: Shelf>(
    alloc: Global,
    shelf: &mut S,
    disk: u32,
    sector: u64,
) -> Result<Bytes512, ReadRefusal>
    requires idle { (S.state shelf.old).in_flight ≡ [] }
    requires disk { disk < length (S.state shelf.old).sizes }
    requires within { sector < slice_index_or (S.state shelf.old).sizes disk 0 }
    ensures { MatchResult result
        (λ contents. ReadsWell (S.state shelf.old) (one_sector disk sector ∷ []) (S.state shelf.new) × HoldsOfDisk (S.state shelf.old).told disk (λ sector_at. contents ≡ sector_at sector))
        (ReadsUntil disk (S.state shelf.old) (one_sector disk sector ∷ []) (S.state shelf.new)) }
{
    let span = Span {
        pv: disk,
        first: sector,
        count: 1,
    };
    let sectors = read_sectors(alloc, shelf, span)?;
    Ok(sectors.get(0))
}

/// Reads the span. Memory is taken first: without it the shelf is as before.
pub fn read_sectors<S: Shelf>(
    alloc: Global,
    shelf: &mut S,
    span: Span,
) -> Result<Sectors, ReadRefusal>
    requires idle { (S.state shelf.old).in_flight ≡ [] }
    requires disk { span.pv < length (S.state shelf.old).sizes }
    requires within { span.first + span.count ≤ slice_index_or (S.state shelf.old).sizes span.pv 0 }
    ensures { MatchResult result
        (λ sectors. ReadsWell (S.state shelf.old) (span ∷ []) (S.state shelf.new) × (length sectors ≡ span.count)
        × HoldsOfDisk (S.state shelf.old).told span.pv (λ sector_at. (k : ℕ) → k < span.count → slice_index_or sectors k [] ≡ sector_at (span.first + k)))
        (ReadsUntil span.pv (S.state shelf.old) (span ∷ []) (S.state shelf.new)) }
{
    let buffer = Sectors::zeroed(alloc, span.count)?;
    read_into(shelf, span, buffer)
}

/// The same into a buffer of as many sectors.
pub fn read_into<S: Shelf>(
    shelf: &mut S,
    span: Span,
    buffer: Sectors,
) -> Result<Sectors, ReadRefusal>
    requires idle { (S.state shelf.old).in_flight ≡ [] }
    requires disk { span.pv < length (S.state shelf.old).sizes }
    requires within { span.first + span.count ≤ slice_index_or (S.state shelf.old).sizes span.pv 0 }
    requires buffer { length buffer ≡ span.count }
    ensures { MatchResult result
        (λ sectors. ReadsWell (S.state shelf.old) (span ∷ []) (S.state shelf.new) × (length sectors ≡ span.count)
        × HoldsOfDisk (S.state shelf.old).told span.pv (λ sector_at. (k : ℕ) → k < span.count → slice_index_or sectors k [] ≡ sector_at (span.first + k)))
        (ReadsUntil span.pv (S.state shelf.old) (span ∷ []) (S.state shelf.new)) }
{
    shelf.reserve(1, u64::from(span.count))?;
    Ok(read_span(shelf, span, buffer)?)
}
