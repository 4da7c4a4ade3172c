//! The signature of one disk, where nothing else is in flight.
ghost use Rattle.std.specs.Prelude.{◌≡◌, ◌<◌, List, [], ◌∷◌, length, slice_index_or, MatchResult};
ghost use Rattle.sector_base.specs.declared.spans.Span.{Span};
ghost use Rattle.disk_model.specs.Puts.{one_sector};
ghost use Rattle.disk_model.specs.Since.{HoldsOfDisk};
ghost use Rattle.disk_contents.specs.Parts.{ReadsUntil, ReadsWell};
ghost use Rattle.disk_signature.specs.Signatures.{first_kind, has_bytes, stands};
ghost use Rattle.disk_signature.specs.Table.{row_of};

use crate::Kind;
use crate::table::{Signature, signatures};
use disk_contents::{ReadRefusal, read_sectors};
use disk_model::Shelf;
use sector_base::{Bytes512, Span};
use std::alloc::Global;

/// What the first signature of the table tells that stands on the disk. A signature whose sector the disk doesn't have
/// doesn't stand. Want of memory and a failed read are the refusals.
pub fn find_signature<S: Shelf>(
    alloc: Global,
    shelf: &mut S,
    disk: u32,
) -> Result<Option<Kind>, ReadRefusal>
    requires idle { (S.state shelf.old).in_flight ≡ [] }
    requires disk { disk < length (S.state shelf.old).sizes }
    ensures { MatchResult result
        (λ found. ((spans : List Span) × ReadsWell (S.state shelf.old) spans (S.state shelf.new))
        × HoldsOfDisk (S.state shelf.old).told disk
        (λ sector_at. found ≡ first_kind sector_at (slice_index_or (S.state shelf.old).sizes disk 0)))
        (λ refusal. (spans : List Span) × ReadsUntil disk (S.state shelf.old) spans (S.state shelf.new) refusal) }
{
    let rows = signatures();
    for row in rows {
        if stands(alloc, shelf, disk, row)? {
            return Ok(Some(row.kind()));
        }
    }
    Ok(None)
}

// Whether the signature stands on the disk.
fn stands<S: Shelf>(
    alloc: Global,
    shelf: &mut S,
    disk: u32,
    row: &Signature,
) -> Result<bool, ReadRefusal>
    requires idle { (S.state shelf.old).in_flight ≡ [] }
    requires disk { disk < length (S.state shelf.old).sizes }
    ensures { MatchResult result
        (λ found. ((spans : List Span) × ReadsWell (S.state shelf.old) spans (S.state shelf.new))
        × HoldsOfDisk (S.state shelf.old).told disk
        (λ sector_at. found ≡ stands sector_at (slice_index_or (S.state shelf.old).sizes disk 0) (row_of row.now)))
        (λ refusal. (spans : List Span) × ReadsUntil disk (S.state shelf.old) spans (S.state shelf.new) refusal) }
{
    match row.1.sector(shelf.sectors(disk)) {
        Some(sector) => {
            let contents = read_sector(alloc, shelf, disk, sector)?;
            Ok(has_bytes(row, &contents))
        }
        None => Ok(false),
    }
}

// Whether the sector has the bytes of the signature where these have to be.
fn has_bytes(row: &Signature, sector: &Bytes512) -> bool
    ensures { result ≡ has_bytes (row_of row.now) sector.now }
{
    sector.as_bytes()[row.1.byte()..].starts_with(row.2)
}

// Reads one sector of the disk.
fn read_sector<S: Shelf>(
    alloc: Global,
    shelf: &mut S,
    disk: u32,
    sector: u64,
) -> Result<Bytes512, ReadRefusal>
    requires idle { (S.state shelf.old).in_flight ≡ [] }
    requires disk { disk < length (S.state shelf.old).sizes }
    requires within { sector < slice_index_or (S.state shelf.old).sizes disk 0 }
    ensures { MatchResult result
        (λ contents. ReadsWell (S.state shelf.old) (one_sector disk sector ∷ []) (S.state shelf.new)
        × HoldsOfDisk (S.state shelf.old).told disk (λ sector_at. contents ≡ sector_at sector))
        (ReadsUntil disk (S.state shelf.old) (one_sector disk sector ∷ []) (S.state shelf.new)) }
{
    let span = Span {
        pv: disk,
        first: sector,
        count: 1,
    };
    let sectors = read_sectors(alloc, shelf, span)?;
    Ok(sectors.get(0))
}
