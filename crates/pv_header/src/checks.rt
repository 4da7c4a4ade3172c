//! Whether areas can lie on a disk.
ghost use Rattle.std.specs.Prelude.{◌≡◌, ◌+◌, ◌<◌, ◌≤◌, ◌^◌, ◌++◌, length, drop, All, IfOk, MatchResult, find};
ghost use Rattle.pv_header.specs.Areas.{is_outside, is_misshapen, end_of, shares_byte, first_overlap, CanLie};
ghost use Rattle.pv_header.specs.PvRefusal.{RefusesAreas};

use crate::next_start::find_next_start;
use crate::{Extent, PvRefusal};
use std::alloc::{AllocError, Global};

/// Tests whether these areas can lie on a disk of so many bytes.
pub fn check_areas(
    alloc: Global,
    data_areas: &[Extent],
    areas: &[Extent],
    disk_bytes: u64,
) -> Result<(), PvRefusal>
    ensures { MatchResult result (λ _. CanLie data_areas.now areas.now disk_bytes) (RefusesAreas data_areas.now areas.now disk_bytes) }
{
    let all = joined(alloc, data_areas, areas)?;
    if let Some(area) = find_outside(&all, disk_bytes) {
        return Err(PvRefusal::AreaOutside {
            offset: area.offset,
            size: area.size,
            disk_bytes,
        });
    }
    if let Some(area) = find_misshapen(areas) {
        return Err(PvRefusal::AreaShape {
            offset: area.offset,
            size: area.size,
        });
    }
    match find_overlap(&all, disk_bytes) {
        Some((first, second)) => Err(PvRefusal::AreasOverlap {
            first: first.offset,
            second: second.offset,
        }),
        None => Ok(()),
    }
}

// The areas of both lists.
fn joined(alloc: Global, data_areas: &[Extent], areas: &[Extent]) -> Result<Vec<Extent>, AllocError>
    ensures { IfOk result (λ all. all.items ≡ data_areas.now ++ areas.now) }
{
    let mut all = Vec::from_slice(alloc, data_areas)?;
    all.extend_from_slice(areas)?;
    Ok(all)
}

fn find_outside(areas: &[Extent], disk_bytes: u64) -> Option<Extent>
    ensures { result ≡ find (is_outside disk_bytes) areas.now }
{
    areas
        .iter()
        .copied()
        .find(|area| ends_past(*area, disk_bytes))
}

fn find_misshapen(areas: &[Extent]) -> Option<Extent>
    ensures { result ≡ find is_misshapen areas.now }
{
    areas.iter().copied().find(|area| has_bad_shape(*area))
}

// Whether the area's end is past the disk's.
fn ends_past(area: Extent, disk_bytes: u64) -> bool
    ensures { result ≡ is_outside disk_bytes area }
{
    area.size > disk_bytes || area.offset > disk_bytes - area.size
}

fn has_bad_shape(area: Extent) -> bool
    ensures { result ≡ is_misshapen area }
{
    area.offset % 512 != 0 || area.size % 512 != 0 || area.offset < 2048 || area.size < 1536
}

// The first two of these areas that share a byte.
fn find_overlap(areas: &[Extent], disk_bytes: u64) -> Option<(Extent, Extent)>
    requires { All (λ area. area.offset + area.size < 2 ^ 64) areas.now }
    ensures { result ≡ first_overlap areas.now disk_bytes }
{
    for (i, area) in areas.iter().enumerate() {
        if let Some(other) = find_sharing(areas, disk_bytes, *area, i + 1) {
            return Some((*area, other));
        }
    }
    None
}

// The first of the areas from place `from` on that shares a byte with this one.
fn find_sharing(areas: &[Extent], disk_bytes: u64, area: Extent, from: usize) -> Option<Extent>
    requires fits { All (λ area. area.offset + area.size < 2 ^ 64) areas.now }
    requires own { area.offset + area.size < 2 ^ 64 }
    requires from { from ≤ length areas.now }
    ensures { result ≡ find (shares_byte areas.now disk_bytes area) (drop from areas.now) }
{
    for other in &areas[from..] {
        if share(areas, disk_bytes, area, *other) {
            return Some(*other);
        }
    }
    None
}

// Whether two of the areas share a byte.
fn share(areas: &[Extent], disk_bytes: u64, a: Extent, b: Extent) -> bool
    requires a { a.offset + a.size < 2 ^ 64 }
    requires b { b.offset + b.size < 2 ^ 64 }
    ensures { result ≡ shares_byte areas.now disk_bytes a b }
{
    let end = end_among(areas, disk_bytes, a).min(end_among(areas, disk_bytes, b));
    a.offset.max(b.offset) < end
}

// Where an area of the list counts as ending.
fn end_among(areas: &[Extent], disk_bytes: u64, area: Extent) -> u64
    requires { area.offset + area.size < 2 ^ 64 }
    ensures { result ≡ end_of areas.now disk_bytes area }
{
    if area.size == 0 {
        find_next_start(areas, area.offset, disk_bytes)
    } else {
        area.offset + area.size
    }
}
