//! Reading a header.
ghost use Rattle.std.specs.Prelude.{◌≡◌, ◌≤◌, ◌+◌, ◌*◌, ◌^◌, ◌⊎◌, MatchResult, slice_range};
ghost use Rattle.lvm_id.specs.LvmId.{IsId};
ghost use Rattle.pv_header.specs.declared.header.PvHeader.{PvHeader};
ghost use Rattle.pv_header.specs.declared.refusal.PvRefusal.{PvRefusal};
ghost use Rattle.pv_header.specs.PvHeader.{IsPvHeader};
ghost use Rattle.pv_header.specs.PvRefusal.{Reads, Refuses, RefusesFields, RefusesId};

use crate::checks::check_areas;
use crate::list_read::read_list;
use crate::{Extents, PvHeader, PvRefusal};
use lvm_id::{IdRefusal, LvmId, parse_plain};
use sector_base::{Bytes512, get_u32, get_u64};
use std::alloc::Global;

/// Reads the header from the sector of its label, on a disk of `disk` sectors. The refusals are those of `PvRefusal`,
/// tested in its order.
pub fn read_pv(alloc: Global, sector: &Bytes512, disk: u64) -> Result<PvHeader, PvRefusal>
    requires { disk ≤ 2 ^ 40 }
    ensures answer { MatchResult result (Reads sector.now (disk * 512)) (Refuses sector.now (disk * 512)) }

    // But for the want of memory, a header that can be read is read, and a refusal that fits is given.
    ensures accepted { (header : PvHeader) → Reads sector.now (disk * 512) header
        → (result ≡ Ok header) ⊎ (result ≡ Err PvRefusal.NoMemory) }
    ensures refused { (refusal : PvRefusal) → Refuses sector.now (disk * 512) refusal
        → (result ≡ Err refusal) ⊎ ((result ≡ Err PvRefusal.NoMemory) ⊎ (refusal ≡ PvRefusal.NoMemory)) }
{
    read_checked(alloc, sector, disk * 512)
}

// The header on a disk of so many bytes.
fn read_checked(alloc: Global, sector: &Bytes512, disk_bytes: u64) -> Result<PvHeader, PvRefusal>
    ensures { MatchResult result (Reads sector.now disk_bytes) (Refuses sector.now disk_bytes) }
{
    let (header, bootloader) = read_fields(alloc, sector)?;
    check_areas(
        alloc,
        header.data_areas.as_slice(),
        header.areas.as_slice(),
        disk_bytes,
    )?;
    match bootloader.as_slice().first() {
        Some(area) => Err(PvRefusal::Bootloader(area.offset)),
        None => Ok(header),
    }
}

// The header's fields, whatever the areas are, and the bootloader areas.
fn read_fields(alloc: Global, sector: &Bytes512) -> Result<(PvHeader, Extents), PvRefusal>
    ensures { MatchResult result (λ found. IsPvHeader sector.now found.0 found.1) (RefusesFields sector.now) }
{
    let id = read_id(sector)?;
    let device_bytes = get_u64(sector, 64);
    let data_areas = read_list(alloc, sector, 72, 1)?;
    let areas_at = 72 + 16 * (data_areas.len() as u32 + 1);
    let areas = read_list(alloc, sector, areas_at, 2)?;
    let extension = areas_at + 16 * (areas.len() as u32 + 1);
    let bootloader = read_list(alloc, sector, extension + 8, 3)?;
    let header = PvHeader {
        id,
        device_bytes,
        data_areas,
        areas,
        version: get_u32(sector, extension),
        flags: get_u32(sector, extension + 4),
    };
    Ok((header, bootloader))
}

fn read_id(sector: &Bytes512) -> Result<LvmId, PvRefusal>
    ensures { MatchResult result (λ id. (id ≡ slice_range sector.now 32 64) × IsId id) (RefusesId sector.now) }
{
    match parse_plain(&sector.as_bytes()[32..64]) {
        Ok(id) => Ok(id),
        Err(IdRefusal::BadChar(place)) => Err(PvRefusal::BadId(place)),
        Err(IdRefusal::BadLength(_)) => unreachable!(),
        Err(IdRefusal::BadHyphen(_)) => unreachable!(),
    }
}
