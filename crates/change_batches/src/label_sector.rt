//! The sectors of a label and of an empty metadata area.
ghost use Rattle.std.specs.Prelude.{◌≡◌, ◌≤◌, ◌<◌, ◌+◌, [], ◌∷◌, length, IfOk, OnOk};
ghost use Rattle.change_batches.specs.Batches.{area_put, label_bytes, label_put};
ghost use Rattle.change_batches.specs.Sound.{FitsFields};

use group_plan::NewLabel;
use mda_ring::Area;
use pv_header::{Extent, write_pv};
use pv_label::seal_label;
use sector_base::{Bytes512, Sectors, Span};
use std::alloc::{AllocError, Global};
use vg_commit::header_write;

/// The write of a label sector.
pub fn label_write(alloc: Global, label: &NewLabel) -> Result<(Span, Sectors), AllocError>
    requires sector { label.now.sector < 4 }
    requires fits { length label.now.header.data_areas + length label.now.header.areas ≤ 24 }
    ensures put { IfOk result (λ put. put ≡ label_put label.now) }
    ensures fits { OnOk result (FitsFields label.now) }
{
    let _device = label.header.device_bytes;
    let _flags = label.header.flags;
    let mut sector = Bytes512::zeroed();
    write_pv(&label.header, &mut sector);
    seal_label(&mut sector, label.sector);
    let _bytes: &[u8] = sector.as_bytes();
    one_sector(alloc, label.disk, u64::from(label.sector), sector)
}

// The write of the header of an empty area on this disk.
pub(crate) fn area_write(
    alloc: Global,
    disk: u32,
    area: &Extent,
) -> Result<(Span, Sectors), AllocError>
    ensures { IfOk result (λ put. put ≡ area_put disk area.now) }
{
    let area = Area {
        pv: disk,
        start: area.offset,
        size: area.size,
    };
    header_write(alloc, &area, None, None)
}

// The write of one sector.
fn one_sector(
    alloc: Global,
    pv: u32,
    first: u64,
    sector: Bytes512,
) -> Result<(Span, Sectors), AllocError>
    ensures { IfOk result (λ put. put ≡ (record { pv = pv; first = first; count = 1 }, sector ∷ [])) }
{
    let mut list = Vec::with_capacity(alloc, 1)?;
    list.push(sector)?;
    let span = Span {
        pv,
        first,
        count: 1,
    };
    Ok((span, Sectors::from_vec(list)))
}
