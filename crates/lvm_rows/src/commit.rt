//! Texts of groups that are committed on a disk.
use mda_header::{Locn, MdaHeader, write_mda};
use mda_ring::{Place, scatter};
use pv_label::seal_label;
use sector_base::{Bytes512, LVM_CRC_START, Sectors, Text, crc, put_u64};
use std::alloc::{AllocError, Global};

/// How many bytes the metadata area of a new physical volume has.
const AREA_BYTES: u64 = 1_044_480;

/// The sector of the label, and the place in it of the size of its first metadata area.
const LABEL: usize = 1;

const SIZE_AT: u32 = 112;

/// The first byte of the metadata area, its sector, and the first one of its ring.
const AREA_START: u64 = 4_096;

const AREA: usize = 8;

const RING: usize = 9;

/// Commits the text, with a zero byte behind it, to the metadata area of the disk, from the first sector of its ring on. The
/// area is given so many bytes where that is said. Whether the disk has room.
pub fn commit(
    alloc: Global,
    disk: &mut Sectors,
    text: &[u8],
    bytes: Option<u64>,
) -> Result<bool, AllocError> {
    let mut stored = Vec::from_slice(alloc, text)?;
    stored.push(0)?;
    let header = header_of(&stored, bytes.unwrap_or(AREA_BYTES));
    let place = Place {
        offset: 512,
        sectors: (stored.len() as u64).div_ceil(512),
    };
    let sectors = scatter(alloc, &Text::from_vec(stored), place)?;
    if disk.len() < RING || sectors.len() > disk.len() - RING {
        return Ok(false);
    }
    let count = sectors.len();
    disk.copy_in(RING, &sectors, count);
    let mut area = Bytes512::zeroed();
    write_mda(&header, &mut area);
    disk.set(AREA, area);
    if let Some(bytes) = bytes {
        resize_area(disk, bytes);
    }
    Ok(true)
}

// The header of the area of so many bytes once this is committed.
fn header_of(stored: &[u8], bytes: u64) -> MdaHeader {
    MdaHeader {
        start: AREA_START,
        size: bytes,
        committed: Some(Locn {
            offset: 512,
            size: stored.len() as u64,
            sum: crc(LVM_CRC_START, stored),
        }),
        precommitted: None,
        ignored: false,
    }
}

// The label says that its first metadata area has so many bytes.
fn resize_area(disk: &mut Sectors, bytes: u64) {
    if LABEL < disk.len() {
        let mut label = disk.get(LABEL);
        put_u64(&mut label, SIZE_AT, bytes);
        seal_label(&mut label, LABEL as u32);
        disk.set(LABEL, label);
    }
}
