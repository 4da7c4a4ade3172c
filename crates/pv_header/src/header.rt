//! The header of a physical volume.
ghost use Rattle.std.specs.Prelude.{◌≡◌};
ghost use Rattle.pv_header.specs.DataSectors.{data_start_of, data_end_of};

use crate::Extents;
use crate::next_start::end_sector;
use lvm_id::LvmId;

/// The header of a physical volume: its id, the device's size in bytes, the data areas, the metadata areas, and the
/// version and the flags of the extension.
#[derive(Debug, Drop)]
pub struct PvHeader {
    pub id: LvmId,
    pub device_bytes: u64,
    pub data_areas: Extents,
    pub areas: Extents,
    pub version: u32,
    pub flags: u32,
}

impl PvHeader {
    /// The sector where the data begins, on a disk of `disk` sectors: that of the first data area, rounded up, and at
    /// least 8. It is the disk's end where there is no data area.
    pub fn data_start(&self, disk: u64) -> u64
        ensures { result ≡ data_start_of self.now.data_areas disk }
    {
        match self.data_areas.as_slice().first() {
            Some(area) => area.offset.div_ceil(512).max(8),
            None => disk,
        }
    }

    /// The sector where the data ends, on a disk of `disk` sectors: the first data area's end, rounded down. An area of
    /// size 0 ends where the next metadata area begins, and at the disk's end where there is none. It is the disk's end
    /// where there is no data area.
    pub fn data_end(&self, disk: u64) -> u64
        ensures { result ≡ data_end_of self.now.data_areas self.now.areas disk }
    {
        match self.data_areas.as_slice().first() {
            Some(area) => end_sector(self.areas.as_slice(), *area, disk),
            None => disk,
        }
    }
}
