//! Where signatures lie.
ghost use Rattle.std.specs.Prelude.{◌≡◌, ◌<◌};
ghost use Rattle.disk_signature.specs.Places.{byte_in, sector_of};

/// Where a signature begins.
#[derive(Clone, Copy)]
pub enum Place {
    /// At this byte of the disk.
    FromStart(u64),
    /// At the start of this sector from the end: 1 is the last one.
    FromEnd(u64),
    /// Where Linux RAID has its metadata of version 0.90: 128 sectors before the end, which counts as the last multiple
    /// of 128 sectors.
    Md090,
    /// Where Linux RAID has its metadata of version 1.0: 16 sectors before the end or up to 7 more, in a sector whose
    /// number is a multiple of 8.
    Md10,
}

impl Place {
    /// The sector of this place on a disk of so many sectors. None where the disk doesn't have it.
    pub fn sector(self, disk: u64) -> Option<u64>
        ensures { result ≡ sector_of self disk }
    {
        let sector = match self {
            Place::FromStart(byte) => Some(byte / 512),
            Place::FromEnd(sectors) => disk.checked_sub(sectors),
            Place::Md090 => (disk / 128 * 128).checked_sub(128),
            Place::Md10 => disk.checked_sub(16).map(|sector| sector / 8 * 8),
        };
        sector.filter(|sector| *sector < disk)
    }

    /// The byte in this sector.
    pub fn byte(self) -> usize
        ensures value { result ≡ byte_in self }
        ensures within { result < 512 }
    {
        match self {
            Place::FromStart(byte) => (byte % 512) as usize,
            Place::FromEnd(_) | Place::Md090 | Place::Md10 => 0,
        }
    }
}
