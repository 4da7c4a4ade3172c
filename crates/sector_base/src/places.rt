//! Places on disks and pieces of volumes.

/// A sector of a physical volume.
#[derive(Clone, Copy, Debug, Drop, PartialEq, Eq)]
pub struct At {
    pub pv: u32,
    pub sector: u64,
}

/// A piece of a read or of a write: `count` sectors of a volume from the sector `first` on.
#[derive(Clone, Copy, Debug, Drop, PartialEq, Eq)]
pub struct Piece {
    pub volume: u32,
    pub first: u64,
    pub count: u32,
    pub write: bool,
}
