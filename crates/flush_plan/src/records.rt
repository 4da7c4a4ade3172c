//! What a plan keeps of writes, of disks and of flushes. Places are those in the order in which writes completed, over all
//! disks, the first of them 1.

/// A write of this number on this disk.
#[derive(Clone, Copy, Debug, Drop, PartialEq, Eq, Hash)]
pub struct Write {
    pub number: u64,
    pub pv: u32,
}

/// How far the writes of a disk have come.
#[derive(Clone, Copy, Debug, Drop, PartialEq, Eq)]
pub struct Marks {
    /// The place of the disk's last completed write, 0 without one.
    pub written: u64,
    /// A flush of the disk that was submitted after the write at this place has ended, well or not.
    pub ended: u64,
    /// A flush of the disk that was submitted after the write at this place has completed well.
    pub stable: u64,
}

/// A flush in flight.
#[derive(Clone, Copy, Debug, Drop, PartialEq, Eq)]
pub struct Flush {
    pub tag: u64,
    pub pv: u32,
    /// It was submitted after the write at this place had completed, and before the next one did.
    pub after: u64,
}
