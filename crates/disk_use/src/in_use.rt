//! Disks that are in use.
use disk_signature::Kind;

/// Why a disk isn't taken unasked.
#[derive(Clone, Copy, Debug, Drop)]
pub enum Use {
    /// Its label says that a group uses it, and that group isn't found on the disks of the run.
    Group,
    /// Its label has no header that can be read, so nothing tells that it is free.
    Header,
    /// It has no label, but this signature.
    Signature(Kind),
}

/// A disk that is in use.
#[derive(Clone, Copy, Debug, Drop)]
pub struct InUse {
    /// The number of the disk.
    pub pv: u32,
    pub by: Use,
}

/// What a disk itself shows of its use.
#[derive(Clone, Copy, Debug, Drop)]
pub(crate) enum Shown {
    Free,
    /// Its label says that a group uses it.
    Marked,
    Used(Use),
}
