//! The fields of a header.

/// Where a text stands: its first byte counted from the area's start, its size in bytes, and its checksum.
#[derive(Clone, Copy, Debug, Drop, PartialEq, Eq)]
pub struct Locn {
    pub offset: u64,
    pub size: u64,
    pub sum: u32,
}

/// The header of a metadata area.
#[derive(Clone, Copy, Debug, Drop, PartialEq, Eq)]
pub struct MdaHeader {
    /// The area's first byte on its disk.
    pub start: u64,
    /// The area's size in bytes, its header sector among them.
    pub size: u64,
    /// The committed text, if there is one.
    pub committed: Option<Locn>,
    /// The precommitted text, if there is one.
    pub precommitted: Option<Locn>,
    /// Whether the area is neither read nor written.
    pub ignored: bool,
}
