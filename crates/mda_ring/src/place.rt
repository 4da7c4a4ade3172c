//! Where a text is put.

/// A place in the ring: its first byte counted from the area's start, a multiple of 512, and its size in sectors.
#[derive(Clone, Copy, Debug, Drop, PartialEq, Eq)]
pub struct Place {
    pub offset: u64,
    pub sectors: u64,
}
