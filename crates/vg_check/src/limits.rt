//! Limits of a volume group, in the profile of this program: lvm2 allows more.

/// The most physical volumes that a group may have.
pub const MOST_PVS: u64 = 64;

/// The most logical volumes that a group may have.
pub const MOST_LVS: u64 = 1_024;

/// The most segments that all logical volumes of a group may have together.
pub const MOST_SEGMENTS: u64 = 16_384;

/// The most legs that a segment may have.
pub const MOST_LEGS: usize = 8;

// Every number of sectors or extents is below it.
pub(crate) const TOO_LARGE: u64 = 0x1_0000_0000_0000;
