//! What is asked for.

use sector_base::PvSet;

/// Extents that are wanted. Physical volumes go by their numbers in the text of the group.
#[derive(Clone, Copy, Debug, Drop)]
pub struct Request {
    /// How many extents each leg has, at least 1.
    pub extents: u64,
    /// How many legs are wanted, 1 to 8.
    pub legs: u32,
    /// Whether each leg has to lie in one run.
    pub contiguous: bool,
    /// The physical volumes that may be used; all of them where it is empty.
    pub on: PvSet,
    /// The physical volumes that may not be used.
    pub avoid: PvSet,
}
