//! What is given.

use sector_base::ItemList;

/// Where one leg of a part begins.
#[derive(Clone, Copy, Debug, PartialEq, Eq)]
pub struct PartRun {
    /// The number of the physical volume in the text of the group.
    pub pv: u32,
    /// The first extent there.
    pub first: u64,
}

/// Where the legs of a part begin, one for each leg. Contracts see the list of them.
pub type PartRuns = ItemList<PartRun>;

/// So many extents of each leg, which lie side by side.
#[derive(Debug, Drop)]
pub struct Part {
    /// How many extents each leg has here.
    pub extents: u64,
    pub runs: PartRuns,
}

/// The parts of what is given, in their order. Contracts see the list of them.
pub type Given = ItemList<Part>;

/// Extents of a physical volume that follow each other.
#[derive(Clone, Copy, Debug, PartialEq, Eq)]
pub struct PvRun {
    /// The number of the volume.
    pub pv: u32,
    /// The first of them.
    pub first: u64,
    /// How many they are.
    pub count: u64,
}
