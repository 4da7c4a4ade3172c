//! Runs of extents.

use sector_base::ItemList;

/// Extents of a volume that follow each other.
#[derive(Clone, Copy, Debug, PartialEq, Eq)]
pub struct ExtentRun {
    /// The first of them.
    pub first: u64,
    /// How many they are.
    pub count: u64,
}

/// Runs of one volume, in its order. Contracts see the list of them.
pub type ExtentRuns = ItemList<ExtentRun>;

/// The free runs of each physical volume, in the order of the text. Contracts see the list of their lists.
pub type FreeRuns = ItemList<ExtentRuns>;
