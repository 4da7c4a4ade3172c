//! Areas of a disk and lists of them.
use sector_base::ItemList;

/// An area of a disk, in bytes.
#[derive(Clone, Copy, Debug, Drop, PartialEq, Eq)]
pub struct Extent {
    pub offset: u64,
    pub size: u64,
}

/// A list of areas of a disk, in the order of its header. Contracts see it as the list of their offsets and sizes.
pub type Extents = ItemList<Extent>;
