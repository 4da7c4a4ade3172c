//! Where a metadata area lies, and lists of areas.
use mda_header::Locn;
use sector_base::ItemList;

/// A metadata area of the disk `pv`: its first byte counted from the disk's start, and its size in bytes. Its first
/// sector is its header, and the rest is its ring.
#[derive(Clone, Copy, Debug, Drop, PartialEq, Eq)]
pub struct Area {
    pub pv: u32,
    pub start: u64,
    pub size: u64,
}

/// A list of areas, each with the entry of its committed text, if there is one. Contracts see it as the list of these
/// pairs.
pub type Areas = ItemList<(Area, Option<Locn>)>;
