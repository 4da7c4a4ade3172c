//! The sectors of a whole row of disks.
use sector_base::{ItemList, Sectors};

/// For each disk, in the order of their numbers, the list of its sectors. Contracts see it as the list of these lists.
pub type Images = ItemList<Sectors>;
