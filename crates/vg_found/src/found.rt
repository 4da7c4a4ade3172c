//! What a scan finds.
use crate::DiskTable;
use lvm_id::LvmId;
use mda_ring::Areas;
use meta_read::Unknown;
use sector_base::{ItemList, PvDisks, PvSet, Text};
use vg_check::Checked;

/// Metadata areas, each by the number of its disk and its own number in that disk's header. Contracts see the list of
/// these pairs.
pub type AreaSet = ItemList<(u32, u32)>;

/// Ids, in the order of a text. Contracts see the list of them.
pub type Ids = ItemList<LvmId>;

/// What a scan of disks finds.
#[derive(Debug, Drop)]
pub struct Found {
    /// The group in force; None where no disk holds a copy of one.
    pub group: Option<Checked>,
    /// The text of its copy, byte for byte.
    pub text: Option<Text>,
    /// The paths of the keys in that text that are passed over.
    pub unknown: Unknown,
    /// The disks.
    pub disks: DiskTable,
    /// The metadata areas of all disks that aren't ignored, each with the entry of its committed text. It has none
    /// where its header is refused.
    pub areas: Areas,
    /// The areas on disks of the group that hold anything else than its copy.
    pub stale: AreaSet,
    /// The disks that hold something of a group, and aren't listed by the one in force.
    pub strays: PvSet,
    /// The disks of the group whose headers are of an older version than 2.
    pub old: PvSet,
    /// The physical volumes of the group that are on no disk, or were away when its text was written.
    pub missing: Ids,
    /// The disk of each physical volume of the group; of one that is on none the number of disks.
    pub disk_of: PvDisks,
    /// The disks on which a read failed. They count as empty.
    pub unread: PvSet,
}
