//! The disks that were scanned.
use disk_contents::PvFound;
use sector_base::ItemList;

/// A disk that was scanned.
#[derive(Debug, Drop)]
pub struct Disk {
    /// How many sectors it has.
    pub sectors: u64,
    /// What stands in lvm2's sectors of it: its label sector and its header, or the refusal. None where a read failed.
    pub contents: Option<PvFound>,
}

/// The disks, each at its number. Contracts see the list of them.
pub type DiskTable = ItemList<Disk>;
