//! What a line is judged against, and what it changes.
use crate::Backup;
use line_answers::DiskNames;
use mda_ring::Areas;
use pv_header::PvHeader;
use sector_base::{ItemList, PvDisks, PvSet, Span};
use vg_check::Checked;
use vg_found::DiskTable;

/// What a line is judged against.
#[derive(Debug, Drop)]
pub struct GroupState {
    /// The group in force; None where there is none.
    pub group: Option<Checked>,
    /// The disks, with what stands on each.
    pub disks: DiskTable,
    /// Their names.
    pub names: DiskNames,
    /// Their metadata areas that aren't ignored, each with the entry of its committed text.
    pub areas: Areas,
    /// The disk of each physical volume of the group.
    pub disk_of: PvDisks,
    /// What the text of the line gives, where a group is to be restored from it.
    pub backup: Option<Backup>,
}

/// A label sector that is to be written: its disk, its number there, and the header that follows the label in it.
#[derive(Debug, Drop)]
pub struct NewLabel {
    pub disk: u32,
    pub sector: u32,
    pub header: PvHeader,
}

/// Label sectors. Contracts see the list of them.
pub type Labels = ItemList<NewLabel>;

/// Spans of sectors. Contracts see the list of them.
pub type Spans = ItemList<Span>;

/// What a line changes.
#[derive(Debug, Drop)]
pub struct Change {
    /// The group to commit; None where nothing is committed.
    pub group: Option<Checked>,
    /// The sectors that are to hold zeros before the commit.
    pub zero: Spans,
    /// The label sectors to be written.
    pub labels: Labels,
    /// The disks that join the group.
    pub taken: PvSet,
    /// The disks that leave it: once the group is committed, where one is, their labels lose the mark that the physical volume
    /// is in use, and then their metadata areas are emptied.
    pub cleared: PvSet,
    /// The disk of each physical volume of the group after it.
    pub disk_of: PvDisks,
}
