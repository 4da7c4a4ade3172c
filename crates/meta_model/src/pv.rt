//! A physical volume of a group.

use lvm_id::LvmId;
use sector_base::Text;

/// A physical volume, as the text of its group has it.
#[derive(Debug, Drop)]
pub struct Pv {
    pub id: LvmId,
    /// A hint of where the device was found.
    pub device: Text,
    /// New extents may be given of it.
    pub allocatable: bool,
    /// It was away when the text was written.
    pub missing: bool,
    /// The sectors of its device, 0 where they aren't known.
    pub dev_size: u64,
    /// The sector where its extents begin.
    pub pe_start: u64,
    /// How many extents it has.
    pub pe_count: u64,
}
