//! A volume group.

use crate::{LvTable, PvTable, VgStatus};
use lvm_id::LvmId;
use lvm_name::GroupName;

/// A volume group: all that its metadata text says.
#[derive(Debug, Drop)]
pub struct Group {
    pub name: GroupName,
    pub id: LvmId,
    /// The number of its version.
    pub seqno: u64,
    pub status: VgStatus,
    /// The sectors of an extent.
    pub extent_size: u64,
    /// The most logical volumes that it may have, 0 where there is no limit.
    pub max_lv: u64,
    /// The most physical volumes that it may have, 0 where there is no limit.
    pub max_pv: u64,
    /// How many copies of the metadata are wanted.
    pub copies: u64,
    pub pvs: PvTable,
    pub lvs: LvTable,
}
