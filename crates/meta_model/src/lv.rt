//! A logical volume of a group.

use crate::{LvStatus, Segments};
use lvm_id::LvmId;
use sector_base::Text;

/// A logical volume.
#[derive(Debug, Drop)]
pub struct Lv {
    pub id: LvmId,
    pub status: LvStatus,
    /// When it was made, in seconds since 1970.
    pub created: u64,
    /// The host that made it.
    pub host: Text,
    pub segments: Segments,
}
